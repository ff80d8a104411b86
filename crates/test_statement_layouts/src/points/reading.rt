//! What a list with the extension is read as.

use crate::points::building::{RowFault, SIGNATURE, extension, list_with};
use crate::points::by_hand::ROWS;
use statements_crl::{
    Crl, GeneralNames, Profile, ReadingFault, Scope, StatementRule, profile_laws,
};
use std::alloc::Global;
use std::fmt::Write;
use std::test::Fail;

/// What a row has, and what it wants.
#[derive(Clone, Copy)]
struct Row<'t> {
    contents: &'t str,
    stated: &'t str,
    wide: &'t str,
}

fn row_of(row: &str) -> Row<'_> {
    let mut parts = row.split(';').map(str::trim);
    Row {
        contents: parts.next().unwrap_or(""),
        stated: parts.next().unwrap_or(""),
        wide: parts.next().unwrap_or(""),
    }
}

fn push_hex(alloc: Global, text: &mut String, octets: &[u8]) -> Result<(), RowFault> {
    for octet in octets {
        text.push_str(&format!(in alloc; "{octet:02X}")?)?;
    }
    Ok(())
}

fn push_names(alloc: Global, text: &mut String, names: GeneralNames<'_>) -> Result<(), RowFault> {
    for name in names.octets(alloc)? {
        text.push(' ')?;
        push_hex(alloc, text, name)?;
    }
    Ok(())
}

fn word_of(scope: Scope) -> &'static str {
    match scope {
        Scope::All => "all",
        Scope::User => "user",
        Scope::Ca => "ca",
    }
}

/// The scope and the names of a list, as a row has them.
pub fn said(alloc: Global, list: &Crl<'_>) -> Result<String, RowFault> {
    let mut text = format!(in alloc; "{}", word_of(list.scope))?;
    if let Some(names) = list.points {
        push_names(alloc, &mut text, names)?;
    }
    Ok(text)
}

/// A refusal as a row has it: the fault `Scope` at this place.
fn told(alloc: Global, fault: ReadingFault, place: usize) -> Result<String, RowFault> {
    if fault == ReadingFault::Refused(StatementRule::Scope, place) {
        return Ok(format!(in alloc; "-")?);
    }
    Err(RowFault::Other)
}

/// What a list with the extension of the row is read as, in a profile.
fn read_of(alloc: Global, profile: Profile, contents: &str) -> Result<String, RowFault> {
    let contents = hex::decode(alloc, contents).map_err(|_| RowFault::Other)?;
    let own = extension(alloc, &contents)?;
    let octets = list_with(alloc, &own)?;
    let place = octets.len().saturating_sub(SIGNATURE.len() + own.len());
    match Crl::read_under(alloc, profile, &octets) {
        Ok(read) => said(alloc, &read),
        Err(fault) => told(alloc, fault, place),
    }
}

#[test]
fn each_value_is_read_in_the_stated_profile(rt: HostRuntime) -> Result<(), Fail> {
    for line in ROWS.lines().filter(|line| line.contains(';')) {
        let row = row_of(line);
        let read = read_of(rt.alloc(), Profile::Stated, row.contents).map_err(|_| "a list")?;
        assert_eq!(rt; read.as_str(), row.stated, "{line}");
    }
    Ok(())
}

#[test]
fn each_value_is_read_in_the_wide_profile(rt: HostRuntime) -> Result<(), Fail> {
    for line in ROWS.lines().filter(|line| line.contains(';')) {
        let row = row_of(line);
        let read = read_of(rt.alloc(), Profile::Wide, row.contents).map_err(|_| "a list")?;
        assert_eq!(rt; read.as_str(), row.wide, "{line}");
    }
    profile_laws();
    Ok(())
}
