//! What the extension is read as.

use crate::building::{RowFault, SIGNATURE, certificate, extension, joined, told};
use crate::points::by_hand::ROWS;
use cert::Certificate;
use cert_points::{
    DistributionPoint, DistributionPoints, GeneralNames, PointName, point_layout_laws,
    point_reading_laws,
};
use std::alloc::Global;
use std::fmt::Write;
use std::test::Fail;

/// cRLDistributionPoints, 2.5.29.31
const POINTS: &[u8] = &[0x55, 0x1D, 0x1F];

/// What a row has, and what it wants.
#[derive(Clone, Copy)]
struct Row<'t> {
    contents: &'t str,
    wanted: &'t str,
    complete: &'t str,
}

fn row_of(row: &str) -> Row<'_> {
    let mut parts = row.split(';').map(str::trim);
    Row {
        contents: parts.next().unwrap_or(""),
        wanted: parts.next().unwrap_or(""),
        complete: parts.next().unwrap_or(""),
    }
}

fn push_hex(alloc: Global, text: &mut String, octets: &[u8]) -> Result<(), RowFault> {
    for octet in octets {
        text.push_str(&format!(in alloc; "{octet:02X}")?)?;
    }
    Ok(())
}

fn push_names(alloc: Global, text: &mut String, names: GeneralNames<'_>) -> Result<(), RowFault> {
    for name in names.octets(alloc)? {
        text.push(' ')?;
        push_hex(alloc, text, name)?;
    }
    Ok(())
}

fn push_point(
    alloc: Global,
    text: &mut String,
    point: &DistributionPoint<'_>,
) -> Result<(), RowFault> {
    match point.name {
        None => text.push('-')?,
        Some(PointName::Relative) => text.push('R')?,
        Some(PointName::FullName(names)) => {
            text.push('F')?;
            push_names(alloc, text, names)?;
        }
    }
    if let Some(reasons) = point.reasons {
        text.push_str(" r")?;
        push_hex(alloc, text, reasons)?;
    }
    if let Some(issuer) = point.issuer {
        text.push_str(" i")?;
        push_names(alloc, text, issuer)?;
    }
    Ok(())
}

/// The points as a row has them.
fn said(alloc: Global, read: &DistributionPoints<'_>) -> Result<String, RowFault> {
    let mut text = format!(in alloc; "")?;
    for (index, point) in read.points.iter().enumerate() {
        if index > 0 {
            text.push_str(" , ")?;
        }
        push_point(alloc, &mut text, point)?;
    }
    Ok(text)
}

/// The names under which complete lists may be published, as a row has them.
pub fn complete(alloc: Global, read: &DistributionPoints<'_>) -> Result<String, RowFault> {
    let mut text = format!(in alloc; "")?;
    for (index, name) in read.complete_names(alloc)?.iter().enumerate() {
        if index > 0 {
            text.push(' ')?;
        }
        push_hex(alloc, &mut text, name)?;
    }
    if text.is_empty() {
        text.push('-')?;
    }
    Ok(text)
}

/// What is read, and the names.
#[derive(Drop)]
struct Found {
    points: String,
    complete: String,
}

/// What is read of a certificate with two extensions, of which the second is the row's.
fn read_of(alloc: Global, row: &Row<'_>) -> Result<Found, RowFault> {
    let contents = hex::decode(alloc, row.contents).map_err(|_| RowFault::Word)?;
    let other = extension(alloc, &[0x55, 0x1D, 0x0E], &[], b"\x04\x01K")?;
    let own = extension(alloc, POINTS, &[], &contents)?;
    let octets = certificate(alloc, Some(&joined(alloc, &[&other, &own])?))?;
    let before = octets
        .len()
        .saturating_sub(SIGNATURE.len() + contents.len());
    let certificate = Certificate::read(alloc, &octets).map_err(|_| RowFault::Word)?;
    match DistributionPoints::read(alloc, &certificate) {
        Ok(Some(read)) => Ok(Found {
            points: said(alloc, &read)?,
            complete: complete(alloc, &read)?,
        }),
        Ok(None) => Err(RowFault::Word),
        Err(fault) => Ok(Found {
            points: told(alloc, fault, before)?,
            complete: format!(in alloc; "")?,
        }),
    }
}

#[test]
fn each_extension_is_read(rt: HostRuntime) -> Result<(), Fail> {
    for line in ROWS.lines().filter(|line| line.contains(';')) {
        let row = row_of(line);
        let read = read_of(rt.alloc(), &row).map_err(|_| "a certificate")?;
        assert_eq!(rt; read.points.as_str(), row.wanted, "{line}");
        assert_eq!(rt; read.complete.as_str(), row.complete, "{line}");
    }
    point_layout_laws();
    point_reading_laws();
    Ok(())
}

/// One point without reasons and issuer, which has the name 860161.
const PLAIN_POINT: &[u8] = b"\x30\x09\x30\x07\xA0\x05\xA0\x03\x86\x01a";

/// How many points are read of a certificate with these extensions; `None` without the extension.
fn count_of(alloc: Global, extensions: Option<&[u8]>) -> Result<Option<usize>, RowFault> {
    let octets = certificate(alloc, extensions)?;
    let certificate = Certificate::read(alloc, &octets).map_err(|_| RowFault::Word)?;
    let found = DistributionPoints::read(alloc, &certificate).map_err(|_| RowFault::Word)?;
    Ok(found.map(|read| read.points.len()))
}

/// The same of one extension.
fn count_of_one(alloc: Global, oid: &[u8], critical: &[u8]) -> Result<Option<usize>, RowFault> {
    let one = extension(alloc, oid, critical, PLAIN_POINT)?;
    count_of(alloc, Some(&one))
}

#[test]
fn a_certificate_without_extensions_has_no_points(rt: HostRuntime) -> Result<(), Fail> {
    assert_eq!(rt; count_of(rt.alloc(), None), Ok(None));
    Ok(())
}

#[test]
fn a_critical_extension_is_read(rt: HostRuntime) -> Result<(), Fail> {
    assert_eq!(rt;
        count_of_one(rt.alloc(), POINTS, &[0x01, 0x01, 0xFF]),
        Ok(Some(1))
    );
    Ok(())
}

/// freshestCRL, whose layout is the same (4.2.1.15); a type that begins with that of distribution points; and one that it ends.
const OTHER_TYPES: &[&[u8]] = &[
    &[0x55, 0x1D, 0x2E],
    &[0x55, 0x1D, 0x1F, 0x01],
    &[0x55, 0x1E, 0x1F],
];

#[test]
fn other_types_are_passed_over(rt: HostRuntime) -> Result<(), Fail> {
    for oid in OTHER_TYPES {
        assert_eq!(rt; count_of_one(rt.alloc(), oid, &[]), Ok(None));
    }
    Ok(())
}

/// How many points are read of the extension among two others.
fn count_among(alloc: Global) -> Result<Option<usize>, RowFault> {
    let first = extension(alloc, &[0x55, 0x1D, 0x2E], &[], b"\x05\x00")?;
    let own = extension(alloc, POINTS, &[], PLAIN_POINT)?;
    let last = extension(alloc, &[0x55, 0x1D, 0x0E], &[], b"\x04\x01K")?;
    count_of(alloc, Some(&joined(alloc, &[&first, &own, &last])?))
}

#[test]
fn the_extension_stands_anywhere(rt: HostRuntime) -> Result<(), Fail> {
    assert_eq!(rt; count_among(rt.alloc()), Ok(Some(1)));
    Ok(())
}

/// Whether the full name of the first point of a certificate has these octets among its names.
fn has_name(alloc: Global, name: &[u8]) -> Result<bool, RowFault> {
    let own = extension(alloc, POINTS, &[], PLAIN_POINT)?;
    let octets = certificate(alloc, Some(&own))?;
    let certificate = Certificate::read(alloc, &octets).map_err(|_| RowFault::Word)?;
    let found = DistributionPoints::read(alloc, &certificate).map_err(|_| RowFault::Word)?;
    let read = found.ok_or(RowFault::Word)?;
    let point = read.points.first().ok_or(RowFault::Word)?;
    let names = point.complete_names().ok_or(RowFault::Word)?;
    Ok(names.has(name))
}

#[test]
fn a_name_is_told_by_its_octets(rt: HostRuntime) -> Result<(), Fail> {
    assert_eq!(rt; has_name(rt.alloc(), b"\x86\x01a"), Ok(true));
    assert_eq!(rt; has_name(rt.alloc(), b"\x86\x01A"), Ok(false));
    assert_eq!(rt; has_name(rt.alloc(), b"\x82\x01a"), Ok(false));
    Ok(())
}
