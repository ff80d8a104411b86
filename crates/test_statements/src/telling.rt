//! What statements tell, on one line.

use cert::{CertFault, Certificate};
use path_verifiers::Verifier;
use statements::{genuine, genuine_under};
use statements_facts::{Facts, Profile, RevokedSerials, Scope, Single, Status};
use statements_parts::StatementFault;
use std::alloc::{AllocError, AllocFailed, Global};
use std::fmt::Write;
use vectors::{NotationFault, ToyVerifier, certificate};

/// Why there is no answer.
#[derive(Clone, Copy, Debug, PartialEq, Eq)]
pub enum Wrong {
    Memory,
    /// A text gives no octets, or the issuer's octets are no certificate.
    Row,
    Refused(StatementFault),
}

impl From<AllocError> for Wrong {
    fn from(_: AllocError) -> Wrong {
        Wrong::Memory
    }
}

impl<T: Drop> From<AllocFailed<T>> for Wrong {
    fn from(_: AllocFailed<T>) -> Wrong {
        Wrong::Memory
    }
}

impl From<NotationFault> for Wrong {
    fn from(fault: NotationFault) -> Wrong {
        match fault {
            NotationFault::Memory => Wrong::Memory,
            _ => Wrong::Row,
        }
    }
}

impl From<CertFault> for Wrong {
    fn from(fault: CertFault) -> Wrong {
        match fault {
            CertFault::Memory => Wrong::Memory,
            _ => Wrong::Row,
        }
    }
}

impl From<StatementFault> for Wrong {
    fn from(fault: StatementFault) -> Wrong {
        match fault {
            StatementFault::Memory => Wrong::Memory,
            _ => Wrong::Refused(fault),
        }
    }
}

fn scope_word(scope: Scope) -> &'static str {
    match scope {
        Scope::All => "all",
        Scope::User => "user",
        Scope::Ca => "ca",
    }
}

/// Each serial number with its reason.
fn push_listed(line: &mut String, revoked: &RevokedSerials<'_>) -> Result<(), AllocError> {
    let alloc = *line.allocator();
    for listed in revoked.as_slice() {
        let serial = hex::encode(alloc, listed.serial)?;
        write!(line, " {serial} {}", listed.reason)?;
    }
    Ok(())
}

fn push_status(line: &mut String, status: Status) -> Result<(), AllocError> {
    match status {
        Status::Good => line.push_str(" good")?,
        Status::Unknown => line.push_str(" unknown")?,
        Status::Revoked(reason) => write!(line, " revoked {reason}")?,
    }
    Ok(())
}

/// The serial number, the status, both times and the window.
fn push_single(line: &mut String, single: &Single<'_>) -> Result<(), AllocError> {
    let serial = hex::encode(*line.allocator(), single.serial)?;
    line.push_str(&serial)?;
    push_status(line, single.status)?;
    write!(line, " {} {}", single.this_update, single.produced_at)?;
    write!(line, " {} {};", single.from, single.until)?;
    Ok(())
}

/// Of a list its scope, number and window, and each serial number with its reason; of a response its single responses.
fn line_of(alloc: Global, facts: &Facts<'_>) -> Result<String, AllocError> {
    let mut line = String::new(alloc);
    match facts {
        Facts::Crl(said) => {
            let number = hex::encode(alloc, &said.number.to_octets())?;
            let digits = number.trim_start_matches('0');
            let scope = scope_word(said.scope);
            write!(line, "{scope} {digits} {} {}", said.from, said.until)?;
            push_listed(&mut line, &said.revoked)?;
        }
        Facts::Ocsp(said) => {
            for single in said.singles.as_slice() {
                match push_single(&mut line, single) {
                    Ok(()) => {}
                    Err(fault) => return Err(fault),
                }
            }
        }
    }
    Ok(line)
}

/// What the statement says under the issuer, as the verifier judges.
pub fn line_under<V: Verifier>(
    alloc: Global,
    verifier: &V,
    issuer: &Certificate<'_>,
    statement: &[u8],
) -> Result<String, Wrong> {
    let facts = genuine(alloc, verifier, issuer, statement)?;
    Ok(line_of(alloc, &facts)?)
}

/// What the statement says under the issuer of the text, where signatures are toys.
pub fn line(alloc: Global, issuer: &str, statement: &[u8]) -> Result<String, Wrong> {
    let issuer = certificate(alloc, issuer)?;
    let issuer = Certificate::read(alloc, &issuer)?;
    line_under(alloc, &ToyVerifier, &issuer, statement)
}

/// The same as a profile has it.
pub fn line_in(
    alloc: Global,
    profile: Profile,
    issuer: &str,
    statement: &[u8],
) -> Result<String, Wrong> {
    let issuer = certificate(alloc, issuer)?;
    let issuer = Certificate::read(alloc, &issuer)?;
    let facts = genuine_under(alloc, profile, &ToyVerifier, &issuer, statement)?;
    Ok(line_of(alloc, &facts)?)
}
