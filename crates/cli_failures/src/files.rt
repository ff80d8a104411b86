//! What the program reads.
ghost use Rattle.std.specs.Prelude.{◌≡◌, Ok, IfErr, IfOk};
ghost use Rattle.cert.specs.Certificate.{certificate, seen_certificate};
ghost use Rattle.path.specs.InProfile.{certificate_in};
ghost use Rattle.statements_crl.specs.CertificateList.{certificate_list_under, seen_list};
ghost use Rattle.statements_ocsp.specs.OcspResponse.{ocsp_response, seen_response};
ghost use Rattle.statements.specs.Statement.{genuine_statement_under};
ghost use Rattle.statements_facts.specs.Fact.{facts_in};
ghost use Rattle.statements_facts.specs.declared.profile.Profile.TheVariants.{Stated};
ghost use Rattle.cli_failures.specs.Failures.{IsDenied, IsJust, IsNoCertificate, IsNoCertificateIn, IsNoList, IsNoResponse, IsUnread};

use crate::extent::{Extent, read_extent};
use crate::failure::Failure;
use cert::{CertFault, Certificate};
use der_stream::ReadFault;
use path_verifiers::Verifier;
use statements::genuine_under;
use statements_crl::Crl;
use statements_facts::{Facts, Profile};
use statements_ocsp::Response;
use statements_parts::{ReadingFault, StatementFault};
use std::alloc::Global;
use std::rt::Files;
use std::{fs, io};

/// Where files come from, and the profile in which statements, and the certificates of paths, are read of them.
///
/// What a file holds, and whether it can be read, is the source's own matter: no contract can look at a disk. The contracts only know that
/// a source answers what the file of that name holds, and says that a file cannot be read only if it cannot.
pub trait Source {
    ghost use Rattle.std.specs.Prelude.{Some};
    ghost use Rattle.cli_failures.specs.Failures.{Holding};

    /// Whether the file of a name holds octets, or cannot be read; and the profile.
    ghost holds: { Self → Holding };

    /// The profile.
    fn profile(&self) -> Profile
        ensures { result ≡ (holds self.now).profile };

    /// The octets of the file, as far as they matter.
    fn octets_of<'a>(&self, file: &'a str, extent: Extent) -> Result<Vec<u8>, Failure<'a>>
        ensures reads { IfOk result (λ octets.
            (holds self.now).has file.entry.now (Some octets.items)) }
        ensures fails { IfErr result (IsUnread (holds self.now) file.entry.now) };
}

/// The files of the system, of which no contract says what they hold, and whether they can be read. The profile is the stated one.
impl<R: Files + AllocGlobal> Source for R {
    ghost use Rattle.cli_failures.specs.Failures.{any_file};
    ghost use Rattle.statements_facts.specs.declared.profile.Profile.TheVariants.{Stated};

    ghost holds = { λ _. any_file Stated };

    fn profile(&self) -> Profile {
        Profile::Stated
    }

    fn octets_of<'a>(&self, file: &'a str, extent: Extent) -> Result<Vec<u8>, Failure<'a>> {
        let mut source = fs::open(self, file).map_err(|error| match error.kind() {
            io::ErrorKind::OutOfMemory => Failure::NoMemory,
            _ => Failure::Unreadable { file },
        })?;
        read_extent(self.alloc(), &mut source, extent).map_err(|fault| match fault {
            ReadFault::Fault(_) => Failure::NoMemory,
            ReadFault::Io | ReadFault::Limit => Failure::Unreadable { file },
        })
    }
}

/// The certificate that the octets of the file are, in the profile: in the wide one with its points, mail addresses and hosts.
pub fn read_certificate_in<'a, 'o>(
    alloc: Global,
    profile: Profile,
    file: &'a str,
    octets: &'o [u8],
) -> Result<Certificate<'o>, Failure<'a>>
    ensures reads { IfOk result (λ read.
        certificate_in profile octets.now ≡ Ok (seen_certificate read)) }
    ensures fails { IfErr result
        (IsNoCertificateIn profile (IsJust profile octets.now) file.entry.now) }
{
    match path::read_certificate(alloc, profile, octets) {
        Ok(read) => Ok(read),
        Err(CertFault::Refused(rule, at)) => Err(Failure::NoCertificate { file, rule, at }),
        Err(CertFault::Memory) => Err(Failure::NoMemory),
    }
}

/// The same of a certificate in which these do not count: an anchor, an issuer, or one that is shown.
pub fn read_certificate<'a, 'o>(
    alloc: Global,
    file: &'a str,
    octets: &'o [u8],
) -> Result<Certificate<'o>, Failure<'a>>
    ensures reads { IfOk result (λ read. certificate octets.now ≡ Ok (seen_certificate read)) }
    ensures fails { IfErr result (IsNoCertificate (IsJust Stated octets.now) file.entry.now) }
{
    read_certificate_in(alloc, Profile::Stated, file, octets)
}

/// The revocation list that the octets of the file are, in the profile.
pub fn read_list<'a, 'o>(
    alloc: Global,
    profile: Profile,
    file: &'a str,
    octets: &'o [u8],
) -> Result<Crl<'o>, Failure<'a>>
    ensures reads { IfOk result (λ read.
        certificate_list_under profile octets.now ≡ Ok (seen_list read)) }
    ensures fails { IfErr result (IsNoList (IsJust profile octets.now) file.entry.now) }
{
    match Crl::read_under(alloc, profile, octets) {
        Ok(read) => Ok(read),
        Err(ReadingFault::Refused(rule, at)) => Err(Failure::NoRevocationList { file, rule, at }),
        Err(ReadingFault::Memory) => Err(Failure::NoMemory),
    }
}

/// The response that the octets of the file are.
pub fn read_response<'a, 'o>(
    alloc: Global,
    file: &'a str,
    octets: &'o [u8],
) -> Result<Response<'o>, Failure<'a>>
    ensures reads { IfOk result (λ read. ocsp_response octets.now ≡ Ok (seen_response read)) }
    ensures fails { IfErr result (IsNoResponse (IsJust Stated octets.now) file.entry.now) }
{
    match Response::read(alloc, octets) {
        Ok(read) => Ok(read),
        Err(ReadingFault::Refused(rule, at)) => Err(Failure::NoResponse { file, rule, at }),
        Err(ReadingFault::Memory) => Err(Failure::NoMemory),
    }
}

/// What the statement in the file says, read in the profile, if it is one of the issuer.
pub fn read_facts<'a, 'x, V: Verifier>(
    alloc: Global,
    profile: Profile,
    verifier: &V,
    issuer: &Certificate<'x>,
    file: &'a str,
    statement: &'x [u8],
) -> Result<Facts<'x>, Failure<'a>>
    ensures says { IfOk result (λ facts. genuine_statement_under profile (V.accepts verifier.now)
        (seen_certificate issuer.now) statement.now ≡ Ok (facts_in facts)) }
    ensures denied { IfErr result (IsDenied
        (genuine_statement_under profile (V.accepts verifier.now)
        (seen_certificate issuer.now) statement.now) file.entry.now) }
{
    match genuine_under(alloc, profile, verifier, issuer, statement) {
        Ok(facts) => Ok(facts),
        Err(StatementFault::Memory) => Err(Failure::NoMemory),
        Err(fault) => Err(Failure::NotGenuine { file, fault }),
    }
}
