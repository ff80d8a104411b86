//! Files with several certificates in a row in each: read first, and then their certificates.
ghost use Rattle.std.specs.Prelude.{◌≡◌, map, IfErr, IfOk, None};
ghost use Rattle.cert.specs.Certificate.{seen_certificate};
ghost use Rattle.cli_failures.specs.Failures.{IsUnread};
ghost use Rattle.cli_operands.specs.CertificateValues.{IsToldOf, ReadUpTo};
ghost use Rattle.cli_operands.specs.PathFiles.{AreCertificatesIn, AreCertificatesOf, AreFilesRead, IsFailureIn, IsFailureOf, IsFileRead};

use crate::certificate_values::read_certificates;
use crate::path_file::{PathFile, PathFiles};
use cert::Certificate;
use cli_failures::{Extent, Failure, Source};
use der::{Fault, Rule};
use der_stream::{PathOctets, ReadFault, path_octets};
use statements_facts::Profile;
use std::alloc::Global;

/// The values with which the octets begin, at most so many, and why no more were read.
fn values_of(alloc: Global, octets: &[u8], most: u32) -> PathOctets
    ensures { ReadUpTo most octets.now (map (λ value. value.items) result.values.items)
        result.stopped }
{
    let mut left = octets;
    path_octets(alloc, &mut left, most)
}

/// The file whose octets these are.
fn file_of<'a>(
    alloc: Global,
    profile: Profile,
    file: &'a str,
    octets: &[u8],
    most: u32,
) -> PathFile<'a>
    ensures name { result.file.now ≡ file.entry.now }
    ensures profile { result.profile ≡ profile }
    ensures values { ReadUpTo most octets.now (map (λ value. value.items) result.values.items)
        result.stopped }
{
    let PathOctets { values, stopped } = values_of(alloc, octets, most);
    PathFile {
        file,
        profile,
        values,
        stopped,
    }
}

fn read_file<'a, S: Source>(
    source: &S,
    alloc: Global,
    profile: Profile,
    file: &'a str,
    most: u32,
) -> Result<PathFile<'a>, Failure<'a>>
    ensures reads { IfOk result (IsFileRead profile most (S.holds source.now) file.entry.now) }
    ensures fails { IfErr result (IsUnread (S.holds source.now) file.entry.now) }
{
    let octets = source.octets_of(file, Extent::Values(most))?;
    Ok(file_of(alloc, profile, file, octets.as_slice(), most))
}

/// The files in order, up to the first that cannot be read, and of each at most so many values. No certificate is read of them yet; it will
/// be in the profile.
pub(crate) fn read_files<'a, S: Source>(
    source: &S,
    alloc: Global,
    profile: Profile,
    files: &[&'a str],
    most: u32,
) -> PathFiles<'a>
    ensures { AreFilesRead profile most (S.holds source.now) (map (λ file. file.now) files.now)
        result.files.items result.unread }
{
    let mut read = Vec::new(alloc);
    for file in files {
        let next = match read_file(source, alloc, profile, file, most) {
            Ok(next) => next,
            Err(failure) => {
                return PathFiles {
                    files: read,
                    unread: Some(failure),
                };
            }
        };
        if read.push(next).is_err() {
            return PathFiles {
                files: read,
                unread: Some(Failure::NoMemory),
            };
        }
    }
    PathFiles {
        files: read,
        unread: None,
    }
}

/// Why the file is refused, if the value that starts at this place is. Reading octets in memory cannot fail, and the offset cannot
/// overflow, since no memory holds such a file; so if no rule is broken, only memory was lacking.
fn failure_of<'a>(file: &'a str, place: u64, fault: ReadFault) -> Failure<'a>
    ensures { IsToldOf file.entry.now place fault result }
{
    match fault {
        ReadFault::Fault(Fault::Refused(rule, offset)) => {
            match (place as usize).checked_add(offset) {
                Some(at) => Failure::Refused {
                    file,
                    fault: Fault::Refused(rule, at),
                },
                None => Failure::NoMemory,
            }
        }
        ReadFault::Fault(Fault::Memory) | ReadFault::Io | ReadFault::Limit => Failure::NoMemory,
    }
}

/// The certificates that the values of the file are, each read before the next.
fn certificates_in<'q, 'a>(
    alloc: Global,
    it: &'q PathFile<'a>,
) -> Result<Vec<Certificate<'q>>, Failure<'a>>
    ensures reads { IfOk result (λ certificates.
        AreCertificatesIn it.now (map seen_certificate certificates.items)) }
    ensures fails { IfErr result (IsFailureIn it.now) }
{
    let certificates = read_certificates(alloc, it.profile, it.file, it.values.as_slice())?;
    if let Some((place, fault)) = it.stopped {
        return Err(failure_of(it.file, place, fault));
    }
    if it.values.is_empty() {
        return Err(Failure::Refused {
            file: it.file,
            fault: Fault::Refused(Rule::Truncated, 0),
        });
    }
    Ok(certificates)
}

/// The certificates of the files, one file after the other. The first refused file is reported, else the one that could not be read.
pub(crate) fn certificates_of<'q, 'a>(
    alloc: Global,
    path: &'q PathFiles<'a>,
) -> Result<Vec<Certificate<'q>>, Failure<'a>>
    ensures reads { IfOk result (λ certificates. AreCertificatesOf path.now.files.items
        (map seen_certificate certificates.items)) }
    ensures all { IfOk result (λ certificates. path.now.unread ≡ None) }
    ensures fails { IfErr result (IsFailureOf path.now.files.items path.now.unread) }
{
    let mut all = Vec::new(alloc);
    for file in path.files.as_slice() {
        let mut certificates = certificates_in(alloc, file)?;
        if all.append(&mut certificates).is_err() {
            return Err(Failure::NoMemory);
        }
    }
    match path.unread {
        Some(failure) => Err(failure),
        None => Ok(all),
    }
}
