//! Queries about paths whose certificate policies are processed.
ghost use Rattle.std.specs.Prelude.{◌≡◌, ◌<◌, ◌≤◌, ◌+◌, ◌^◌, IfErr, IfOk, IfSome, length, map, take};
ghost use Rattle.der_stream.specs.Sequence.{joined};
ghost use Rattle.cli_operands.specs.Policies.{IsPolicyQueryOf, IsRefusalWithPolicies, IsToldAmong, StartsAmong};

use crate::operand_files::Operands;
use crate::path_file::PathFile;
use crate::terms::Terms;
use cert::CertFault;
use cli_failures::Failure;
use path_with_policies::{PolicyInputs, QueryWithPolicies};
use std::alloc::Global;

/// How many octets the first values have, so many.
fn front_len(values: &[Vec<u8>], count: usize) -> usize
    requires fits { length (joined (map (λ value. value.items) values.now)) < 2 ^ 64 }
    requires within { count ≤ length values.now }
    ensures { result ≡ length (joined (map (λ value. value.items) (take count values.now))) }
{
    let (front, _) = values.split_at(count);
    let mut len = 0;
    for value in front {
        len += value.len();
    }
    len
}

/// The file of the value of that number among those that were read of the files, counted from 0, and where it starts in it.
fn start_among<'a>(files: &[PathFile<'a>], index: usize) -> Option<(&'a str, usize)>
    ensures { IfSome result (λ found. StartsAmong files.now index found.0.now found.1) }
{
    let mut left = index;
    for it in files {
        if left < it.values.len() {
            return Some((it.file, front_len(it.values.as_slice(), left)));
        }
        left -= it.values.len();
    }
    None
}

/// The failure for a fault in what the certificate of that number, counted from 0, says of policies.
///
/// The fault is at an octet of the certificate, so the offset in the file cannot overflow.
fn failure_among<'a>(files: &[PathFile<'a>], index: usize, fault: CertFault) -> Failure<'a>
    ensures { IsToldAmong files.now index fault result }
{
    let CertFault::Refused(rule, offset) = fault else {
        return Failure::NoMemory;
    };
    let Some((file, start)) = start_among(files, index) else {
        return Failure::NoMemory;
    };
    match start.checked_add(offset) {
        Some(at) => Failure::NoCertificate { file, rule, at },
        None => Failure::NoMemory,
    }
}

impl<'a> Operands<'a> {
    /// The same query, with the policies of the certificates of the path apart. If all certificates can be read, the first whose extensions
    /// about policies are malformed is reported.
    pub fn query_with_policies<'p, 'q>(
        &'q self,
        alloc: Global,
        terms: &'q Terms,
        inputs: PolicyInputs<'p, 'q>,
    ) -> Result<QueryWithPolicies<'p, 'q>, Failure<'a>>
        ensures asks { IfOk result (IsPolicyQueryOf self.now terms.now inputs.entry) }
        ensures fails { IfErr result (IsRefusalWithPolicies self.now terms.now) }
    {
        let query = self.query(alloc, terms)?;
        match QueryWithPolicies::of(alloc, query, inputs) {
            Ok(query) => Ok(query),
            Err(refusal) => Err(failure_among(
                self.path.files.as_slice(),
                refusal.certificate - 1,
                refusal.fault,
            )),
        }
    }
}
