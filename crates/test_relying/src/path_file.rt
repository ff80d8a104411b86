//! A path whose certificates stand in one file.

use crate::asking::{MIDDLE, octets_of, slices_of, verdict_below};
use crate::telling::{Question, Told, asked};
use der_stream::path_octets;
use relying::Verdict::Valid;
use relying::{DeliverAnswer, Node};
use sqlite_disk::Disk;
use std::alloc::Global;
use vectors::ToyVerifier;

/// The certificates, one behind the other.
pub fn file_of(alloc: Global, texts: &[&str]) -> Option<Vec<u8>> {
    let all = octets_of(alloc, texts)?;
    let mut file = Vec::new(alloc);
    for octets in all.iter() {
        file.extend_from_slice(octets).ok()?;
    }
    Some(file)
}

/// Whether the path in this file is valid. Its first certificate is the anchor's.
#[derive(Drop)]
struct IsValid(Vec<u8>);

impl Question for IsValid {
    fn is_answered<D: Disk + Drop>(
        &self,
        alloc: Global,
        party: &mut Node<ToyVerifier, D>,
        _answers: &[DeliverAnswer],
    ) -> bool {
        let read = path_octets(alloc, &mut self.0.as_slice(), 129);
        match slices_of(alloc, &read.values) {
            Some(slices) => verdict_below(alloc, party, &slices, MIDDLE) == Some(Ok(Valid)),
            None => false,
        }
    }
}

const HELD: &[Told] = &[
    Some(("ca(R,R)", "crl(R,5)", &[])),
    Some(("ca(A,A)", "crl(A,1)", &[])),
];

fn is_valid(alloc: Global, texts: &[&str]) -> Option<bool> {
    let file = file_of(alloc, texts)?;
    asked(alloc, HELD, &IsValid(file))
}

#[test]
fn certificates_in_a_row(rt: HostRuntime) {
    let answer = is_valid(rt.alloc(), &["ca(R,R)", "ca(A,R)", "ee(T,A)"]);
    assert!(rt; answer == Some(true));
}
