//! Questions of which a text is no certificate.

use crate::building::{MIDDLE, octets_of};
use cert::{CertFault, CertRule};
use path::{Query, QueryFault};
use std::alloc::Global;

/// A SEQUENCE of nothing: the first value is missing at its end.
const EMPTY: &[u8] = b"\x30\x00";

/// How a question is refused of which the second certificate is that text.
fn refusal_of_second(alloc: Global) -> Option<QueryFault> {
    let mut texts = octets_of(alloc, &["ca(R,R)", "ca(A,R)", "ee(T,A)"]).ok()?;
    texts.push(Vec::from_slice(alloc, EMPTY).ok()?).ok()?;
    let [anchor, first, last, empty] = texts.as_slice() else {
        return None;
    };
    Query::read(alloc, anchor, &[first, empty, last], MIDDLE, None).err()
}

#[test]
fn the_second_certificate_is_refused(rt: HostRuntime) {
    let fault = CertFault::Refused(CertRule::Layout, 2);
    let wanted = QueryFault {
        certificate: 2,
        fault,
    };
    assert_eq!(rt; refusal_of_second(rt.alloc()), Some(wanted));
}
