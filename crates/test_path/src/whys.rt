//! Why no path is found.

use crate::finding::{SearchFault, explained_among, octets_of};
use path_search::Budget;
use std::alloc::Global;
use std::test::Fail;
use vectors::certificate;

/// One search a line, as in `ROWS`, and the answer: `target` and a reason; or the places in the bag of the tail that got furthest, from the
/// target upward, the anchors that have the name of the issuer of its top, and the certificates of the bag that have it, each with a reason.
const WHYS: &str = "
# The target
an expired target | ca(R,R) | ca(A,R) | ee(T,A){until 250601000000Z} | target Expired
a target of tomorrow | ca(R,R) | | ee(T,R){from 250701000000Z} | target NotYet
a target with an unknown critical extension | ca(R,R) | ca(A,R) | ee(T,A){critical 1.2.3} | target CriticalUnknown
a target that needs a policy, with an unknown critical extension | ca(R,R) | | ee(T,R){critical 1.2.3}{policy} | target Policy
a target for another purpose | ca(R,R) | | ee(T,R){purpose 1.3.6.1.5.5.7.3.2} | target Purpose
a target for the purpose, and no issuer | ca(R,R) | | ee(T,A){purpose 1.3.6.1.5.5.7.3.1} | above : :
# Nobody has the name
a missing intermediate | ca(R,R) | | ee(T,A) | above : :
a missing intermediate further up | ca(R,R) | ca(C,B) ; ca(A,R) | ee(T,C) | above 0 : :
an unknown root | ca(R,R) | ca(A,X) ; ca(X,X) | ee(T,A) | above 0 1 : : 1 Repeated
no certificates at all | | | ee(T,A) | above : :
# Who has it cannot stand above
an expired intermediate beside none | ca(R,R) | ca(A,R){until 250601000000Z} | ee(T,A) | above : : 0 Expired
an intermediate of tomorrow | ca(R,R) | ca(A,R){from 250701000000Z} | ee(T,A) | above : : 0 NotYet
an anchor of the name, with another key | ca(R,R){key R2} | ca(A,R) | ee(T,A) | above 0 : 0 :
two of three anchors have the name | ca(R,R){key R2} ; ca(S,S) ; ca(R,R){key R3} | | ee(T,R) | above : 0 2 :
an intermediate of the name, with another key | ca(R,R) | ca(A,R){key A2} | ee(T,A) | above : : 0 Signature
another key, and expired too | ca(R,R) | ca(A,R){key A2}{until 250601000000Z} | ee(T,A) | above : : 0 Signature
an anchor and an intermediate with other keys | ca(A,A){key A3} | ca(A,R){key A2} | ee(T,A) | above : 0 : 0 Signature
an issuer that is no authority | ca(R,R) | ee(A,R) | ee(T,A) | above : : 0 NotCa
an authority that may not sign certificates | ca(R,R) | ca(A,R){usage 0780} | ee(T,A) | above : : 0 KeyCertSign
an authority that needs a policy | ca(R,R) | ca(A,R){policy} | ee(T,A) | above : : 0 Policy
an authority with an unknown critical extension | ca(R,R) | ca(A,R){critical 1.2.3} | ee(T,A) | above : : 0 CriticalUnknown
a path length | ca(R,R) | ca(A,R){pathlen 0} ; ca(B,A) | ee(T,B) | above 1 : : 0 PathLength
a name that is not permitted | ca(R,R) | ca(A,R){permit dns a.example} | ee(T,A){dns b.example} | above : : 0 NotPermitted
an excluded name far below | ca(R,R) | ca(A,R){exclude dns example} ; ca(B,A) | ee(T,B){dns x.example} | above 1 : : 0 Excluded
the name of an authority below is excluded | ca(R,R) | ca(A,R){exclude dir B} ; ca(B,A) | ee(T,B) | above 1 : : 0 Excluded
a self-issued authority is not held against subtrees | ca(R,R) | ca(A,Q){permit dir T} ; ca(A,A){key N} | ee(T,A){signed N} | above 1 0 : :
a form that is not processed | ca(R,R) | ca(A,R){permit uri .example} | ee(T,A){uri http://x.example} | above : : 0 ConstraintForm
not permitted and excluded | ca(R,R) | ca(A,R){permit dns a.example}{exclude dns b.example} | ee(T,A){dns x.b.example} | above : : 0 NotPermitted
three that have the name | ca(R,R) | ca(A,R){until 250601000000Z} ; ca(B,R) ; ca(A,R){key A2} ; ee(A,R) | ee(T,A) | above : : 0 Expired 2 Signature 3 NotCa
# Which end got furthest
the longer one | ca(R,R) | ca(A,X) ; ca(A,B) ; ca(B,Y) | ee(T,A) | above 1 2 : :
the first of two as long | ca(R,R) | ca(A,X) ; ca(A,B) | ee(T,A) | above 0 : :
a mesh of four below no anchor | ca(R,R) | ca(A,B) ; ca(B,C) ; ca(C,D) ; ca(D,A) | ee(T,A) | above 0 1 2 3 : : 0 Repeated
two that issued each other | ca(R,R) | ca(A,B) ; ca(B,A) | ee(T,A) | above 0 1 : : 0 Repeated
an authority is in the bag twice | ca(R,R) | ca(A,X) ; ca(A,X) | ee(T,A) | above 0 : :
the target is in the bag | ca(R,R) | ca(T,T) | ca(T,T) | above : : 0 Repeated
# A path is valid
of a valid path the end is told, without its anchor | ca(R,R) ; ca(R,R){key R2} | ca(A,R) | ee(T,A) | above 0 : 1 :
";

/// id-kp-serverAuth, 1.3.6.1.5.5.7.3.1
const SERVER: &[u8] = b"\x2B\x06\x01\x05\x05\x07\x03\x01";

const AMPLE: Budget = Budget {
    signatures: 100,
    steps: 100,
};

/// Why the row's search finds nothing.
fn why_of(
    alloc: Global,
    anchors: &str,
    bag: &str,
    target: &str,
    budget: Budget,
) -> Result<String, SearchFault> {
    let anchors = octets_of(alloc, anchors)?;
    let bag = octets_of(alloc, bag)?;
    let target = certificate(alloc, target)?;
    explained_among(alloc, anchors, bag, target, Some(SERVER), budget)
}

#[test]
fn the_end_that_got_furthest_is_explained(rt: HostRuntime) -> Result<(), Fail> {
    for line in WHYS.lines().filter(|line| line.contains('|')) {
        let mut parts = line.split('|').map(str::trim);
        let name = parts.next().unwrap_or("");
        let anchors = parts.next().unwrap_or("");
        let bag = parts.next().unwrap_or("");
        let target = parts.next().unwrap_or("");
        let why = why_of(rt.alloc(), anchors, bag, target, AMPLE).map_err(|_| "an answer")?;
        assert_eq!(rt; why.as_str(), parts.next().unwrap_or(""), "{name}");
    }
    Ok(())
}
