//! Whether keyUsage goes with the purpose that is asked for (RFC 5280, 4.2.1.12).

use crate::asking::answer_for;
use statements_facts::Profile;
use std::alloc::Global;
use std::test::Fail;

/// The answer in the wide profile, that in the stated one, the purpose, and the certificates below the anchor R, between strokes. Comments
/// begin with a number sign.
const ROWS: &str = "
# each bit with each purpose
good ; good ; serverAuth ; ca(A,R) / ee(T,A){usage 0780}
bad 2 14 Purpose ; good ; serverAuth ; ca(A,R) / ee(T,A){usage 0640}
good ; good ; serverAuth ; ca(A,R) / ee(T,A){usage 0520}
bad 2 14 Purpose ; good ; serverAuth ; ca(A,R) / ee(T,A){usage 0410}
good ; good ; serverAuth ; ca(A,R) / ee(T,A){usage 0308}
bad 2 14 Purpose ; good ; serverAuth ; ca(A,R) / ee(T,A){usage 0204}
good ; good ; clientAuth ; ca(A,R) / ee(T,A){usage 0780}
bad 2 14 Purpose ; good ; clientAuth ; ca(A,R) / ee(T,A){usage 0640}
bad 2 14 Purpose ; good ; clientAuth ; ca(A,R) / ee(T,A){usage 0520}
bad 2 14 Purpose ; good ; clientAuth ; ca(A,R) / ee(T,A){usage 0410}
good ; good ; clientAuth ; ca(A,R) / ee(T,A){usage 0308}
bad 2 14 Purpose ; good ; clientAuth ; ca(A,R) / ee(T,A){usage 0204}
good ; good ; codeSigning ; ca(A,R) / ee(T,A){usage 0780}
bad 2 14 Purpose ; good ; codeSigning ; ca(A,R) / ee(T,A){usage 0640}
bad 2 14 Purpose ; good ; codeSigning ; ca(A,R) / ee(T,A){usage 0520}
bad 2 14 Purpose ; good ; codeSigning ; ca(A,R) / ee(T,A){usage 0410}
bad 2 14 Purpose ; good ; codeSigning ; ca(A,R) / ee(T,A){usage 0308}
bad 2 14 Purpose ; good ; codeSigning ; ca(A,R) / ee(T,A){usage 0204}
good ; good ; emailProtection ; ca(A,R) / ee(T,A){usage 0780}
good ; good ; emailProtection ; ca(A,R) / ee(T,A){usage 0640}
good ; good ; emailProtection ; ca(A,R) / ee(T,A){usage 0520}
bad 2 14 Purpose ; good ; emailProtection ; ca(A,R) / ee(T,A){usage 0410}
good ; good ; emailProtection ; ca(A,R) / ee(T,A){usage 0308}
bad 2 14 Purpose ; good ; emailProtection ; ca(A,R) / ee(T,A){usage 0204}
good ; good ; timeStamping ; ca(A,R) / ee(T,A){usage 0780}
good ; good ; timeStamping ; ca(A,R) / ee(T,A){usage 0640}
bad 2 14 Purpose ; good ; timeStamping ; ca(A,R) / ee(T,A){usage 0520}
bad 2 14 Purpose ; good ; timeStamping ; ca(A,R) / ee(T,A){usage 0410}
bad 2 14 Purpose ; good ; timeStamping ; ca(A,R) / ee(T,A){usage 0308}
bad 2 14 Purpose ; good ; timeStamping ; ca(A,R) / ee(T,A){usage 0204}
good ; good ; OCSPSigning ; ca(A,R) / ee(T,A){usage 0780}
good ; good ; OCSPSigning ; ca(A,R) / ee(T,A){usage 0640}
bad 2 14 Purpose ; good ; OCSPSigning ; ca(A,R) / ee(T,A){usage 0520}
bad 2 14 Purpose ; good ; OCSPSigning ; ca(A,R) / ee(T,A){usage 0410}
bad 2 14 Purpose ; good ; OCSPSigning ; ca(A,R) / ee(T,A){usage 0308}
bad 2 14 Purpose ; good ; OCSPSigning ; ca(A,R) / ee(T,A){usage 0204}
# one of several bits is enough, and none is not
good ; good ; serverAuth ; ca(A,R) / ee(T,A){usage 05A0}
good ; good ; codeSigning ; ca(A,R) / ee(T,A){usage 0284}
bad 2 14 Purpose ; good ; serverAuth ; ca(A,R) / ee(T,A){usage 00}
# without keyUsage, for another purpose, and for any
good ; good ; codeSigning ; ca(A,R) / ee(T,A)
good ; good ; other ; ca(A,R) / ee(T,A){usage 0204}
good ; good ; any ; ca(A,R) / ee(T,A){usage 0204}
good ; good ; none ; ca(A,R) / ee(T,A){usage 0204}
# extKeyUsage is looked at too, in either profile
good ; good ; serverAuth ; ca(A,R) / ee(T,A){usage 0780}{purpose 1.3.6.1.5.5.7.3.1}
bad 2 14 Purpose ; bad 2 14 Purpose ; serverAuth ; ca(A,R) / ee(T,A){usage 0780}{purpose 1.3.6.1.5.5.7.3.2}
bad 2 14 Purpose ; good ; serverAuth ; ca(A,R) / ee(T,A){usage 0640}{purpose 2.5.29.37.0}
# of the last certificate alone
good ; good ; codeSigning ; ca(A,R){usage 0204} / ee(T,A){usage 0780}
# a lesser rank is told first
bad 2 4 Expired ; bad 2 4 Expired ; codeSigning ; ca(A,R) / ee(T,A){usage 0640}{until 250201000000Z}
";

/// The contents of the OBJECT IDENTIFIER of the purpose, if one is asked for.
fn purpose_of(name: &str) -> Option<&'static [u8]> {
    match name {
        "serverAuth" => Some(b"\x2B\x06\x01\x05\x05\x07\x03\x01"),
        "clientAuth" => Some(b"\x2B\x06\x01\x05\x05\x07\x03\x02"),
        "codeSigning" => Some(b"\x2B\x06\x01\x05\x05\x07\x03\x03"),
        "emailProtection" => Some(b"\x2B\x06\x01\x05\x05\x07\x03\x04"),
        "timeStamping" => Some(b"\x2B\x06\x01\x05\x05\x07\x03\x08"),
        "OCSPSigning" => Some(b"\x2B\x06\x01\x05\x05\x07\x03\x09"),
        "any" => Some(b"\x55\x1D\x25\x00"),
        "other" => Some(b"\x2A\x03"),
        _ => None,
    }
}

fn is_answered(
    alloc: Global,
    profile: Profile,
    purpose: Option<&[u8]>,
    path: &str,
    wanted: &str,
) -> Result<bool, Fail> {
    let answer = answer_for(alloc, profile, purpose, path).map_err(|_| "an answer")?;
    Ok(answer.as_str() == wanted)
}

fn row_holds(alloc: Global, row: &str) -> Result<bool, Fail> {
    let (wide, rest) = row.split_once(" ; ").ok_or("an answer")?;
    let (stated, rest) = rest.split_once(" ; ").ok_or("another")?;
    let (name, path) = rest.split_once(" ; ").ok_or("a purpose")?;
    let purpose = purpose_of(name);
    Ok(
        is_answered(alloc, Profile::Wide, purpose, path, wide)?
            && is_answered(alloc, Profile::Stated, purpose, path, stated)?,
    )
}

#[test]
fn each_row_has_its_answers(rt: HostRuntime) -> Result<(), Fail> {
    for row in ROWS.lines().filter(|row| row.contains(';')) {
        assert!(rt; row_holds(rt.alloc(), row)?, "{row}");
    }
    Ok(())
}

#[test]
fn no_row_is_lost(rt: HostRuntime) {
    assert_eq!(rt; ROWS.lines().filter(|row| row.contains(';')).count(), 48);
}
