//! Which lists speak of a certificate, by its points and theirs, and the verdicts by them.

use crate::asking::MIDDLE;
use path::{Options, Query};
use relying_texts::Verdict::{Revoked, Unknown, Valid};
use relying_texts::{Verdict, read_statements, read_statements_under, verdict};
use statements_facts::Profile;
use std::alloc::Global;
use vectors::{
    CRL_ISSUER, KEY_COMPROMISE, ListText, ToyVerifier, certificate, certificate_at, list_at,
};

/// The points of the certificate with the serial number 05, each with its names; lists; and the verdict.
type Row = (
    &'static [&'static [&'static str]],
    &'static [ListText],
    Verdict,
);

const ONE: &[&str] = &["http://a/1"];

const TWO: &[&str] = &["http://a/2"];

const BOTH: &[&str] = &["http://a/1", "http://a/2"];

/// The first point with reasons, with a cRLIssuer, and with both.
const FOR_A_REASON: &[&str] = &["http://a/1", KEY_COMPROMISE];

const OF_ANOTHER: &[&str] = &["http://a/1", CRL_ISSUER];

const FOR_A_REASON_OF_ANOTHER: &[&str] = &["http://a/1", KEY_COMPROMISE, CRL_ISSUER];

const CLEAN: &str = "crl(R,5)";

const LISTING: &str = "crl(R,5,[05 1])";

const ROWS: &[Row] = &[
    // the list of the certificate's point
    (&[ONE], &[(CLEAN, 0, ONE)], Valid),
    (&[ONE], &[(LISTING, 0, ONE)], Revoked(1, 1)),
    // the list of another one says nothing of it
    (&[ONE], &[(CLEAN, 0, TWO)], Unknown(1)),
    (&[ONE], &[(LISTING, 0, TWO)], Unknown(1)),
    (&[ONE], &[(CLEAN, 0, ONE), (LISTING, 0, TWO)], Valid),
    // nor does one that is newer
    (
        &[ONE],
        &[(LISTING, 0, ONE), ("crl(R,9)", 0, TWO)],
        Revoked(1, 1),
    ),
    (
        &[ONE],
        &[(CLEAN, 0, ONE), ("crl(R,9,[05 1])", 0, TWO)],
        Valid,
    ),
    // two points
    (
        &[ONE, TWO],
        &[(CLEAN, 0, ONE), (LISTING, 0, TWO)],
        Revoked(1, 1),
    ),
    (
        &[ONE, TWO],
        &[(LISTING, 0, ONE), (CLEAN, 0, TWO)],
        Revoked(1, 1),
    ),
    (&[ONE, TWO], &[(CLEAN, 0, TWO)], Valid),
    // a point with two names, and a list with two
    (&[BOTH], &[(CLEAN, 0, TWO)], Valid),
    (&[BOTH], &[(LISTING, 0, ONE)], Revoked(1, 1)),
    (&[TWO], &[(CLEAN, 0, BOTH)], Valid),
    (&[TWO], &[(LISTING, 0, BOTH)], Revoked(1, 1)),
    (&[ONE], &[(LISTING, 0, BOTH)], Revoked(1, 1)),
    (&[BOTH], &[(LISTING, 0, BOTH)], Revoked(1, 1)),
    // a list that has its name twice
    (
        &[ONE],
        &[(LISTING, 0, &["http://a/1", "http://a/1"])],
        Revoked(1, 1),
    ),
    // a list with a point and a certificate without; a list of all certificates
    (&[], &[(LISTING, 0, ONE)], Unknown(1)),
    (&[ONE], &[(CLEAN, 0, &[])], Valid),
    (&[ONE], &[(LISTING, 0, &[])], Revoked(1, 1)),
    (&[ONE], &[(CLEAN, 0, &[]), (LISTING, 0, ONE)], Revoked(1, 1)),
    (
        &[ONE],
        &[(LISTING, 0, &[]), ("crl(R,9)", 0, ONE)],
        Revoked(1, 1),
    ),
    // the newest at a point, whichever order they come in
    (&[ONE], &[(LISTING, 0, ONE), ("crl(R,6)", 0, ONE)], Valid),
    (&[ONE], &[("crl(R,6)", 0, ONE), (LISTING, 0, ONE)], Valid),
    (
        &[ONE],
        &[(CLEAN, 0, ONE), ("crl(R,6,[05 4])", 0, ONE)],
        Revoked(1, 4),
    ),
    // users' lists and those of CAs, with a point
    (&[ONE], &[(CLEAN, 0x81, ONE)], Valid),
    (&[ONE], &[(LISTING, 0x81, ONE)], Revoked(1, 1)),
    (&[ONE], &[(LISTING, 0x82, ONE)], Unknown(1)),
    (
        &[ONE],
        &[(CLEAN, 0, ONE), (LISTING, 0x81, ONE)],
        Revoked(1, 1),
    ),
    // names are compared by their octets
    (&[ONE], &[(CLEAN, 0, &["http://a/11"])], Unknown(1)),
    (&[ONE], &[(CLEAN, 0, &["http://a/"])], Unknown(1)),
    (&[ONE], &[(CLEAN, 0, &["HTTP://a/1"])], Unknown(1)),
    // a list of another issuer, or with another signature, at the same point
    (&[ONE], &[("crl(X,5,[05 1])", 0, ONE)], Unknown(1)),
    // one that is no longer current
    (
        &[ONE],
        &[("crl(R,5){next 250610000000Z}", 0, ONE)],
        Unknown(1),
    ),
];

/// The same where a point has reasons, a cRLIssuer or both: what a list there revokes is revoked, whatever else is held, but such a list does
/// not cover the certificate (RFC 5280, 6.3.3 (d), (e) and (j)).
const LIMITED: &[Row] = &[
    (&[FOR_A_REASON], &[(LISTING, 0, ONE)], Revoked(1, 1)),
    (&[FOR_A_REASON], &[(CLEAN, 0, ONE)], Unknown(1)),
    (
        &[FOR_A_REASON],
        &[(CLEAN, 0, &[]), (LISTING, 0, ONE)],
        Revoked(1, 1),
    ),
    (&[FOR_A_REASON], &[(CLEAN, 0, &[]), (CLEAN, 0, ONE)], Valid),
    (&[OF_ANOTHER], &[(LISTING, 0, ONE)], Revoked(1, 1)),
    (&[OF_ANOTHER], &[(CLEAN, 0, ONE)], Unknown(1)),
    (
        &[FOR_A_REASON_OF_ANOTHER],
        &[(CLEAN, 0, &[]), (LISTING, 0, ONE)],
        Revoked(1, 1),
    ),
    (&[FOR_A_REASON_OF_ANOTHER], &[(CLEAN, 0, ONE)], Unknown(1)),
    // whatever reason it gives, and lists of either scope
    (
        &[FOR_A_REASON],
        &[(CLEAN, 0, &[]), ("crl(R,5,[05 4])", 0x81, ONE)],
        Revoked(1, 4),
    ),
    // a list of another point, of CAs, or one that is no longer current
    (
        &[FOR_A_REASON],
        &[(CLEAN, 0, &[]), (LISTING, 0, TWO)],
        Valid,
    ),
    (
        &[FOR_A_REASON],
        &[(CLEAN, 0, &[]), (LISTING, 0x82, ONE)],
        Valid,
    ),
    (
        &[FOR_A_REASON],
        &[
            (CLEAN, 0, &[]),
            ("crl(R,5,[05 1]){next 250610000000Z}", 0, ONE),
        ],
        Valid,
    ),
    // beside a point without reasons, whose list covers the certificate, and gives the reason if both give one
    (&[FOR_A_REASON, TWO], &[(CLEAN, 0, TWO)], Valid),
    (
        &[FOR_A_REASON, TWO],
        &[(CLEAN, 0, TWO), (LISTING, 0, ONE)],
        Revoked(1, 1),
    ),
    (
        &[FOR_A_REASON, TWO],
        &[("crl(R,5,[05 4])", 0, TWO), (LISTING, 0, ONE)],
        Revoked(1, 4),
    ),
    // points of one name, of which one has no reasons
    (&[FOR_A_REASON, ONE], &[(CLEAN, 0, ONE)], Valid),
    (&[FOR_A_REASON, ONE], &[(LISTING, 0, ONE)], Revoked(1, 1)),
];

/// The verdict on the certificate below R, by these lists. `None` is answered if there is no memory, or something is refused.
fn verdict_at(alloc: Global, points: &[&[&str]], lists: &[ListText]) -> Option<Verdict> {
    let anchor = certificate(alloc, "ca(R,R)").ok()?;
    let leaf = certificate_at(alloc, "ee(T,R)", points, "R")?;
    let options = Options {
        profile: Profile::Wide,
    };
    let path = [leaf.as_slice()];
    let query = Query::read_with(alloc, &anchor, &path, MIDDLE, None, options).ok()?;
    let mut octets = Vec::new(alloc);
    for list in lists {
        octets.push(list_at(alloc, *list)?).ok()?;
    }
    let mut texts = Vec::new(alloc);
    for list in octets.iter() {
        texts.push(list.as_slice()).ok()?;
    }
    let statements = read_statements_under(alloc, Profile::Wide, &texts).ok()?;
    verdict(alloc, &ToyVerifier, &query, &statements).ok()
}

/// The place of the first row, from 0 on, whose verdict is another.
fn first_wrong(alloc: Global, rows: &[Row]) -> Option<usize> {
    for (place, row) in rows.iter().enumerate() {
        let (points, lists, wanted) = *row;
        if verdict_at(alloc, points, lists) != Some(wanted) {
            return Some(place);
        }
    }
    None
}

#[test]
fn lists_speak_of_certificates_at_their_points(rt: HostRuntime) {
    assert_eq!(rt; first_wrong(rt.alloc(), ROWS), None);
}

#[test]
fn a_point_with_reasons_hides_no_entry(rt: HostRuntime) {
    assert_eq!(rt; first_wrong(rt.alloc(), LIMITED), None);
}

/// In the stated profile a list with a point is refused.
#[test]
fn lists_with_points_are_refused_otherwise(rt: HostRuntime) {
    let alloc = rt.alloc();
    let list = list_at(alloc, (CLEAN, 0, ONE)).unwrap_or(Vec::new(alloc));
    assert!(rt; !list.is_empty());
    assert!(rt; read_statements(alloc, &[list.as_slice()]).is_err());
}
