//! Both profiles, over lists that are published at a point of the certificate (RFC 5280, 5.2.5 and 6.3.3).

use super::*;
use crate::policies::{MIDDLE, ROOT};
use crate::searches::{LIMITS, search};
use crate::tests::{query, refusal, refused, text, verdict};
use capi_values::{QueryOfTexts, SearchOfTexts, SignatureQuestion, Text, VerdictAnswer};
use std::alloc::Global;

/// T under the root, with a cRLDistributionPoints whose point is http://a/1; the same with one of no points; and two lists of the root at
/// that point, of which the second revokes T for keyCompromise. Made by a script of its own.
const LEAF: &[u8] =
    b"\x30\x81\xA2\x30\x77\xA0\x03\x02\x01\x02\x02\x01\x05\x30\x04\x06\x02\x2A\x03\x30\x0C\x31\x0A\x30\x08\x06\x03\x55\x04\x03\x13\x01\x52\x30\x1E\x17\x0D\x32\x35\x30\x31\x30\x31\x30\x30\x30\x30\x30\x30\x5A\x17\x0D\x32\x36\x30\x31\x30\x31\x30\x30\x30\x30\x30\x30\x5A\x30\x0C\x31\x0A\x30\x08\x06\x03\x55\x04\x03\x13\x01\x54\x30\x0A\x30\x04\x06\x02\x2A\x03\x03\x02\x00\x54\xA3\x1F\x30\x1D\x30\x1B\x06\x03\x55\x1D\x1F\x04\x14\x30\x12\x30\x10\xA0\x0E\xA0\x0C\x86\x0A\x68\x74\x74\x70\x3A\x2F\x2F\x61\x2F\x31\x30\x04\x06\x02\x2A\x03\x03\x21\x00\xA4\xC3\x72\xFD\xE6\x47\x6C\x75\xEF\x34\x7E\x88\x34\x0D\x15\x34\xAD\xF8\x76\x75\xB0\x69\x0B\xF4\x5C\x58\xD9\x0F\x09\x04\x2F\xE4";

const MALFORMED: &[u8] =
    b"\x30\x81\x90\x30\x65\xA0\x03\x02\x01\x02\x02\x01\x05\x30\x04\x06\x02\x2A\x03\x30\x0C\x31\x0A\x30\x08\x06\x03\x55\x04\x03\x13\x01\x52\x30\x1E\x17\x0D\x32\x35\x30\x31\x30\x31\x30\x30\x30\x30\x30\x30\x5A\x17\x0D\x32\x36\x30\x31\x30\x31\x30\x30\x30\x30\x30\x30\x5A\x30\x0C\x31\x0A\x30\x08\x06\x03\x55\x04\x03\x13\x01\x54\x30\x0A\x30\x04\x06\x02\x2A\x03\x03\x02\x00\x54\xA3\x0D\x30\x0B\x30\x09\x06\x03\x55\x1D\x1F\x04\x02\x30\x00\x30\x04\x06\x02\x2A\x03\x03\x21\x00\x1A\x52\x4F\x1E\x85\x70\x59\x0C\x23\x9E\x8B\x3B\xE8\x05\xFD\x3F\xB9\x62\x22\xEC\x63\xD7\xB6\x6F\x73\x6A\x53\xFB\x29\x74\x00\x59";

const LIST: &[u8] =
    b"\x30\x81\x8E\x30\x63\x02\x01\x01\x30\x04\x06\x02\x2A\x03\x30\x0C\x31\x0A\x30\x08\x06\x03\x55\x04\x03\x13\x01\x52\x17\x0D\x32\x35\x30\x36\x30\x31\x30\x30\x30\x30\x30\x30\x5A\x17\x0D\x32\x35\x30\x37\x30\x31\x30\x30\x30\x30\x30\x30\x5A\xA0\x2C\x30\x2A\x30\x0A\x06\x03\x55\x1D\x14\x04\x03\x02\x01\x05\x30\x1C\x06\x03\x55\x1D\x1C\x01\x01\xFF\x04\x12\x30\x10\xA0\x0E\xA0\x0C\x86\x0A\x68\x74\x74\x70\x3A\x2F\x2F\x61\x2F\x31\x30\x04\x06\x02\x2A\x03\x03\x21\x00\x57\x25\x60\x73\x7D\xCA\xA8\x68\xD4\x77\xD3\xE9\xF9\x7A\x01\xCB\x90\x62\x4B\xF9\x48\x69\xF1\x2C\x31\x05\x07\x7B\x44\xA1\x19\xC8";

const REVOKING: &[u8] =
    b"\x30\x81\xB3\x30\x81\x87\x02\x01\x01\x30\x04\x06\x02\x2A\x03\x30\x0C\x31\x0A\x30\x08\x06\x03\x55\x04\x03\x13\x01\x52\x17\x0D\x32\x35\x30\x36\x30\x31\x30\x30\x30\x30\x30\x30\x5A\x17\x0D\x32\x35\x30\x37\x30\x31\x30\x30\x30\x30\x30\x30\x5A\x30\x22\x30\x20\x02\x01\x05\x17\x0D\x32\x35\x30\x36\x30\x31\x30\x30\x30\x30\x30\x30\x5A\x30\x0C\x30\x0A\x06\x03\x55\x1D\x15\x04\x03\x0A\x01\x01\xA0\x2C\x30\x2A\x30\x0A\x06\x03\x55\x1D\x14\x04\x03\x02\x01\x05\x30\x1C\x06\x03\x55\x1D\x1C\x01\x01\xFF\x04\x12\x30\x10\xA0\x0E\xA0\x0C\x86\x0A\x68\x74\x74\x70\x3A\x2F\x2F\x61\x2F\x31\x30\x04\x06\x02\x2A\x03\x03\x21\x00\xCB\x17\xAF\x1F\x8C\x3D\xC6\x85\x4A\x3E\xFD\xD5\xDF\x0D\xB6\xAD\x59\x2A\xF3\x05\x62\x21\x78\xCC\x0C\x8D\x28\xF5\x7E\x51\x38\xD7";

/// The verdict on the leaf by the list, of who believes each signature, if this profile is asked for.
fn answer(alloc: Global, leaf: &[u8], list: &[u8], wide: u32) -> VerdictAnswer {
    let (path, list) = ([text(leaf)], [text(list)]);
    let asked = QueryOfTexts {
        wide,
        ..query(text(ROOT), &path, MIDDLE, b"")
    };
    let mut questions = [SignatureQuestion::default(); 2];
    x509check_questions(alloc, &asked, &list, &mut questions);
    let good = questions.map(|question| question.fingerprint);
    x509check_validate(alloc, &asked, &list, &good)
}

#[test]
fn a_list_at_a_point_counts_in_the_wide_profile(rt: HostRuntime) {
    for wide in [1, 2, u32::MAX] {
        assert!(rt; answer(rt.alloc(), LEAF, LIST, wide) == verdict(1, 0, 0));
        assert!(rt; answer(rt.alloc(), LEAF, REVOKING, wide) == verdict(3, 1, 1));
    }
}

/// The place is that of the extension issuingDistributionPoint, by `openssl asn1parse`.
#[test]
fn the_stated_profile_refuses_a_list_at_a_point(rt: HostRuntime) {
    let other = refused(refusal(2, 48, 0, 0, 74));
    assert!(rt; answer(rt.alloc(), LEAF, LIST, 0) == other);
}

/// The sequence of points is empty, and ends at 106.
#[test]
fn points_are_read_in_the_wide_profile(rt: HostRuntime) {
    let malformed = refused(refusal(1, 29, 0, 1, 106));
    assert!(rt; answer(rt.alloc(), MALFORMED, LIST, 1) == malformed);
    let list = refused(refusal(2, 48, 0, 0, 74));
    assert!(rt; answer(rt.alloc(), MALFORMED, LIST, 0) == list);
}

/// A search for a path to the target under two anchors, in a profile. Of anchors no list speaks, so the points of the first do not matter.
fn among<'a>(
    anchors: &'a [Text<'a>],
    target: Text<'a>,
    bag: &'a [Text<'a>],
    wide: u32,
) -> SearchOfTexts<'a> {
    SearchOfTexts {
        moment: MIDDLE,
        wide,
        ..search(anchors, target, bag, LIMITS)
    }
}

#[test]
fn a_search_is_in_a_profile(rt: HostRuntime) {
    let (alloc, mut path) = (rt.alloc(), [9; 3]);
    let (anchors, list) = ([text(MALFORMED), text(ROOT)], [text(REVOKING)]);
    let wide = among(&anchors, text(LEAF), &[], 1);
    let mut questions = [SignatureQuestion::default(); 2];
    x509check_find_questions(alloc, &wide, &list, &mut questions);
    let good = questions.map(|question| question.fingerprint);
    let found = x509check_find(alloc, &wide, &list, &good, &mut path);
    assert!(rt; found.verdict == verdict(3, 1, 1) && path == [1, 2, 9]);
    let stated = among(&anchors, text(LEAF), &[], 0);
    let other = x509check_find(alloc, &stated, &list, &good, &mut []);
    assert!(rt; other.verdict == refused(refusal(2, 48, 0, 0, 111)));
}

#[test]
fn a_search_reads_points_of_all_but_anchors(rt: HostRuntime) {
    let (anchors, bag) = ([text(MALFORMED), text(ROOT)], [text(MALFORMED)]);
    let rows: [(SearchOfTexts<'_>, usize); 2] = [
        (among(&anchors, text(MALFORMED), &[], 1), 2),
        (among(&anchors, text(LEAF), &bag, 1), 3),
    ];
    for (search, number) in rows {
        let malformed = refusal(1, 29, 0, number, 106);
        let found = x509check_find(rt.alloc(), &search, &[], &[], &mut []);
        assert!(rt; found.verdict == refused(malformed));
        let why = x509check_why_not(rt.alloc(), &search, &[], &mut [], &mut [], &mut []);
        assert!(rt; why.refusal == malformed);
    }
}
