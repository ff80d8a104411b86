use super::*;
use crate::authority::{GOOD, LISTS, PATH, REVOKING};
use crate::extended::{CONSTRAINTS, DELEGATE};
use capi_values::{
    Asked, Part, Place, QueryOfTexts, Refusal, SignatureQuestion, Text, VerdictAnswer,
};
use std::alloc::Global;

/// A certificate that OpenSSL made.
const CERTIFICATE: &[u8] = b"\
    \x30\x82\x01\x53\x30\x82\x01\x05\xA0\x03\x02\x01\x02\x02\x02\x04\xD2\x30\x05\x06\x03\x2B\
    \x65\x70\x30\x0D\x31\x0B\x30\x09\x06\x03\x55\x04\x03\x0C\x02\x63\x61\x30\x1E\x17\x0D\x32\
    \x36\x31\x31\x32\x32\x31\x36\x33\x36\x34\x30\x5A\x17\x0D\x33\x36\x31\x31\x31\x39\x31\x36\
    \x33\x36\x34\x30\x5A\x30\x0D\x31\x0B\x30\x09\x06\x03\x55\x04\x03\x0C\x02\x63\x61\x30\x2A\
    \x30\x05\x06\x03\x2B\x65\x70\x03\x21\x00\x35\x69\xCA\xAF\x37\xBB\xBB\x29\x5F\x18\x52\x3E\
    \x93\x3D\x1D\x05\x61\x51\x3B\x36\x1B\xB9\x7D\x26\xA6\x1D\x6B\xB1\x10\x2B\xCF\x1E\xA3\x81\
    \x88\x30\x81\x85\x30\x1D\x06\x03\x55\x1D\x0E\x04\x16\x04\x14\x29\x40\x5A\x3C\x85\x4E\xA7\
    \xF9\xF0\xE0\x09\x17\x2A\xDB\x67\x09\xBC\x45\x7B\xA5\x30\x1F\x06\x03\x55\x1D\x23\x04\x18\
    \x30\x16\x80\x14\x29\x40\x5A\x3C\x85\x4E\xA7\xF9\xF0\xE0\x09\x17\x2A\xDB\x67\x09\xBC\x45\
    \x7B\xA5\x30\x12\x06\x03\x55\x1D\x13\x01\x01\xFF\x04\x08\x30\x06\x01\x01\xFF\x02\x01\x03\
    \x30\x0E\x06\x03\x55\x1D\x0F\x01\x01\xFF\x04\x04\x03\x02\x01\x06\x30\x1F\x06\x03\x55\x1D\
    \x11\x04\x18\x30\x16\x82\x09\x61\x2E\x65\x78\x61\x6D\x70\x6C\x65\x82\x09\x62\x2E\x65\x78\
    \x61\x6D\x70\x6C\x65\x30\x05\x06\x03\x2B\x65\x70\x03\x41\x00\x5C\xDE\x22\x29\x80\x06\xD2\
    \x31\x97\x53\x3B\x2D\xCF\xC8\xD9\x78\x13\xFD\xDD\x1A\x28\x73\x89\x66\xB7\x86\xF1\x6A\xBF\
    \x4A\x8E\xEF\x84\xB6\x47\x75\xA8\x03\xFD\x99\xC9\xA9\x1F\x8D\x3B\xF9\x32\x8A\x4D\x49\x0C\
    \x61\xEF\x24\x7C\x49\x71\x90\x10\x0D\x1C\x12\x3B\x04";

/// What Python's hashlib gives of four texts, each behind its length.
const FINGERPRINT: &[u8] =
    b"\x72\x3A\xF5\x32\xED\xD9\xE4\xCA\xAE\x4A\x40\xA7\x3B\xAB\xAA\xD3\xEF\x9C\x8E\xD5\xDD\x67\x71\x40\x10\xE2\x74\x0F\x6F\x0B\xE4\xBC";

/// What `sha256sum` prints of no octets, and of three.
const DIGEST_OF_NOTHING: &[u8] =
    b"\xE3\xB0\xC4\x42\x98\xFC\x1C\x14\x9A\xFB\xF4\xC8\x99\x6F\xB9\x24\x27\xAE\x41\xE4\x64\x9B\x93\x4C\xA4\x95\x99\x1B\x78\x52\xB8\x55";

const DIGEST_OF_ABC: &[u8] =
    b"\xBA\x78\x16\xBF\x8F\x01\xCF\xEA\x41\x41\x40\xDE\x5D\xAE\x22\x23\xB0\x03\x61\xA3\x96\x17\x7A\x9C\xB4\x10\xFF\x61\xF2\x00\x15\xAD";

#[test]
fn checks(rt: HostRuntime) {
    let rows: [(&[u8], u32, usize); 6] = [
        (&[0x30, 0x03, 0x02, 0x01, 0x05], 0, 0),
        (&[0x1F], 1, 0),
        (&[0x02, 0x81, 0x7F], 2, 0),
        (&[], 4, 0),
        (&[0x30, 0x04, 0x05, 0x00, 0x03, 0x00], 6, 4),
        (&[0x05, 0x00, 0x00], 7, 2),
    ];
    for (octets, fault, offset) in rows {
        assert_eq!(rt;
            x509check_check(octets),
            Answer { fault, offset },
            "{octets:?}"
        );
    }
}

#[test]
fn refuses(rt: HostRuntime) {
    let rows: [(&[u8], u32, u32, usize); 3] = [
        (&[0x30, 0x04, 0x05, 0x00, 0x03, 0x00], 21, 6, 4),
        (&[0x02, 0x01, 0x00], 22, 0, 0),
        (&[0x30, 0x02, 0x05, 0x00], 22, 0, 2),
    ];
    for (octets, fault, der_fault, offset) in rows {
        let answer = x509check_read_certificate(rt.alloc(), octets);
        assert_eq!(rt; answer.fault, fault, "{octets:?}");
        assert_eq!(rt; answer.der_fault, der_fault, "{octets:?}");
        assert_eq!(rt; answer.offset, offset, "{octets:?}");
        assert_eq!(rt; answer.fields, Fields::default(), "{octets:?}");
    }
}

fn is_part(part: Part, offset: usize, length: usize) -> bool {
    part.offset == offset && part.length == length
}

/// The offsets are those of `openssl asn1parse`.
#[test]
fn reads(rt: HostRuntime) {
    let answer = x509check_read_certificate(rt.alloc(), CERTIFICATE);
    let fields = answer.fields;
    assert_eq!(rt; answer.fault, 0);
    assert_eq!(rt; fields.version, 3);
    assert_eq!(rt; fields.not_before, 1795365400);
    assert_eq!(rt; fields.not_after, 2110725400);
    let rows: [(Part, usize, usize, &str); 8] = [
        (fields.tbs, 4, 265, "tbs"),
        (fields.serial, 15, 2, "serial"),
        (fields.algorithm, 17, 7, "algorithm"),
        (fields.issuer, 24, 15, "issuer"),
        (fields.subject, 71, 15, "subject"),
        (fields.subject_public_key_info, 86, 44, "key info"),
        (fields.key, 98, 32, "key"),
        (fields.signature, 279, 64, "signature"),
    ];
    for (part, offset, length, name) in rows {
        assert!(rt; is_part(part, offset, length), "{name}");
    }
}

/// What the extensions of the certificate say.
fn extensions_of(alloc: Global, octets: &[u8]) -> ExtensionFields {
    x509check_read_certificate(alloc, octets).fields.extensions
}

/// The flags of each certificate are others, so that no two flags are the same in all of them, and no two numbers.
#[test]
fn reads_extensions(rt: HostRuntime) {
    let alloc = rt.alloc();
    let authority = ExtensionFields {
        has_basic_constraints: true,
        is_authority: true,
        has_path_length: true,
        has_key_usage: true,
        path_length: 3,
        key_usage: 96,
        alternative_names: 2,
        ..ExtensionFields::default()
    };
    let constrained = ExtensionFields {
        has_basic_constraints: true,
        is_authority: true,
        needs_policy_processing: true,
        alternative_names: 3,
        permitted_subtrees: 1,
        excluded_subtrees: 2,
        purposes: 4,
        unrecognised: 5,
        ..ExtensionFields::default()
    };
    let delegate = ExtensionFields {
        has_basic_constraints: true,
        has_path_length: true,
        no_check: true,
        path_length: 7,
        ..ExtensionFields::default()
    };
    assert!(rt; extensions_of(alloc, CERTIFICATE) == authority);
    assert!(rt; extensions_of(alloc, CONSTRAINTS) == constrained);
    assert!(rt; extensions_of(alloc, DELEGATE) == delegate);
}

#[test]
fn prints(rt: HostRuntime) {
    let mut print = [0; 32];
    x509check_fingerprint(b"abc", b"\x30\x00", b"message", b"\xFF", &mut print);
    assert!(rt; print.as_slice() == FINGERPRINT);
}

#[test]
fn digests(rt: HostRuntime) {
    let mut digest = [0; 32];
    x509check_sha256(b"", &mut digest);
    assert!(rt; digest.as_slice() == DIGEST_OF_NOTHING);
    x509check_sha256(b"abc", &mut digest);
    assert!(rt; digest.as_slice() == DIGEST_OF_ABC);
}

#[test]
fn versions(rt: HostRuntime) {
    assert!(rt; x509check_version() == 10200);
}

#[test]
fn wants_memory_or_answers(rt: HostRuntime) {
    let fault = x509check_read_certificate(rt.alloc(), CERTIFICATE).fault;
    assert!(rt; fault == 0 || fault == 33);
}

/// 2026-12-01T00:00:00Z
pub(crate) const DECEMBER: i64 = 1_796_083_200;

pub(crate) fn text(octets: &[u8]) -> Text<'_> {
    Text { octets }
}

/// The root, the issuer below it and the leaf.
pub(crate) fn certificates<'a>() -> [Text<'a>; 3] {
    let (root, behind) = PATH.split_at(410);
    let (middle, leaf) = behind.split_at(413);
    [text(root), text(middle), text(leaf)]
}

fn pair<'a>(octets: (&'a [u8], &'a [u8])) -> [Text<'a>; 2] {
    [text(octets.0), text(octets.1)]
}

pub(crate) fn lists<'a>() -> [Text<'a>; 2] {
    pair(LISTS.split_at(187))
}

/// The next list of the issuer, which revokes the leaf, and that of the root.
pub(crate) fn revoking<'a>() -> [Text<'a>; 2] {
    pair(REVOKING.split_at(226))
}

pub(crate) fn query<'a>(
    anchor: Text<'a>,
    path: &'a [Text<'a>],
    moment: i64,
    purpose: &'a [u8],
) -> QueryOfTexts<'a> {
    QueryOfTexts {
        anchor,
        path,
        moment,
        purpose: text(purpose),
        wide: 0,
    }
}

/// The fingerprints that are good.
pub(crate) fn good() -> [[u8; 32]; 5] {
    let mut prints = [[0; 32]; 5];
    for index in 0..5 {
        prints[index].copy_from_slice(&GOOD[32 * index..32 * index + 32]);
    }
    prints
}

/// The answer to the query about the path without a purpose.
fn answer(
    alloc: Global,
    statements: &[Text<'_>],
    prints: &[[u8; 32]],
    moment: i64,
) -> VerdictAnswer {
    let [root, middle, leaf] = certificates();
    let path = [middle, leaf];
    x509check_validate(alloc, &query(root, &path, moment, b""), statements, prints)
}

pub(crate) fn verdict(verdict: u32, certificate: usize, reason: u32) -> VerdictAnswer {
    VerdictAnswer {
        verdict,
        certificate,
        reason,
        ..VerdictAnswer::default()
    }
}

pub(crate) fn refusal(
    text: u32,
    fault: u32,
    der_fault: u32,
    index: usize,
    offset: usize,
) -> Refusal {
    Refusal {
        text,
        fault,
        der_fault,
        index,
        offset,
    }
}

pub(crate) fn refused(refusal: Refusal) -> VerdictAnswer {
    VerdictAnswer {
        verdict: 5,
        refusal,
        ..VerdictAnswer::default()
    }
}

#[test]
fn validates(rt: HostRuntime) {
    let (alloc, lists, good) = (rt.alloc(), lists(), good());
    assert!(rt; answer(alloc, &lists, &good, DECEMBER) == verdict(1, 0, 0));
    assert!(rt; answer(alloc, &lists, &good, 0) == verdict(2, 1, 3));
    assert!(rt; answer(alloc, &lists, &[], DECEMBER) == verdict(2, 1, 2));
    assert!(rt; answer(alloc, &revoking(), &good, DECEMBER) == verdict(3, 2, 1));
    assert!(rt; answer(alloc, &[], &good, DECEMBER) == verdict(4, 1, 0));
}

/// A purpose that the leaf's extKeyUsage does not have (id-kp-clientAuth).
#[test]
fn validates_for_a_purpose(rt: HostRuntime) {
    let [root, middle, leaf] = certificates();
    let path = [middle, leaf];
    let asked = query(root, &path, DECEMBER, b"\x2B\x06\x01\x05\x05\x07\x03\x02");
    let answer = x509check_validate(rt.alloc(), &asked, &lists(), &good());
    assert!(rt; answer == verdict(2, 2, 14));
}

/// The answer for these certificates and statements, which are refused.
fn refused_of(
    alloc: Global,
    anchor: Text<'_>,
    path: &[Text<'_>],
    statements: &[Text<'_>],
) -> VerdictAnswer {
    x509check_validate(
        alloc,
        &query(anchor, path, DECEMBER, b""),
        statements,
        &good(),
    )
}

#[test]
fn refuses_certificates(rt: HostRuntime) {
    let (alloc, lists) = (rt.alloc(), lists());
    let [root, middle, leaf] = certificates();
    let none = refused_of(alloc, text(b""), &[], &lists);
    assert!(rt; none == refused(refusal(1, 21, 4, 0, 0)));
    // The UTCTime of thisUpdate stands where a certificate has its validity.
    let other = refused_of(alloc, lists[0], &[leaf], &lists);
    assert!(rt; other == refused(refusal(1, 22, 0, 0, 55)));
    let second = refused_of(alloc, root, &[lists[0], leaf], &lists);
    assert!(rt; second == refused(refusal(1, 22, 0, 1, 55)));
    let third = refused_of(alloc, root, &[middle, lists[0]], &lists);
    assert!(rt; third == refused(refusal(1, 22, 0, 2, 55)));
    let empty = refused_of(alloc, root, &[leaf, text(b"")], &[text(b"")]);
    assert!(rt; empty == refused(refusal(1, 21, 4, 2, 0)));
}

#[test]
fn refuses_statements(rt: HostRuntime) {
    let alloc = rt.alloc();
    let [root, middle, leaf] = certificates();
    let path = [middle, leaf];
    // The [0] of the version stands where a list has its version.
    let other = refused_of(alloc, root, &path, &path);
    assert!(rt; other == refused(refusal(2, 43, 0, 0, 8)));
    let (first, second) = LISTS.split_at(187);
    let cut = refused_of(alloc, root, &path, &[text(first), text(&second[..189 - 1])]);
    assert!(rt; cut == refused(refusal(2, 41, 4, 1, 0)));
    let behind = refused_of(alloc, root, &path, &[text(LISTS)]);
    assert!(rt; behind == refused(refusal(2, 41, 7, 0, 187)));
}

#[test]
fn validation_wants_memory_or_answers(rt: HostRuntime) {
    let answer = answer(rt.alloc(), &lists(), &good(), DECEMBER);
    assert!(rt; answer == verdict(1, 0, 0) || answer == refused(refusal(0, 33, 0, 0, 0)));
}

/// The questions about the path and statements, written to an array of five.
fn questions(alloc: Global, statements: &[Text<'_>]) -> (Asked, [SignatureQuestion; 5]) {
    let [root, middle, leaf] = certificates();
    let path = [middle, leaf];
    let mut questions = [SignatureQuestion::default(); 5];
    let query = query(root, &path, 0, b"");
    let asked = x509check_questions(alloc, &query, statements, &mut questions);
    (asked, questions)
}

pub(crate) fn counted(count: usize) -> Asked {
    Asked {
        count,
        ..Asked::default()
    }
}

pub(crate) fn has_print(question: &SignatureQuestion, print: &[u8]) -> bool {
    question.fingerprint.as_slice() == print
}

/// The fingerprints are those that `bin/verdicts` printed.
#[test]
fn tells_questions(rt: HostRuntime) {
    let (asked, written) = questions(rt.alloc(), &lists());
    assert!(rt; asked == counted(4));
    assert!(rt; has_print(&written[0], &GOOD[..32]));
    assert!(rt; has_print(&written[1], &GOOD[32..64]));
    assert!(rt; has_print(&written[2], &GOOD[64..96]));
    assert!(rt; has_print(&written[3], &GOOD[96..128]));
    assert!(rt; written[4] == SignatureQuestion::default());
}

pub(crate) fn place(text: u32, index: usize, offset: usize, length: usize) -> Place {
    Place {
        text,
        index,
        offset,
        length,
    }
}

/// The offsets are those of `openssl asn1parse`.
#[test]
fn tells_places(rt: HostRuntime) {
    let (_, written) = questions(rt.alloc(), &lists());
    let (leaf, list) = (&written[1], &written[3]);
    assert!(rt; leaf.algorithm == place(1, 2, 16, 12));
    assert!(rt; leaf.key_info == place(1, 1, 132, 91));
    assert!(rt; leaf.message == place(1, 2, 4, 332));
    assert!(rt; leaf.signature == place(1, 2, 351, 71));
    assert!(rt; list.algorithm == place(2, 1, 8, 12));
    assert!(rt; list.key_info == place(1, 1, 132, 91));
    assert!(rt; list.message == place(2, 1, 3, 100));
    assert!(rt; list.signature == place(2, 1, 118, 71));
}

#[test]
fn counts_questions_without_room(rt: HostRuntime) {
    let alloc = rt.alloc();
    let [root, middle, leaf] = certificates();
    let path = [middle, leaf];
    let query = query(root, &path, DECEMBER, b"");
    let mut one = [SignatureQuestion::default(); 1];
    assert!(rt; x509check_questions(alloc, &query, &lists(), &mut one) == counted(4));
    assert!(rt; has_print(&one[0], &GOOD[..32]));
    assert!(rt; x509check_questions(alloc, &query, &[], &mut []) == counted(2));
}

#[test]
fn asks_nothing_of_what_is_refused(rt: HostRuntime) {
    let (asked, written) = questions(rt.alloc(), &certificates());
    let of_statement = Asked {
        refusal: refusal(2, 43, 0, 0, 8),
        count: 0,
    };
    assert!(rt; asked == of_statement);
    assert!(rt; written[0] == SignatureQuestion::default());
    let of_nothing = query(text(b""), &[], DECEMBER, b"");
    let none = x509check_questions(rt.alloc(), &of_nothing, &lists(), &mut []);
    assert!(rt; none.refusal == refusal(1, 21, 4, 0, 0));
}

#[test]
fn questioning_wants_memory_or_answers(rt: HostRuntime) {
    let [root, middle, leaf] = certificates();
    let path = [middle, leaf];
    let query = query(root, &path, 0, b"");
    let asked = x509check_questions(rt.alloc(), &query, &lists(), &mut []);
    assert!(rt; asked == counted(4) || asked.refusal.fault == 33);
}

/// The names are those of docs/REFERENCE.md.
const FAULT_NAMES: &[(u32, &[u8])] = &[
    (0, b""),
    (1, b"TagForm"),
    (8, b"Memory"),
    (10, b""),
    (17, b"MaskForm"),
    (19, b"UriForm"),
    (20, b""),
    (21, b"Der"),
    (33, b"Memory"),
    (34, b""),
    (40, b""),
    (41, b"Der"),
    (53, b"OtherIssuer"),
    (60, b"Memory"),
    (61, b""),
    (u32::MAX, b""),
];

#[test]
fn names_faults(rt: HostRuntime) {
    for (fault, name) in FAULT_NAMES {
        let mut room = [0xFF; 32];
        let count = x509check_fault_name(*fault, &mut room);
        assert!(rt; &room[..count] == *name && room[count] == 0, "{fault}");
    }
}

/// The verdict, the reason and its name: of a rank that of docs/REFERENCE.md, of a revocation that of RFC 5280, 5.3.1.
const REASON_NAMES: &[(u32, u32, &[u8])] = &[
    (1, 1, b""),
    (2, 0, b""),
    (2, 1, b"Repeated"),
    (2, 16, b"TooLong"),
    (2, 17, b"NoValidPolicy"),
    (2, 19, b"NoUserPolicy"),
    (2, 20, b""),
    (3, 0, b"unspecified"),
    (3, 1, b"keyCompromise"),
    (3, 7, b""),
    (3, 10, b"aACompromise"),
    (3, 11, b""),
    (4, 1, b""),
];

#[test]
fn names_reasons(rt: HostRuntime) {
    for (verdict, reason, name) in REASON_NAMES {
        let mut room = [0xFF; 32];
        let count = x509check_reason_name(*verdict, *reason, &mut room);
        assert!(rt;
            &room[..count] == *name && room[count] == 0,
            "{verdict} {reason}"
        );
    }
}

#[test]
fn writes_no_part_of_a_name(rt: HostRuntime) {
    let mut room = [0xFF; 7];
    assert_eq!(rt; x509check_fault_name(1, &mut room), 7);
    assert!(rt; room == [0xFF; 7]);
    assert_eq!(rt; x509check_fault_name(1, &mut []), 7);
}
