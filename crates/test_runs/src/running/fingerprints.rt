//! `prints`: certificates and fingerprints of an independent script, which takes the digests by Python's hashlib.

use super::*;
use cert::Certificate;
use path_verifiers::{ListVerifier, Verifier};

/// `ca(R,R)`, in the notation of `vectors`.
pub(crate) const ROOT: &str = "\
308196306ba003020102020105300406022a03300c310a30080603550403130152301e170d323530313031303030303030\
5a170d3236303130313030303030305a300c310a30080603550403130152300a300406022a0303020052a3133011300f06\
03551d130101ff040530030101ff300406022a03032100454e02142f1b8e0a28ffede853e53e0436560b089f12ed112d62\
1f232170559d";

// `ee(T,R)`
pub(crate) const LEAF: &str = "\
3081813056a003020102020105300406022a03300c310a30080603550403130152301e170d323530313031303030303030\
5a170d3236303130313030303030305a300c310a30080603550403130154300a300406022a0303020054300406022a0303\
210010ac851285f2074fd03ef685e5928a13e6f7d27118ae38a2526dc5c613b1da9c";

// `ee(U,R)`
const OTHER: &str = "\
3081813056a003020102020105300406022a03300c310a30080603550403130152301e170d323530313031303030303030\
5a170d3236303130313030303030305a300c310a30080603550403130155300a300406022a0303020055300406022a0303\
210079d2f23eac12a97c0029666b31fdd019e1b26b1c47a2a3db2821605226969c93";

// Names need not chain.
const PRINTS: &str = "
$ prints --issuer prints_root.der prints_leaf.der
5e93a427fe05c909221e49838e3521b357219976e9604e741ab17b004303fda5 certificate issuer
status 0
$ prints --issuer prints_root.der prints_other.der
22993a6993df8af4d79521e9c5b10dc656c510d289d14b5430eee7e923a790ef certificate issuer
status 0
$ prints --issuer prints_root.der prints_root.der
f9e1e616c9429c605131b7ddca8505d571fc9ad82ed2d19fe8688e6acc1f939d certificate issuer
status 0
$ prints --issuer prints_leaf.der prints_root.der
acb723fe102dcf0ae25bbde92e787aeb13311e1e283a56ddc7632161d48b474c certificate issuer
status 0
$ prints --issuer prints_leaf.der prints_leaf.der
b532cd2704b43fd5132dd5f0f7ed30c09e4aaa0cb3ea3357dd140ba9ee7d4a4b certificate issuer
status 0
";

// The same with what is verified: the algorithm and the signed part of the leaf, the root's key, and the signature.
const PARTS: &str = "
$ prints --parts --issuer prints_root.der prints_leaf.der
5e93a427fe05c909221e49838e3521b357219976e9604e741ab17b004303fda5 certificate issuer algorithm=3004\
06022a03 key=300a300406022a0303020052 message=3056a003020102020105300406022a03300c310a300806035504\
03130152301e170d3235303130313030303030305a170d3236303130313030303030305a300c310a300806035504031301\
54300a300406022a0303020054 signature=10ac851285f2074fd03ef685e5928a13e6f7d27118ae38a2526dc5c613b1d\
a9c
status 0
$ prints --issuer prints_root.der --as cert --parts prints_leaf.der
5e93a427fe05c909221e49838e3521b357219976e9604e741ab17b004303fda5 certificate issuer algorithm=3004\
06022a03 key=300a300406022a0303020052 message=3056a003020102020105300406022a03300c310a300806035504\
03130152301e170d3235303130313030303030305a170d3236303130313030303030305a300c310a300806035504031301\
54300a300406022a0303020054 signature=10ac851285f2074fd03ef685e5928a13e6f7d27118ae38a2526dc5c613b1d\
a9c
status 0
";

// Files without an end.
const ENDLESS: &str = "
$ tree /dev/zero
x509check: /dev/zero: refused 1 TagForm at 0
status 4
$ show --as crl /dev/zero
x509check: /dev/zero: refused 1 TagForm at 0
status 4
$ prints --issuer prints_root.der /dev/zero
x509check: /dev/zero: refused 1 TagForm at 0
status 4
$ check --store none --verdicts /dev/zero --at 20250601000000Z --anchor prints_root.der prints_leaf.der
x509check: /dev/zero: line 1
status 4
$ check --store none --verdicts /dev/null --at 20250601000000Z --anchor /dev/zero prints_leaf.der
x509check: /dev/zero: refused 1 TagForm at 0
status 4
$ check --store none --verdicts /dev/null --at 20250601000000Z --anchor prints_root.der /dev/zero
x509check: /dev/zero: refused 1 TagForm at 0
status 4
";

#[test]
fn files_without_an_end_are_refused(rt: HostRuntime) -> Result<(), Fail> {
    put(&rt, "prints_root.der", ROOT, "")?;
    put(&rt, "prints_leaf.der", LEAF, "")?;
    walk(&rt, ENDLESS)
}

#[test]
fn a_certificate_has_one_line(rt: HostRuntime) -> Result<(), Fail> {
    put(&rt, "prints_root.der", ROOT, "")?;
    put(&rt, "prints_leaf.der", LEAF, "")?;
    put(&rt, "prints_other.der", OTHER, "")?;
    walk(&rt, PRINTS)?;
    walk(&rt, PARTS)
}

// The fingerprint at the front of what is printed of the leaf.
fn printed(rt: &HostRuntime) -> Result<[u8; 32], Fail> {
    put(rt, "believed_root.der", ROOT, "")?;
    put(rt, "believed_leaf.der", LEAF, "")?;
    let (mut out, mut err) = (Output::new(rt.alloc()), Vec::new(rt.alloc()));
    let words = words_of(
        rt.alloc(),
        "prints --issuer believed_root.der believed_leaf.der",
    )?;
    run(rt, words.as_slice(), &mut out, &mut err);
    let mut print = [0; 32];
    let front = out.written.get(..64).ok_or("a line")?;
    if hex::decode_to_slice(front, &mut print).is_err() {
        return Err(Fail::from("hexadecimal"));
    }
    Ok(print)
}

// Whether the verifier accepts the signature of the certificate under the key of the issuer.
fn judges(verifier: &ListVerifier, issuer: &Certificate<'_>, read: &Certificate<'_>) -> bool {
    let key_info = issuer.subject_public_key_info.value.whole;
    let (algorithm, message) = (read.algorithm.value.whole, read.tbs.whole);
    verifier.judge(algorithm, key_info, message, read.signature.octets())
}

fn accepts(
    alloc: Global,
    verifier: &ListVerifier,
    issuer: &str,
    digits: &str,
) -> Result<bool, Fail> {
    let (issuer, octets) = (octets_of(alloc, issuer)?, octets_of(alloc, digits)?);
    match (
        Certificate::read(alloc, issuer.as_slice()),
        Certificate::read(alloc, octets.as_slice()),
    ) {
        (Ok(issuer), Ok(read)) => Ok(judges(verifier, &issuer, &read)),
        _ => Err(Fail::from("a certificate")),
    }
}

#[test]
fn a_list_of_lines_believes_them(rt: HostRuntime) -> Result<(), Fail> {
    let alloc = rt.alloc();
    let print = printed(&rt)?;
    let verifier = ListVerifier::new(vec![in alloc; print]?);
    let rows = [
        (ROOT, LEAF, true),
        (ROOT, OTHER, false),
        (LEAF, LEAF, false),
        (ROOT, ROOT, false),
    ];
    for (issuer, digits, is_accepted) in rows.iter() {
        let is_so = accepts(alloc, &verifier, issuer, digits)? == *is_accepted;
        assert!(rt; is_so, "under {issuer}: {digits}");
    }
    Ok(())
}

// A leaf whose signature has an unused bit.
const UNUSED: &str = "\
3081813056a003020102020105300406022a03300c310a30080603550403130152301e170d323530313031303030303030\
5a170d3236303130313030303030305a300c310a30080603550403130154300a300406022a0303020054300406022a0303\
210110ac851285f2074fd03ef685e5928a13e6f7d27118ae38a2526dc5c613b1da9c";

// The first half of a leaf.
const CUT: &str = "\
3081813056a003020102020105300406022a03300c310a30080603550403130152301e170d323530313031303030303030\
5a170d3236303130313030303030305a30";

// The file of the issuer comes first.
const FAILURES: &str = "
$ prints --issuer leaf cut
x509check: cut: refused 4 Truncated at 0
status 4
$ prints --issuer leaf unused
x509check: unused: refused 31 SignatureBits at 97
status 4
$ prints --issuer leaf none
x509check: cannot read none
status 6
$ prints --issuer cut leaf
x509check: cut: refused 4 Truncated at 0
status 4
$ prints --issuer cut unused
x509check: cut: refused 4 Truncated at 0
status 4
$ prints --issuer unused cut
x509check: unused: refused 31 SignatureBits at 97
status 4
$ prints --issuer unused none
x509check: unused: refused 31 SignatureBits at 97
status 4
$ prints --issuer none leaf
x509check: cannot read none
status 6
$ prints --issuer none cut
x509check: cannot read none
status 6
";

#[test]
fn the_file_that_fails_is_named(rt: HostRuntime) -> Result<(), Fail> {
    put(&rt, "leaf", LEAF, "")?;
    put(&rt, "cut", CUT, "")?;
    put(&rt, "unused", UNUSED, "")?;
    walk(&rt, FAILURES)
}
