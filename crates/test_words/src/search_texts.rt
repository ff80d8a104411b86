//! Names that a search asks for, and the lines and statuses of what it answers.

use cli_answers::{
    FilePlace, SearchVerdict, file_place_to, path_to, search_status, search_verdict_to,
};
use cli_failures::Failure;
use cli_operands::{Name, identity_of, read_name};
use names_identity::Identity;
use path::Reason;
use relying_agreement::Verdict;
use std::test::Fail;

const HOSTS: &[(&str, &str)] = &[
    ("mail.example.org", "mail.example.org"),
    ("Mail.Example.ORG.", "Mail.Example.ORG"),
    ("localhost", "localhost"),
    ("_sip.xn--bcher-kva.example", "_sip.xn--bcher-kva.example"),
];

// Whether the name is this host.
fn is_host(name: &Option<Name<'_>>, wanted: &str) -> bool {
    match identity_of(name) {
        Some(Identity::Host(host)) => host == wanted.as_bytes(),
        _ => false,
    }
}

#[test]
fn other_names_are_hosts(rt: HostRuntime) {
    for (text, wanted) in HOSTS.iter() {
        let Ok(name) = read_name(Some(text)) else {
            assert!(rt; false, "{text} is refused");
            return;
        };
        assert!(rt; is_host(&name, wanted), "{text}");
    }
}

const ADDRESSES: &[(&str, &[u8])] = &[
    ("192.0.2.1", b"\xc0\x00\x02\x01"),
    ("255.255.255.255", b"\xff\xff\xff\xff"),
    ("2001:db8::1", b"\x20\x01\x0d\xb8\0\0\0\0\0\0\0\0\0\0\0\x01"),
    ("::", b"\0\0\0\0\0\0\0\0\0\0\0\0\0\0\0\0"),
    (
        "::FFFF:192.0.2.1",
        b"\0\0\0\0\0\0\0\0\0\0\xff\xff\xc0\x00\x02\x01",
    ),
];

// Whether the name is the address of these octets.
fn is_address(name: &Option<Name<'_>>, wanted: &[u8]) -> bool {
    match identity_of(name) {
        Some(Identity::Address(octets)) => octets == wanted,
        _ => false,
    }
}

#[test]
fn names_that_write_an_address_are_addresses(rt: HostRuntime) {
    for (text, wanted) in ADDRESSES.iter() {
        let Ok(name) = read_name(Some(text)) else {
            assert!(rt; false, "{text} is refused");
            return;
        };
        assert!(rt; is_address(&name, wanted), "{text}");
    }
}

const MAILBOXES: &[(&str, &str, &str)] = &[
    ("ann@example.org", "ann", "example.org"),
    ("Ann.Lee+x@localhost", "Ann.Lee+x", "localhost"),
];

// Whether the name is this mailbox.
fn is_mailbox(name: &Option<Name<'_>>, wanted_local: &str, wanted_host: &str) -> bool {
    match identity_of(name) {
        Some(Identity::Mailbox { local, host }) => {
            local == wanted_local.as_bytes() && host == wanted_host.as_bytes()
        }
        _ => false,
    }
}

#[test]
fn names_with_an_at_sign_are_mailboxes(rt: HostRuntime) {
    for (text, local, host) in MAILBOXES.iter() {
        let Ok(name) = read_name(Some(text)) else {
            assert!(rt; false, "{text} is refused");
            return;
        };
        assert!(rt; is_mailbox(&name, local, host), "{text}");
    }
}

/// Texts that are no name, and where each stops being one.
const OTHERS: &[(&str, usize)] = &[
    ("", 0),
    (".", 0),
    ("a..b", 2),
    ("mail example.org", 4),
    ("*.example.org", 0),
    ("b\u{fc}cher.example", 1),
    ("10.0.0.256", 7),
    ("10.0.1", 5),
    ("010.0.0.1", 8),
    ("::1::", 0),
    ("[::1]", 0),
    ("fe80::1%1", 4),
    ("@example.org", 0),
    ("an n@example.org", 2),
    ("ann@", 4),
    ("ann@example.org.", 16),
    ("ann@mail@example.org", 8),
    ("ann@10.0.0.1", 11),
];

// Where the name is bad, if it is.
fn place_of(text: &str) -> Option<usize> {
    match read_name(Some(text)) {
        Err(Failure::BadName { at }) => Some(at),
        _ => None,
    }
}

#[test]
fn other_texts_are_bad_names(rt: HostRuntime) {
    for (text, at) in OTHERS.iter() {
        assert!(rt; place_of(text) == Some(*at), "{text}");
    }
}

#[test]
fn no_name_is_asked_for_without_a_text(rt: HostRuntime) {
    assert!(rt; matches!(read_name(None), Ok(None)));
}

const ANSWERS: &[(SearchVerdict, &[u8], u8)] = &[
    (SearchVerdict::Told(Verdict::Valid), b"valid\n", 0),
    (
        SearchVerdict::Told(Verdict::Invalid(1, Reason::Expired)),
        b"invalid 1 4 Expired\n",
        1,
    ),
    (
        SearchVerdict::Told(Verdict::Revoked(2, 1)),
        b"revoked 2 1\n",
        2,
    ),
    (SearchVerdict::Told(Verdict::Unknown(0)), b"unknown 0\n", 3),
    (SearchVerdict::OtherName, b"other name\n", 1),
    (SearchVerdict::NotFound, b"not found\n", 1),
    (SearchVerdict::GaveUp, b"gave up\n", 3),
];

#[test]
fn each_answer_has_its_line_and_its_status(rt: HostRuntime) -> Result<(), Fail> {
    for (found, wanted, status) in ANSWERS.iter() {
        let mut line = Vec::new(rt.alloc());
        search_verdict_to(*found, &mut line)?;
        assert!(rt; line.as_slice() == *wanted);
        assert_eq!(rt; search_status(*found), *status);
    }
    Ok(())
}

const PATH: &[FilePlace<'static>] = &[
    FilePlace {
        file: "roots.der",
        number: 2,
    },
    FilePlace {
        file: "some others.der",
        number: 17,
    },
    FilePlace {
        file: "server.der",
        number: 1,
    },
];

#[test]
fn a_path_has_a_line_for_each_certificate(rt: HostRuntime) -> Result<(), Fail> {
    let mut lines = Vec::new(rt.alloc());
    path_to(PATH, &mut lines)?;
    assert!(rt;
        lines.as_slice() == b"0 roots.der 2\n1 some others.der 17\n2 server.der 1\n".as_slice()
    );
    Ok(())
}

#[test]
fn a_line_begins_with_the_number_on_the_path(rt: HostRuntime) -> Result<(), Fail> {
    let mut line = Vec::new(rt.alloc());
    file_place_to(128, &PATH[0], &mut line)?;
    assert!(rt; line.as_slice() == b"128 roots.der 2\n".as_slice());
    Ok(())
}
