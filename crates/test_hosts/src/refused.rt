//! Which texts are read as hosts and mailboxes, and at which octet the others are refused.

use names_identity::{Identity, IdentityFault, IdentityRule};
use std::test::Fail;

/// Texts that are refused as hosts, each behind the rule that it breaks and the offset. Underscores are a choice of this profile, the other
/// octets those of RFC 1034, 3.5; an address is no DNS name (RFC 9525, 6.3).
const NO_HOSTS: &str = "
HostOctet 0 *.example.com
HostOctet 4 foo.*.com
HostOctet 1 f*.example.com
HostOctet 0 *
HostOctet 3 www/example.com
HostOctet 4 user@example.com
HostOctet 0 ::1
HostOctet 1 b\u{fc}cher.example
HostOctet 11 example.com/.
Label 0 
Label 0 .
Label 0 ..
Label 0 .example.com
Label 8 example..com
Label 12 example.com..
Label 0 aaaaaaaaaaaaaaaaaaaaaaaaaaaaaaaaaaaaaaaaaaaaaaaaaaaaaaaaaaaaaaaa
Label 4 www.aaaaaaaaaaaaaaaaaaaaaaaaaaaaaaaaaaaaaaaaaaaaaaaaaaaaaaaaaaaaaaaa.com
HostOctet 9 example..*
Length 0 aaaaaaaaaaaaaaaaaaaaaaaaaaaaaaaaaaaaaaaaaaaaaaaaaaaaaaaaaaaaaaa.aaaaaaaaaaaaaaaaaaaaaaaaaaaaaaaaaaaaaaaaaaaaaaaaaaaaaaaaaaaaaaa.aaaaaaaaaaaaaaaaaaaaaaaaaaaaaaaaaaaaaaaaaaaaaaaaaaaaaaaaaaaaaaa.aaaaaaaaaaaaaaaaaaaaaaaaaaaaaaaaaaaaaaaaaaaaaaaaaaaaaaaaaaaaaa
Number 8 192.0.2.1
Number 8 192.0.2.1.
Number 0 127
Number 8 example.123
";

/// Texts that are hosts.
const HOSTS: &str = "
a
localhost
www.example.com
A.B.C
1.example.com
192.0.2.1a
192.0.2.0x1
a_b.-c.d-
xn--bcher-kva.example
aaaaaaaaaaaaaaaaaaaaaaaaaaaaaaaaaaaaaaaaaaaaaaaaaaaaaaaaaaaaaaa.aaaaaaaaaaaaaaaaaaaaaaaaaaaaaaaaaaaaaaaaaaaaaaaaaaaaaaaaaaaaaaa.aaaaaaaaaaaaaaaaaaaaaaaaaaaaaaaaaaaaaaaaaaaaaaaaaaaaaaaaaaaaaaa.aaaaaaaaaaaaaaaaaaaaaaaaaaaaaaaaaaaaaaaaaaaaaaaaaaaaaaaaaaaaa
aaaaaaaaaaaaaaaaaaaaaaaaaaaaaaaaaaaaaaaaaaaaaaaaaaaaaaaaaaaaaaa.example
";

/// Texts that are refused as mailboxes, each behind the rule that it breaks and the offset.
const NO_MAILBOXES: &str = "
NoHost 0 
NoHost 4 user
NoHost 11 example.com
LocalPart 0 @example.com
LocalPart 0 @
LocalPart 4 user name@example.com
LocalPart 0 \"user\"@example.com
LocalPart 1 u\"@example.com
LocalPart 1 b\u{fc}@example.com
HostOctet 6 user@a@example.com
HostOctet 5 user@@example.com
HostOctet 5 user@*.example.com
HostOctet 5 user@[192.0.2.1]
Label 5 user@
Label 17 user@example.com.
Label 5 user@.example.com
Number 13 user@192.0.2.1
Length 5 user@aaaaaaaaaaaaaaaaaaaaaaaaaaaaaaaaaaaaaaaaaaaaaaaaaaaaaaaaaaaaaaa.aaaaaaaaaaaaaaaaaaaaaaaaaaaaaaaaaaaaaaaaaaaaaaaaaaaaaaaaaaaaaaa.aaaaaaaaaaaaaaaaaaaaaaaaaaaaaaaaaaaaaaaaaaaaaaaaaaaaaaaaaaaaaaa.aaaaaaaaaaaaaaaaaaaaaaaaaaaaaaaaaaaaaaaaaaaaaaaaaaaaaaaaaaaaaa
";

fn is_fault(fault: &IdentityFault, name: &str, at: usize) -> bool {
    let rule = match name {
        "HostOctet" => IdentityRule::HostOctet,
        "Label" => IdentityRule::Label,
        "Length" => IdentityRule::Length,
        "Number" => IdentityRule::Number,
        "LocalPart" => IdentityRule::LocalPart,
        "NoHost" => IdentityRule::NoHost,
        _ => IdentityRule::Address,
    };
    fault.rule == rule && fault.at == at
}

/// Whether what was read is refused as the row says.
fn is_refused(read: Result<Identity<'_>, IdentityFault>, name: &str, at: usize) -> bool {
    match read {
        Ok(_) => false,
        Err(fault) => is_fault(&fault, name, at),
    }
}

/// The name of the rule, the offset and the text of a row.
fn parts_of(row: &str) -> Result<(&str, usize, &str), Fail> {
    let (name, rest) = row.split_once(' ').ok_or("a rule")?;
    let (place, text) = rest.split_once(' ').ok_or("a place")?;
    let at: usize = place.parse().map_err(|_| "a place")?;
    Ok((name, at, text))
}

#[test]
fn other_hosts_are_refused(rt: HostRuntime) -> Result<(), Fail> {
    for row in NO_HOSTS.lines().skip(1) {
        let (name, at, text) = parts_of(row)?;
        assert!(rt;
            is_refused(Identity::host(text.as_bytes()), name, at),
            "{row}"
        );
    }
    Ok(())
}

#[test]
fn other_mailboxes_are_refused(rt: HostRuntime) -> Result<(), Fail> {
    for row in NO_MAILBOXES.lines().skip(1) {
        let (name, at, text) = parts_of(row)?;
        assert!(rt;
            is_refused(Identity::mailbox(text.as_bytes()), name, at),
            "{row}"
        );
    }
    Ok(())
}

fn is_host(text: &str, host: &str) -> bool {
    match Identity::host(text.as_bytes()) {
        Ok(Identity::Host(read)) => read == host.as_bytes(),
        _ => false,
    }
}

#[test]
fn hosts_are_read(rt: HostRuntime) -> Result<(), Fail> {
    for row in HOSTS.lines().skip(1) {
        assert!(rt; is_host(row, row), "{row}");
    }
    assert!(rt; is_host("www.example.com.", "www.example.com"));
    Ok(())
}

fn is_mailbox(text: &str, wanted: (&str, &str)) -> bool {
    match Identity::mailbox(text.as_bytes()) {
        Ok(Identity::Mailbox { local, host }) => {
            local == wanted.0.as_bytes() && host == wanted.1.as_bytes()
        }
        _ => false,
    }
}

#[test]
fn mailboxes_are_read(rt: HostRuntime) -> Result<(), Fail> {
    assert!(rt; is_mailbox("user@example.com", ("user", "example.com")));
    assert!(rt;
        is_mailbox(
            "First.Last+!#~@EXAMPLE.com",
            ("First.Last+!#~", "EXAMPLE.com")
        )
    );
    Ok(())
}
