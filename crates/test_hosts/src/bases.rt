//! Which octets are bases, and which bases lie in which.

use names_hosts::{HostBase, MailBase, host_laws, is_host};
use std::test::Fail;

/// Octets that are no base of either form.
const NO_BASES: &[&[u8]] = &[
    b"",
    b".",
    b"..",
    b"..example.com",
    b"example.com.",
    b".example.com.",
    b"example..com",
    b"*.example.com",
    b"@example.com",
    b"root@",
    b"root@.example.com",
    b".root@.example.com",
    b"root@a@example.com",
    b"\"root@example.com",
    b"b\xC3\xBCro@example.com",
    b"192.0.2.1",
    b".192.0.2.1",
    b"[::1]",
    b"http://example.com/",
    b"example.com/",
    b"example.com:80",
    b"ex%61mple.com",
    b"example .com",
];

#[test]
fn other_octets_are_no_bases(rt: HostRuntime) -> Result<(), Fail> {
    for base in NO_BASES.iter() {
        assert!(rt; MailBase::read(base).is_none(), "{base:?}");
        assert!(rt; HostBase::read(base).is_none(), "{base:?}");
    }
    Ok(())
}

fn is_domain(base: &[u8]) -> bool {
    match HostBase::read(base) {
        Some(HostBase::Domain(domain)) => domain == b"example.com".as_slice(),
        _ => false,
    }
}

#[test]
fn bases_are_read(rt: HostRuntime) -> Result<(), Fail> {
    assert!(rt; is_domain(b".example.com"));
    assert!(rt; !is_domain(b"example.com"));
    assert!(rt; HostBase::read(b"root@example.com").is_none());
    assert!(rt; MailBase::read(b"root@example.com").is_some());
    assert!(rt; is_host(b"example.com"));
    assert!(rt; !is_host(b"example.com."));
    assert!(rt; !is_host(b""));
    Ok(())
}

/// Whether the first base lies in the second.
const NESTED: &str = "
yes example.com example.com
yes example.com EXAMPLE.com
no example.com .example.com
no .example.com example.com
yes .example.com .example.com
yes mail.example.com .example.com
yes .mail.example.com .example.com
no .example.com .mail.example.com
no mail.example.com example.com
no .badexample.com .example.com
no badexample.com .example.com
no badexample.com example.com
yes .example.com .com
yes example.com .com
no com .com
";

/// The same for mail addresses alone.
const NESTED_MAIL: &str = "
yes root@example.com root@EXAMPLE.com
no Root@example.com root@example.com
yes root@example.com example.com
no root@example.com .example.com
yes root@mail.example.com .example.com
no example.com root@example.com
no .example.com root@mail.example.com
no root@mail.example.com example.com
no root@badexample.com .example.com
";

fn hosts_nested(inner: &str, outer: &str) -> Result<bool, Fail> {
    let inner = HostBase::read(inner.as_bytes()).ok_or("a base")?;
    let outer = HostBase::read(outer.as_bytes()).ok_or("a base")?;
    Ok(inner.inside(&outer))
}

fn mail_nested(inner: &str, outer: &str) -> Result<bool, Fail> {
    let inner = MailBase::read(inner.as_bytes()).ok_or("a base")?;
    let outer = MailBase::read(outer.as_bytes()).ok_or("a base")?;
    Ok(inner.inside(&outer))
}

fn hosts_as_said(row: &str) -> Result<bool, Fail> {
    let (said, rest) = row.split_once(' ').ok_or("an answer")?;
    let (inner, outer) = rest.split_once(' ').ok_or("two bases")?;
    Ok(hosts_nested(inner, outer)? == (said == "yes"))
}

fn mail_as_said(row: &str) -> Result<bool, Fail> {
    let (said, rest) = row.split_once(' ').ok_or("an answer")?;
    let (inner, outer) = rest.split_once(' ').ok_or("two bases")?;
    Ok(mail_nested(inner, outer)? == (said == "yes"))
}

#[test]
fn bases_lie_in_bases(rt: HostRuntime) -> Result<(), Fail> {
    for row in NESTED.lines().skip(1) {
        assert!(rt; hosts_as_said(row)?, "{row}");
        assert!(rt; mail_as_said(row)?, "{row}");
    }
    for row in NESTED_MAIL.lines().skip(1) {
        assert!(rt; mail_as_said(row)?, "{row}");
    }
    host_laws();
    Ok(())
}
