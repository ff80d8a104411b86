//! Which mail addresses lie in which bases.

use names_hosts::{MailBase, MailName, mail_laws};
use std::test::Fail;

/// Whether the mail address lies in the base, the base, and the mail address. Comments begin with a number sign.
const ROWS: &str = "
# RFC 5280, 4.2.1.10: root@example.com is the root mailbox on the host example.com
yes root@example.com root@example.com
no root@example.com admin@example.com
no root@example.com root@mail.example.com
no root@mail.example.com root@example.com
no root@example.com root@badexample.com
no root@example.com xroot@example.com
no root@example.com rootx@example.com
# the local part octet by octet, the host without regard to ASCII case (7.5)
yes root@example.com root@EXAMPLE.com
yes root@Example.COM root@example.com
no root@example.com Root@example.com
no Root@example.com root@example.com
yes Root@example.com Root@EXAMPLE.COM
# example.com is all mail addresses at that host, and no host below it
yes example.com root@example.com
yes example.com a.b+c@example.com
yes EXAMPLE.com root@example.COM
no example.com root@mail.example.com
no example.com root@badexample.com
no example.com root@example.com.org
no example.com root@com
no mail.example.com root@example.com
yes mail.example.com root@mail.example.com
# .example.com is every mailbox in that domain, and none at the host example.com itself
yes .example.com root@mail.example.com
yes .example.com root@a.b.example.com
yes .Example.Com root@MAIL.EXAMPLE.COM
no .example.com root@example.com
no .example.com root@badexample.com
no .example.com root@bad-example.com
no .example.com root@mail.badexample.com
no .example.com root@mail.example.com.org
no .example.com root@mail.example.org
no .mail.example.com root@example.com
no .mail.example.com root@mail.example.com
yes .com root@example.com
no .com root@com
# a local part that looks like a host, and hosts of one label
no example.com example.com@example.org
# RFC 5321, 4.1.2: a local part in quotes is a mailbox, and the same one as without, where both may be
yes example.com \"a b\"@example.com
yes example.com \"a@b\"@example.com
yes example.com \"\"@example.com
no example.com \"a@example.com\"@example.org
yes root@example.com \"root\"@example.com
yes \"root\"@example.com root@example.com
yes \"root\"@example.com \"ro\\ot\"@EXAMPLE.com
no root@example.com \"Root\"@example.com
no \"a@b\"@example.com \"a@c\"@example.com
yes \"a@b\"@example.com \"a\\@b\"@example.com
# and so is one at an address literal, which is no host
yes root@[192.0.2.1] root@[192.0.2.1]
yes root@[IPv6:2001:db8::1] root@[ipv6:2001:DB8::1]
no root@[192.0.2.1] root@[192.0.2.2]
no root@[192.0.2.1] admin@[192.0.2.1]
no example.com root@[192.0.2.1]
no .example.com root@[192.0.2.1]
no .example.com mail.example.com@example.org
yes localhost root@localhost
no localhost root@localhost.example
";

fn row_holds(row: &str) -> Result<bool, Fail> {
    let (said, rest) = row.split_once(' ').ok_or("an answer")?;
    let (base, name) = rest.split_once(' ').ok_or("a base")?;
    let base = MailBase::read(base.as_bytes()).ok_or("a base")?;
    let name = MailName::read(name.as_bytes()).ok_or("a mail address")?;
    Ok(base.covers(&name) == (said == "yes"))
}

#[test]
fn mail_addresses_lie_in_bases(rt: HostRuntime) -> Result<(), Fail> {
    for row in ROWS.lines().skip(1).filter(|row| !row.starts_with('#')) {
        assert!(rt; row_holds(row)?, "{row}");
    }
    mail_laws();
    Ok(())
}

/// Texts that are no mail addresses (RFC 5321, 4.1.2).
const NO_MAIL: &[&[u8]] = &[
    b"",
    b"@",
    b"root",
    b"example.com",
    b"root@",
    b"@example.com",
    b"root@@example.com",
    b"root@a@example.com",
    b"a..b@example.com",
    b".a@example.com",
    b"a.@example.com",
    b"<a>@example.com",
    b"a,b@example.com",
    b"\"root@example.com",
    b"root\"@example.com",
    b"\"ro\"ot\"@example.com",
    b"\"root\\\"@example.com",
    b"\"b\xC3\xBCro\"@example.com",
    b"ro ot@example.com",
    b"root@example.com.",
    b"root@.example.com",
    b"root@example..com",
    b"root@[]",
    b"root@[192.0.2.1",
    b"root@192.0.2.1]",
    b"root@[192.0.2.1]x",
    b"root@[ 192.0.2.1]",
    b"root@192.0.2.1",
    b"root@ex%61mple.com",
    b"root@example.com:25",
    b"Root <root@example.com>",
    b"b\xC3\xBCro@example.com",
];

#[test]
fn other_texts_are_no_mail_addresses(rt: HostRuntime) -> Result<(), Fail> {
    for text in NO_MAIL.iter() {
        assert!(rt; MailName::read(text).is_none(), "{text:?}");
    }
    Ok(())
}

#[test]
fn a_mail_address_is_divided_at_its_sign(rt: HostRuntime) -> Result<(), Fail> {
    let name = MailName::read(b"first.last+tag@Example.com").ok_or("a mail address")?;
    assert!(rt; name.local == b"first.last+tag".as_slice());
    assert!(rt; name.host == b"Example.com".as_slice());
    Ok(())
}

/// Texts that are mail addresses only with octets of UTF-8 (RFC 9598, 3), and as what they are read.
const WITH_UTF8: &[(&[u8], &[u8], &[u8])] = &[
    (b"b\xC3\xBCro@example.com", b"b\xC3\xBCro", b"example.com"),
    (
        b"\"b\xC3\xBC ro\"@example.com",
        b"b\xC3\xBC ro",
        b"example.com",
    ),
    (
        b"\xE5\xBE\xAE\xE5\x8D\x9A@[192.0.2.1]",
        b"\xE5\xBE\xAE\xE5\x8D\x9A",
        b"[192.0.2.1]",
    ),
];

fn is_read_as(text: &[u8], local: &[u8], host: &[u8]) -> bool {
    match MailName::read_utf8(text) {
        Some(name) => name.local == local && name.host == host,
        None => false,
    }
}

#[test]
fn local_parts_may_have_utf8(rt: HostRuntime) -> Result<(), Fail> {
    for (text, local, host) in WITH_UTF8.iter() {
        assert!(rt; MailName::read(text).is_none(), "{text:?}");
        assert!(rt; is_read_as(text, local, host), "{text:?}");
    }
    assert!(rt; is_read_as(b"root@example.com", b"root", b"example.com"));
    assert!(rt; MailName::read_utf8(b"root@b\xC3\xBCro.example").is_none());
    Ok(())
}
