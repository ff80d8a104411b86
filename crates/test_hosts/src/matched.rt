//! Hosts and mailboxes, and the names that match them.

use names::General;
use names_identity::{Identity, IdentityFault, matching_laws, speaks_for};
use std::alloc::Global;
use std::test::Fail;

/// Whether the names speak for the identity, the identity, and the names. Comments begin with a number sign.
const ROWS: &str = "
# RFC 9525, 6.3: all labels are compared, without regard to ASCII case (RFC 4343)
yes www.example.com dns:www.example.com
yes www.example.com dns:WWW.EXAMPLE.com
yes WWW.Example.COM dns:www.example.com
no www.example.com dns:www.example.org
no example.com dns:www.example.com
no www.example.com dns:example.com
no www.example.com dns:wwwxexample.com
no wwwexample.com dns:www.example.com
yes im.example.org dns:mail.example.net dns:voice.example.edu dns:im.example.org
no im.example.org dns:mail.example.net dns:voice.example.edu
yes localhost dns:localhost
yes 1.example.com dns:1.example.com
yes a_b.example.com dns:a_b.example.com
no a-b.example.com dns:a_b.example.com
# a wildcard stands for exactly one label
yes foo.example.com dns:*.example.com
yes FOO.example.com dns:*.EXAMPLE.com
no bar.foo.example.com dns:*.example.com
no example.com dns:*.example.com
no foo.example.org dns:*.example.com
no fooexample.com dns:*.example.com
yes example.com dns:*.com
no com dns:*
no example.com dns:*
no example.com dns:*.*
no foo.example.com dns:*.*.com
no foo.example.com dns:*.*.*
no bar.foo.example.com dns:*.*.example.com
# a wildcard elsewhere, or inside a label, matches nothing
no bar.foo.example.net dns:bar.*.example.net
no foo.example.com dns:foo.*.com
no foo.example.com dns:foo.example.*
no baz1.example.net dns:baz*.example.net
no foobaz.example.net dns:*baz.example.net
no buzz.example.net dns:b*z.example.net
no foo.example.com dns:f*.example.com
no foo.example.com dns:**.example.com
# A-labels are labels as others (RFC 5890)
yes xn--bcher-kva.example dns:xn--bcher-kva.example
yes xn--bcher-kva.example dns:XN--BCHER-KVA.example
yes xn--bcher-kva.example dns:*.example
no xn--bcher-kva.example dns:xn--*.example
no xn--bcher-kva.example dns:bcher.example
# a dot at the end of the reference is dropped; none stands at the end of a dNSName
yes www.example.com. dns:www.example.com
yes foo.example.com. dns:*.example.com
no www.example.com dns:www.example.com.
no www.example.com. dns:www.example.com.
no foo.example.com dns:*.example.com.
no foo.example.com dns:*.example.com..
# names of other forms, and none
no example.com uri:example.com
no example.com mail:example.com
no example.com ip:example.com
no example.com other:example.com
no example.com
no a@example.com
no a@example.com dns:example.com
no a@example.com dns:a@example.com
no a@example.com uri:a@example.com
# mailboxes: the local part octet by octet, the host without regard to ASCII case (RFC 5280, 7.5)
yes user@example.com mail:user@example.com
yes user@example.com mail:user@EXAMPLE.com
yes user@Example.Com mail:user@example.com
yes User@example.com mail:User@example.com
no User@example.com mail:user@example.com
no user@example.com mail:USER@example.com
no user@example.com mail:user@example.org
no user@example.com mail:user@mail.example.com
no user@mail.example.com mail:user@example.com
no user@mail.example.com mail:user@*.example.com
no user@example.com mail:*@example.com
no user@example.com mail:example.com
no user@example.com mail:user
no user@example.com mail:user@
no user@example.com mail:@example.com
no user@example.com mail:user@example.com.
no user@example.com mail:user@other@example.com
no user@example.com mail:user@user@example.com
no user@example.com mail:xuser@example.com
no user@example.com mail:userx@example.com
yes first.last+tag@example.com dns:example.com mail:other@example.com mail:first.last+tag@example.com
";

fn name_of<'t>(form: &str, text: &'t str) -> General<'t> {
    match form {
        "dns" => General::Dns(text.as_bytes()),
        "ip" => General::Ip(text.as_bytes()),
        "mail" => General::Other(1, text.as_bytes()),
        "uri" => General::Other(6, text.as_bytes()),
        _ => General::Other(0, text.as_bytes()),
    }
}

fn names_of(alloc: Global, words: &str) -> Result<Vec<General<'_>>, Fail> {
    let mut names = Vec::new(alloc);
    for word in words.split(' ').filter(|word| !word.is_empty()) {
        let (form, text) = word.split_once(':').ok_or("a form")?;
        names.push(name_of(form, text))?;
    }
    Ok(names)
}

fn identity_of(word: &str) -> Result<Identity<'_>, IdentityFault> {
    if word.contains('@') {
        Identity::mailbox(word.as_bytes())
    } else {
        Identity::host(word.as_bytes())
    }
}

/// Whether the row says what is so. Each identity is one that is read.
fn row_holds(alloc: Global, row: &str) -> Result<bool, Fail> {
    let (said, rest) = row.split_once(' ').ok_or("an answer")?;
    let (word, names) = rest.split_once(' ').unwrap_or((rest, ""));
    let names = names_of(alloc, names)?;
    let identity = identity_of(word).map_err(|_| "an identity")?;
    Ok(speaks_for(&names, &identity) == (said == "yes"))
}

#[test]
fn hosts_and_mailboxes_are_matched(rt: HostRuntime) -> Result<(), Fail> {
    for row in ROWS.lines().skip(1).filter(|row| !row.starts_with('#')) {
        assert!(rt; row_holds(rt.alloc(), row)?, "{row}");
    }
    matching_laws();
    Ok(())
}
