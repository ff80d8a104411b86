//! Which certificate of a path is refused first, for its mail addresses, its URIs, or the path itself.

use crate::asking::{RowFault, answer_for, answer_to};
use statements_facts::Profile;
use std::alloc::Global;
use std::test::Fail;

/// The answer, and the certificates below the anchor R, between strokes. Comments begin with a number sign.
const ROWS: &str = "
# RFC 5280, 4.2.1.10: root@example.com is the root mailbox on the host example.com
good ; ca(A,R){permit mail root@example.com} / ee(T,A){mail root@example.com}
good ; ca(A,R){permit mail root@EXAMPLE.com} / ee(T,A){mail root@Example.COM}
bad 2 6 NotPermitted ; ca(A,R){permit mail root@example.com} / ee(T,A){mail admin@example.com}
bad 2 6 NotPermitted ; ca(A,R){permit mail root@example.com} / ee(T,A){mail Root@example.com}
bad 2 6 NotPermitted ; ca(A,R){permit mail root@example.com} / ee(T,A){mail root@mail.example.com}
# example.com is satisfied by any mail address at the host example.com
good ; ca(A,R){permit mail example.com} / ee(T,A){mail root@example.com}
bad 2 6 NotPermitted ; ca(A,R){permit mail example.com} / ee(T,A){mail root@mail.example.com}
bad 2 6 NotPermitted ; ca(A,R){permit mail example.com} / ee(T,A){mail root@badexample.com}
# .example.com is every address in the domain, but none on the host example.com
good ; ca(A,R){permit mail .example.com} / ee(T,A){mail root@mail.example.com}
good ; ca(A,R){permit mail .example.com} / ee(T,A){mail root@a.b.example.com}
bad 2 6 NotPermitted ; ca(A,R){permit mail .example.com} / ee(T,A){mail root@example.com}
# .example.com is satisfied by host.example.com and my.host.example.com, and not by example.com
good ; ca(A,R){permit uri .example.com} / ee(T,A){uri http://host.example.com/}
good ; ca(A,R){permit uri .example.com} / ee(T,A){uri http://my.host.example.com/}
bad 2 6 NotPermitted ; ca(A,R){permit uri .example.com} / ee(T,A){uri http://example.com/}
bad 2 6 NotPermitted ; ca(A,R){permit uri .example.com} / ee(T,A){uri http://badexample.com/}
# without a dot before it, a constraint on URIs is a host
good ; ca(A,R){permit uri host.example.com} / ee(T,A){uri http://host.example.com:8080/a}
bad 2 6 NotPermitted ; ca(A,R){permit uri host.example.com} / ee(T,A){uri http://my.host.example.com/}
bad 2 6 NotPermitted ; ca(A,R){permit uri host.example.com} / ee(T,A){uri http://host.example.com@example.org/}
# if no name of the form is in the certificate, it is acceptable
good ; ca(A,R){permit mail example.com} / ee(T,A)
good ; ca(A,R){permit mail example.com} / ee(T,A){uri http://example.org/}
good ; ca(A,R){permit uri .example.com} / ee(T,A){mail root@example.org}
# a URI without a host that is a DNS name, where URIs are constrained, and where they are not
bad 2 8 ConstraintForm ; ca(A,R){permit uri .example.com} / ee(T,A){uri urn:example:animal:ferret}
bad 2 8 ConstraintForm ; ca(A,R){permit uri .example.com} / ee(T,A){uri http://192.0.2.1/}
bad 2 8 ConstraintForm ; ca(A,R){exclude uri .example.com} / ee(T,A){uri http://[2001:db8::7]/}
bad 2 8 ConstraintForm ; ca(A,R){exclude uri .example.com} / ee(T,A){uri urn:example:animal:ferret}
bad 3 8 ConstraintForm ; ca(A,R){permit uri .example.com} / ca(B,A) / ee(T,B){uri urn:example:animal:ferret}
good ; ca(A,R){permit mail example.com} / ee(T,A){uri urn:example:animal:ferret}
good ; ca(A,R) / ee(T,A){uri http://192.0.2.1/}
# nor one that is fully qualified
bad 2 8 ConstraintForm ; ca(A,R){exclude uri evil.com} / ee(T,A){uri http://0x7f000001/}
bad 2 8 ConstraintForm ; ca(A,R){exclude uri evil.com} / ee(T,A){uri http://localhost/}
bad 2 8 ConstraintForm ; ca(A,R){permit uri .example.com} / ee(T,A){uri http://localhost/}
good ; ca(A,R){exclude mail evil.com} / ee(T,A){uri http://0x7f000001/}{uri http://localhost/}
# a local part in quotes and an address literal make mailboxes (RFC 5321, 4.1.2)
good ; ca(A,R){permit mail example.com} / ee(T,A){mail \"a b\"@example.com}
good ; ca(A,R){permit mail root@example.com} / ee(T,A){mail \"root\"@example.com}
bad 2 6 NotPermitted ; ca(A,R){permit mail example.com} / ee(T,A){mail root@[192.0.2.1]}
good ; ca(A,R){permit mail root@[192.0.2.1]} / ee(T,A){mail root@[192.0.2.1]}
good ; ca(A,R){exclude mail example.com} / ee(T,A){mail root@[192.0.2.1]}
bad 2 7 Excluded ; ca(A,R){exclude mail example.com} / ee(T,A){mail \"a@b\"@example.com}
# a mail address that is no mailbox, where mail addresses are constrained, and where they are not
bad 2 8 ConstraintForm ; ca(A,R){permit mail example.com} / ee(T,A){mail root}
bad 2 8 ConstraintForm ; ca(A,R){exclude mail example.com} / ee(T,A){mail a..b@example.org}
bad 2 8 ConstraintForm ; ca(A,R){exclude mail example.com} / ee(T,A){email Root <root@example.org>}
bad 2 8 ConstraintForm ; ca(A,R){exclude mail example.com} / ee(T,A){email }
bad 2 8 ConstraintForm ; ca(A,R){permit mail example.com} / ee(T,A){t61 root@example.com}
bad 2 8 ConstraintForm ; ca(A,R){permit mail example.com} / ee(T,A){bmp root@example.com}
bad 3 8 ConstraintForm ; ca(A,R){exclude mail example.com} / ca(B,A) / ee(T,B){mail root@}
bad 3 8 ConstraintForm ; ca(A,R){exclude mail example.com} / ca(B,A){permit uri .example.com} / ee(T,B){mail root@}
good ; ca(A,R) / ee(T,A){mail root}{mail @}{mail a b@example.com}
good ; ca(A,R) / ee(T,A){email Root <root@example.org>}
good ; ca(A,R) / ee(T,A){email }
good ; ca(A,R) / ee(T,A){t61 root@example.com}
good ; ca(A,R) / ee(T,A){bmp root@example.com}
good ; ca(A,R){permit uri .example.com}{exclude uri .example.org} / ee(T,A){mail root}
good ; ca(A,R){mail root}{permit mail example.com} / ee(T,A)
good ; ca(A,R){permit mail example.com} / ca(A,A){key B}{mail root} / ee(T,A){signed B}
bad 2 6 NotPermitted ; ca(A,R){permit mail example.com} / ee(T,A){mail root}{mail a@example.org}
bad 2 7 Excluded ; ca(A,R){exclude mail example.org} / ee(T,A){mail root}{mail a@example.org}
# an SmtpUTF8Mailbox is a mail address (RFC 9598, 6)
bad 2 7 Excluded ; ca(A,R){exclude mail evil.com} / ee(T,A){smtp \u{fc}@evil.com}
good ; ca(A,R){exclude mail evil.com} / ee(T,A){smtp \u{fc}@example.com}
bad 2 6 NotPermitted ; ca(A,R){permit mail example.com} / ee(T,A){smtp \u{fc}@evil.com}
good ; ca(A,R){permit mail example.com} / ee(T,A){smtp \u{fc}@EXAMPLE.com}
bad 2 6 NotPermitted ; ca(A,R){permit mail example.com} / ee(T,A){email a@example.com}{smtp a@evil.com}
bad 2 8 ConstraintForm ; ca(A,R){exclude mail evil.com} / ee(T,A){smtp \u{fc}}
bad 2 8 ConstraintForm ; ca(A,R){permit mail evil.com} / ee(T,A){smtp-ia5 a@evil.com}
good ; ca(A,R) / ee(T,A){smtp \u{fc}}
good ; ca(A,R) / ee(T,A){smtp-ia5 a@evil.com}
# what is excluded is refused, whatever is permitted
good ; ca(A,R){permit mail example.com}{exclude mail root@example.com} / ee(T,A){mail admin@example.com}
bad 2 7 Excluded ; ca(A,R){permit mail example.com}{exclude mail root@example.com} / ee(T,A){mail root@example.com}
bad 2 7 Excluded ; ca(A,R){exclude mail root@example.com}{permit mail example.com} / ee(T,A){mail root@EXAMPLE.com}
bad 2 7 Excluded ; ca(A,R){exclude mail .example.com} / ee(T,A){mail root@mail.example.com}
good ; ca(A,R){exclude mail .example.com} / ee(T,A){mail root@example.com}
bad 2 7 Excluded ; ca(A,R){exclude uri .example.com} / ee(T,A){uri http://host.example.com/}
good ; ca(A,R){exclude uri .example.com} / ee(T,A){uri http://example.com/}
bad 2 7 Excluded ; ca(A,R){exclude uri host.example.com} / ee(T,A){uri http://HOST.example.com/}
# each name is held against the constraints, and one of several bases is enough
good ; ca(A,R){permit mail example.com}{permit mail example.org} / ee(T,A){mail a@example.com}{mail a@example.org}
bad 2 6 NotPermitted ; ca(A,R){permit mail example.com} / ee(T,A){mail a@example.com}{mail a@example.org}
bad 2 6 NotPermitted ; ca(A,R){permit uri .example.com} / ee(T,A){uri http://a.example.com/}{uri http://a.example.org/}
bad 2 7 Excluded ; ca(A,R){exclude mail b.example}{exclude mail a.example} / ee(T,A){mail a@c.example}{mail a@a.example}
# several authorities narrow what is permitted (6.1.4 (g) (1))
good ; ca(A,R){permit mail .example.com} / ca(B,A){permit mail mail.example.com} / ee(T,B){mail a@mail.example.com}
bad 3 6 NotPermitted ; ca(A,R){permit mail .example.com} / ca(B,A){permit mail mail.example.com} / ee(T,B){mail a@www.example.com}
bad 3 6 NotPermitted ; ca(A,R){permit mail mail.example.com} / ca(B,A){permit mail .example.com} / ee(T,B){mail a@www.example.com}
good ; ca(A,R){permit mail mail.example.com} / ca(B,A){permit mail .example.com} / ee(T,B){mail a@mail.example.com}
bad 3 6 NotPermitted ; ca(A,R){permit mail example.com} / ca(B,A){permit mail example.org} / ee(T,B){mail a@example.com}
bad 3 6 NotPermitted ; ca(A,R){permit mail example.com} / ca(B,A){permit mail example.org} / ee(T,B){mail a@example.org}
good ; ca(A,R){permit mail example.com} / ca(B,A){permit mail example.org} / ee(T,B)
good ; ca(A,R){permit uri .example.com} / ca(B,A){permit uri .b.example.com}{permit uri .org} / ee(T,B){uri http://a.b.example.com/}
bad 3 6 NotPermitted ; ca(A,R){permit uri .example.com} / ca(B,A){permit uri .b.example.com}{permit uri .org} / ee(T,B){uri http://a.org/}
bad 3 6 NotPermitted ; ca(A,R){permit uri .example.com} / ca(B,A){permit uri .b.example.com} / ee(T,B){uri http://c.example.com/}
# a certificate that does not constrain a form leaves what is permitted of it as it is
good ; ca(A,R){permit mail example.com} / ca(B,A) / ee(T,B){mail a@example.com}
bad 3 6 NotPermitted ; ca(A,R){permit mail example.com} / ca(B,A) / ee(T,B){mail a@example.org}
bad 3 6 NotPermitted ; ca(A,R){permit mail example.com} / ca(B,A){permit uri .example.org} / ee(T,B){mail a@example.org}
good ; ca(A,R){permit mail example.com} / ca(B,A){permit uri .example.org} / ee(T,B){mail a@example.com}{uri http://a.example.org/}
bad 3 6 NotPermitted ; ca(A,R) / ca(B,A){permit mail example.com} / ee(T,B){mail a@example.org}
# and they join what is excluded (6.1.4 (g) (2))
bad 3 7 Excluded ; ca(A,R){exclude uri a.example.com} / ca(B,A){exclude uri b.example.com} / ee(T,B){uri http://a.example.com/}
bad 3 7 Excluded ; ca(A,R){exclude uri a.example.com} / ca(B,A){exclude uri b.example.com} / ee(T,B){uri http://b.example.com/}
good ; ca(A,R){exclude uri a.example.com} / ca(B,A){exclude uri b.example.com} / ee(T,B){uri http://c.example.com/}
bad 3 7 Excluded ; ca(A,R){exclude mail example.com} / ca(B,A){permit mail example.com} / ee(T,B){mail a@example.com}
bad 3 7 Excluded ; ca(A,R){permit mail example.com} / ca(B,A){exclude mail a@example.com} / ee(T,B){mail a@example.com}
# the names of an authority are held against those above it, and not against its own constraints
bad 2 6 NotPermitted ; ca(A,R){permit mail example.com} / ca(B,A){mail ca@example.org} / ee(T,B)
good ; ca(A,R){mail ca@example.org}{permit mail example.com} / ee(T,A){mail a@example.com}
good ; ca(A,R){mail ca@example.org}{exclude mail example.org} / ee(T,A){mail a@example.com}
# a self-issued certificate is not held against them, but for the last one (6.1.3 (b) and (c)), and its own constraints hold
good ; ca(A,R){permit mail example.com} / ca(A,A){key B}{mail ca@example.org} / ee(T,A){signed B}{mail a@example.com}
good ; ca(A,R){exclude mail example.org} / ca(A,A){key B}{mail ca@example.org} / ee(T,A){signed B}
good ; ca(A,R){permit uri .example.com} / ca(A,A){key B}{uri urn:example:animal:ferret} / ee(T,A){signed B}
bad 3 6 NotPermitted ; ca(A,R){permit mail example.com} / ca(A,A){key B} / ee(T,A){signed B}{mail a@example.org}
bad 2 6 NotPermitted ; ca(A,R){permit mail example.com} / ca(A,A){key B}{mail ca@example.org}
bad 2 7 Excluded ; ca(A,R){exclude mail example.org} / ca(A,A){key B}{mail ca@example.org}
bad 2 8 ConstraintForm ; ca(A,R){permit uri .example.com} / ca(A,A){key B}{uri urn:example:animal:ferret}
bad 3 6 NotPermitted ; ca(A,R) / ca(A,A){key B}{permit mail example.com} / ee(T,A){signed B}{mail a@example.org}
bad 3 7 Excluded ; ca(A,R) / ca(A,A){key B}{exclude mail example.org} / ee(T,A){signed B}{mail a@example.org}
# an emailAddress of the subject is a mail address, with a subjectAltName too
good ; ca(A,R){permit mail example.com} / ee(T,A){email a@example.com}
bad 2 6 NotPermitted ; ca(A,R){permit mail example.com} / ee(T,A){email a@example.org}
bad 2 6 NotPermitted ; ca(A,R){permit mail example.com} / ee(T,A){email a@example.org}{mail a@example.com}
bad 2 7 Excluded ; ca(A,R){exclude mail example.org} / ee(T,A){email a@example.org}
# of several reasons at one certificate that of the least rank is told
bad 2 6 NotPermitted ; ca(A,R){permit mail example.com}{exclude mail a@example.org} / ee(T,A){mail a@example.org}
bad 2 6 NotPermitted ; ca(A,R){permit uri .example.com} / ee(T,A){uri urn:example:animal:ferret}{uri http://example.org/}
bad 2 7 Excluded ; ca(A,R){exclude uri .example.com} / ee(T,A){uri urn:example:animal:ferret}{uri http://a.example.com/}
bad 2 2 Signature ; ca(A,R){permit mail example.com} / ee(T,A){signed X}{mail a@example.org}
bad 2 4 Expired ; ca(A,R){permit mail example.com} / ee(T,A){until 250201000000Z}{mail a@example.org}
bad 2 6 NotPermitted ; ca(A,R){permit mail example.com} / ee(B,A){mail a@example.org} / ee(T,B)
bad 2 9 NotCa ; ca(A,R){permit mail example.com} / ee(B,A){mail a@example.com} / ee(T,B)
# and the first certificate, whether the path is refused there or its names
bad 1 4 Expired ; ca(A,R){until 250201000000Z}{permit mail example.com} / ee(T,A){mail a@example.org}
bad 2 6 NotPermitted ; ca(A,R){permit mail example.com} / ca(B,A){mail a@example.org} / ee(T,B){signed X}
bad 2 9 NotCa ; ca(A,R){permit mail example.com} / ee(B,A) / ee(T,B){mail a@example.org}
# constraints on other forms are those of the path
bad 2 6 NotPermitted ; ca(A,R){permit ip 0A000000FF000000}{permit mail example.com} / ee(T,A){ip 0B000001}
good ; ca(A,R){permit ip 0A000000FF000000}{permit mail example.com} / ee(T,A){ip 0A000001}{mail a@example.com}
";

fn row_holds(alloc: Global, row: &str) -> Result<bool, Fail> {
    let (wanted, path) = row.split_once(" ; ").ok_or("an answer")?;
    let answer = answer_to(alloc, path).map_err(|_| "an answer")?;
    Ok(answer.as_str() == wanted)
}

#[test]
fn each_row_has_its_answer(rt: HostRuntime) -> Result<(), Fail> {
    for row in ROWS.lines().filter(|row| row.contains(';')) {
        assert!(rt; row_holds(rt.alloc(), row)?, "{row}");
    }
    Ok(())
}

#[test]
fn no_row_is_lost(rt: HostRuntime) {
    assert_eq!(rt; ROWS.lines().filter(|row| row.contains(';')).count(), 125);
}

#[test]
fn a_path_of_no_certificates_is_empty(rt: HostRuntime) -> Result<(), Fail> {
    let answer = answer_to(rt.alloc(), "").map_err(|_| "an answer")?;
    assert_eq!(rt; answer.as_str(), "bad 0 15 Empty");
    Ok(())
}

const PERMITTED: &str = "ca(A,R){permit mail example.com} / ee(T,A){mail root@example.com}";

/// The stated profile does not process constraints on mail addresses and URIs.
#[test]
fn who_does_not_ask_is_refused(rt: HostRuntime) -> Result<(), Fail> {
    let refused = answer_for(rt.alloc(), Profile::Stated, None, PERMITTED).map_err(
        |_| "an answer",
    )?;
    assert_eq!(rt; refused.as_str(), "bad 2 8 ConstraintForm");
    Ok(())
}

/// For every refused allocation: the answer is that of ample memory, or that memory ran out.
#[test]
fn wants_memory_or_answers(rt: HostRuntime) {
    let answers = match answer_to(rt.alloc(), PERMITTED) {
        Ok(answer) => answer.as_str() == "good",
        Err(fault) => fault == RowFault::Memory,
    };
    assert!(rt; answers);
}
