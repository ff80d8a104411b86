//! Certificates with malformed bases, of which the first is refused before the path is validated.

use crate::asking::{RowFault, answer_to, octets_of, question};
use cert::{CertFault, CertRule};
use path::QueryFault;
use std::alloc::Global;
use std::test::Fail;

/// The answer is the certificate that is refused, the fault, 18 for bases of mail addresses and 19 for those of URIs, and its place in the
/// certificate. Behind it stand the certificates below the anchor R, between strokes. Comments begin with a number sign.
const ROWS: &str = "
# no bases (4.2.1.10)
refused 1 18 131 ; ca(A,R){permit mail @example.com} / ee(T,A)
refused 1 18 131 ; ca(A,R){exclude mail root@.example.com} / ee(T,A)
refused 1 18 148 ; ca(A,R){permit mail example.com}{exclude mail ..} / ee(T,A)
refused 1 19 131 ; ca(A,R){permit uri http://example.com/} / ee(T,A)
refused 1 19 131 ; ca(A,R){permit uri *.example.com} / ee(T,A)
refused 1 19 131 ; ca(A,R){exclude uri 192.0.2.1} / ee(T,A)
refused 1 19 131 ; ca(A,R){exclude uri root@example.com} / ee(T,A)
refused 1 19 131 ; ca(A,R){permit uri .} / ee(T,A)
# the first certificate that has one, whatever else the path is refused for, and the first base of it
refused 1 18 131 ; ca(A,R){permit mail @} / ca(T,A){permit mail @}
refused 2 18 131 ; ca(A,R){until 250201000000Z} / ca(T,A){signed X}{exclude mail a}{permit mail @}
refused 3 19 131 ; ca(A,R) / ca(A,A){key B} / ca(T,A){signed B}{permit uri a..b}
refused 1 19 131 ; ca(A,R){permit uri a..b}{exclude mail @} / ee(T,A)
# mail addresses and URIs may be any text where they are not constrained
refused 1 18 145 ; ca(A,R){mail a}{permit mail @} / ee(T,A){mail b}
good ; ca(A,R){mail a} / ee(T,A){mail b}
good ; ca(A,R) / ee(T,A){uri :}
good ; ca(A,R) / ee(T,A){uri http://root@/}
";

fn row_holds(alloc: Global, row: &str) -> Result<bool, Fail> {
    let (wanted, path) = row.split_once(" ; ").ok_or("an answer")?;
    let answer = answer_to(alloc, path).map_err(|_| "an answer")?;
    Ok(answer.as_str() == wanted)
}

#[test]
fn each_row_has_its_fault(rt: HostRuntime) -> Result<(), Fail> {
    for row in ROWS.lines().filter(|row| row.contains(';')) {
        assert!(rt; row_holds(rt.alloc(), row)?, "{row}");
    }
    Ok(())
}

#[test]
fn no_row_is_lost(rt: HostRuntime) {
    assert_eq!(rt; ROWS.lines().filter(|row| row.contains(';')).count(), 16);
}

/// What a text is refused for that is no certificate, in place of a path's first.
fn refusal_of(alloc: Global, text: &[u8]) -> Result<Option<QueryFault>, RowFault> {
    let mut octets = octets_of(alloc, "")?;
    octets.push(Vec::from_slice(alloc, text)?)?;
    match question(alloc, &octets) {
        Ok(_) => Ok(None),
        Err(RowFault::Refused(fault)) => Ok(Some(fault)),
        Err(fault) => Err(fault),
    }
}

#[test]
fn a_text_that_is_no_certificate_is_refused(rt: HostRuntime) -> Result<(), Fail> {
    let refusal = refusal_of(rt.alloc(), b"\x05\x00").map_err(|_| "octets")?;
    let fault = CertFault::Refused(CertRule::Layout, 0);
    assert_eq!(rt;
        refusal,
        Some(QueryFault {
            certificate: 1,
            fault
        })
    );
    Ok(())
}

#[test]
fn a_question_has_what_was_asked(rt: HostRuntime) -> Result<(), Fail> {
    let path = "ca(A,R){permit mail example.com} / ee(T,A){mail a@example.com}{mail b@example.com}";
    let octets = octets_of(rt.alloc(), path).map_err(|_| "octets")?;
    let query = question(rt.alloc(), &octets).map_err(|_| "a question")?;
    let [above, below] = query.path.as_slice() else {
        return Err(Fail::from("two certificates"));
    };
    assert!(rt; above.hosts.permitted_mail.len() == 1 && above.hosts.mail.is_empty());
    assert!(rt; below.hosts.permitted_mail.is_empty() && below.hosts.mail.len() == 2);
    let constraints = &above.extensions.name_constraints;
    assert!(rt; constraints.permitted.is_empty() && constraints.excluded.is_empty());
    Ok(())
}
