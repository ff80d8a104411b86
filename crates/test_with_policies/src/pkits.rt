//! Tests of NIST's Public Key Interoperability Test Suite (PKITS), 4.8 to 4.12.

use crate::asking::row_of;
use crate::paths::answer_to;
use std::test::Fail;

/// As the rows of `paths`; behind each its number in PKITS, whose policies 1 to 3 are a to c here. Certificates of authorities there have
/// requireExplicitPolicy 0 where they have it here. What PKITS leaves open, the certificate and the reason, is as RFC 5280, 6.1, has it.
const ROWS: &str = "
* ; E ; anchor ca-a ee-a ; good A=a U=a ; 4.8.1
a ; E ; anchor ca-a ee-a ; good A=a U=a ; 4.8.1
b ; E ; anchor ca-a ee-a ; bad 2 19 NoUserPolicy ; 4.8.1
ab ; E ; anchor ca-a ee-a ; good A=a U=a ; 4.8.1
* ; ; anchor ca-none ee-none ; good A= U= ; 4.8.2
* ; E ; anchor ca-none ee-none ; bad 1 17 NoValidPolicy ; 4.8.2
* ; ; anchor ca-ab-e0 ee-ab ; good A=ab U=ab ; 4.8.10
a ; ; anchor ca-ab-e0 ee-ab ; good A=ab U=a ; 4.8.10
b ; ; anchor ca-ab-e0 ee-ab ; good A=ab U=b ; 4.8.10
* ; ; anchor ca-any-e0 ee-any ; good A=* U=* ; 4.8.11
a ; ; anchor ca-any-e0 ee-any ; good A=* U=a ; 4.8.11
a ; ; anchor ca-any-e0 ee-a ; good A=a U=a ; 4.8.14
b ; ; anchor ca-any-e0 ee-a ; bad 2 19 NoUserPolicy ; 4.8.14
* ; ; anchor one-a-notice ; good A=a U=a ; 4.8.15
* ; ; anchor ca-a ee-ab-notices ; good A=a U=a ; 4.8.16
* ; ; anchor ca-a ee-any-notice ; good A=a U=a ; 4.8.17
a ; ; anchor ca-ab-e0 ee-a-any-notices ; good A=ab U=a ; 4.8.18
b ; ; anchor ca-ab-e0 ee-a-any-notices ; good A=ab U=b ; 4.8.18
* ; ; anchor one-a-long-notice ; good A=a U=a ; 4.8.19
* ; ; anchor ca-a ee-a-cps ; good A=a U=a ; 4.8.20
* ; ; anchor ca-a-e2 si-a ee-none-si ; good A= U= ; 4.9.6
* ; ; anchor ca-a-e2 si-a sub-a-si ee-none-sub ; bad 4 19 NoUserPolicy ; 4.9.7
* ; ; anchor ca-a-e2 si-a sub-a-si subsi-a ee-none-subsi ; bad 5 19 NoUserPolicy ; 4.9.8
a ; ; anchor ca-a>b-e0 ee-b ; good A=a U=a ; 4.10.1
b ; ; anchor ca-a>b-e0 ee-b ; bad 2 19 NoUserPolicy ; 4.10.1
* ; M ; anchor ca-a>b-e0 ee-b ; bad 2 17 NoValidPolicy ; 4.10.1
* ; ; anchor ca-a>b-e0 ee-a ; bad 2 17 NoValidPolicy ; 4.10.2
* ; M ; anchor ca-a>b-e0 ee-a ; bad 2 17 NoValidPolicy ; 4.10.2
* ; ; anchor ca-any>a-e0 ee-a ; bad 1 18 AnyPolicyMapped ; 4.10.7
* ; ; anchor ca-a>any-e0 ee-a ; bad 1 18 AnyPolicyMapped ; 4.10.8
* ; ; anchor ca-a sub-any+a>b-e0 ee-a-sub ; bad 3 17 NoValidPolicy ; 4.10.10
* ; ; anchor ca-a sub-any+a>b-e0 ee-b-sub ; good A=a U=a ; 4.10.11
a ; ; anchor ca-ab+a>c-e0 ee-c-any ; good A=ab U=a ; 4.10.12
b ; ; anchor ca-ab+a>c-e0 ee-c-any ; good A=ab U=b ; 4.10.12
* ; ; anchor ca-a-any+a>b-e0 ee-b ; good A=a U=a ; 4.10.13
* ; ; anchor ca-a-any+a>b-e0 ee-a ; good A=a U=a ; 4.10.14
* ; ; anchor ca-a-e0-i0 sub-a>b ee-b-sub ; bad 3 17 NoValidPolicy ; 4.11.1
* ; ; anchor ca-a-e0-i1 si-a sub-a>b-si ee-b-sub ; good A=a U=a ; 4.11.7
* ; ; anchor ca-a-e0-x0 ee-any ; bad 2 17 NoValidPolicy ; 4.12.1
* ; ; anchor ca-a-e0-x0 ee-a-any ; good A=a U=a ; 4.12.2
* ; ; anchor ca-a-e0-x1 sub-any ee-a-sub ; good A=a U=a ; 4.12.3
* ; A ; anchor ca-a-e0-x1 sub-any ee-a-sub ; bad 2 17 NoValidPolicy ; 4.12.3
* ; ; anchor ca-a-e0-x1 sub-any ee-any-sub ; bad 3 17 NoValidPolicy ; 4.12.4
* ; ; anchor ca-a-e0-x1 si-a sub-any-si ee-a-sub ; good A=a U=a ; 4.12.7
* ; ; anchor ca-a-e0-x1 si-a sub-any-si subsi-any ee-a-subsi ; good A=a U=a ; 4.12.9
* ; ; anchor ca-a-e0-x1 si-a sub-any-si subsi-any ; bad 4 17 NoValidPolicy ; 4.12.10
";

#[test]
fn each_row_of_pkits_has_its_answer(rt: HostRuntime) -> Result<(), Fail> {
    for line in ROWS.lines().filter(|line| line.contains(';')) {
        let row = row_of(line);
        let answer = answer_to(rt.alloc(), row.user, row.inputs, row.names);
        let answer = answer.map_err(|_| "an answer")?;
        assert_eq!(rt; answer.as_str(), row.wanted, "{line}");
    }
    Ok(())
}

#[test]
fn no_row_of_pkits_is_lost(rt: HostRuntime) {
    assert_eq!(rt; ROWS.lines().filter(|line| line.contains(';')).count(), 46);
}
