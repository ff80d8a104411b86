//! Critical extensions that the wide profile processes (RFC 5280, 4.2, 4.2.1.4 and 4.2.1.13).

use crate::asking::answer_for;
use statements_facts::Profile;
use std::alloc::Global;
use std::test::Fail;

/// The answer in the wide profile, that in the stated one, and the certificates below the anchor R, between strokes. Comments begin with a
/// number sign.
const ROWS: &str = "
# certificatePolicies whose contents are policies, without qualifiers, and with the two that RFC 5280 defines
good ; good ; ca(A,R) / ee(T,A){extensions 301430120603551D200101FF04083006300406022A03}
good ; good ; ca(A,R) / ee(T,A){extensions 302730250603551D200101FF041B3019301706022A033011300F06082B060105050702011603612F62}
good ; good ; ca(A,R) / ee(T,A){extensions 302430220603551D200101FF04183016301406022A03300E300C06082B060105050702023000}
# contents that are no policies
bad 2 13 CriticalUnknown ; good ; ca(A,R) / ee(T,A){extensions 300E300C0603551D200101FF0402FFFF}
bad 2 13 CriticalUnknown ; good ; ca(A,R) / ee(T,A){extensions 300E300C0603551D200101FF04023000}
bad 2 13 CriticalUnknown ; good ; ca(A,R) / ee(T,A){extensions 300E300C0603551D200101FF04020500}
# a qualifier of another type
bad 2 13 CriticalUnknown ; good ; ca(A,R) / ee(T,A){extensions 301E301C0603551D200101FF04123010300E06022A033008300606022A040500}
# where it is not critical, nobody has to process it
good ; good ; ca(A,R) / ee(T,A){extensions 300B30090603551D200402FFFF}
good ; good ; ca(A,R) / ee(T,A){extensions 301B30190603551D2004123010300E06022A033008300606022A040500}
# at an authority
bad 1 13 CriticalUnknown ; good ; ee(A,R){extensions 302F300F0603551D130101FF040530030101FF301C0603551D200101FF04123010300E06022A033008300606022A040500} / ee(T,A)
good ; good ; ee(A,R){extensions 3025300F0603551D130101FF040530030101FF30120603551D200101FF04083006300406022A03} / ee(T,A)
# cRLDistributionPoints is processed
good ; bad 2 13 CriticalUnknown ; ca(A,R) / ee(T,A){extensions 3020301E0603551D1F0101FF041430123010A00EA00C860A687474703A2F2F612F31}
good ; good ; ca(A,R) / ee(T,A){extensions 301D301B0603551D1F041430123010A00EA00C860A687474703A2F2F612F31}
# whatever else is critical
bad 2 13 CriticalUnknown ; bad 2 13 CriticalUnknown ; ca(A,R) / ee(T,A){extensions 302E301E0603551D1F0101FF041430123010A00EA00C860A687474703A2F2F612F31300C0603551D630101FF04020500}
bad 2 13 CriticalUnknown ; bad 2 13 CriticalUnknown ; ca(A,R) / ee(T,A){extensions 300E300C0603551D630101FF04020500}
bad 2 13 CriticalUnknown ; bad 2 13 CriticalUnknown ; ca(A,R) / ee(T,A){extensions 302230120603551D200101FF04083006300406022A03300C0603551D630101FF04020500}
bad 2 13 CriticalUnknown ; bad 2 13 CriticalUnknown ; ca(A,R) / ee(T,A){extensions 303E301C0603551D200101FF04123010300E06022A033008300606022A040500301E0603551D1F0101FF041430123010A00EA00C860A687474703A2F2F612F31}
";

fn is_answered(alloc: Global, profile: Profile, path: &str, wanted: &str) -> Result<bool, Fail> {
    let answer = answer_for(alloc, profile, None, path).map_err(|_| "an answer")?;
    Ok(answer.as_str() == wanted)
}

fn row_holds(alloc: Global, row: &str) -> Result<bool, Fail> {
    let (wide, rest) = row.split_once(" ; ").ok_or("an answer")?;
    let (stated, path) = rest.split_once(" ; ").ok_or("another")?;
    Ok(
        is_answered(alloc, Profile::Wide, path, wide)?
            && is_answered(alloc, Profile::Stated, path, stated)?,
    )
}

#[test]
fn each_row_has_its_answers(rt: HostRuntime) -> Result<(), Fail> {
    for row in ROWS.lines().filter(|row| row.contains(';')) {
        assert!(rt; row_holds(rt.alloc(), row)?, "{row}");
    }
    Ok(())
}

#[test]
fn no_row_is_lost(rt: HostRuntime) {
    assert_eq!(rt; ROWS.lines().filter(|row| row.contains(';')).count(), 17);
}
