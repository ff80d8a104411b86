//! `==` of comparisons.

use path::Reason;
use relying_agreement::{Comparison, Verdict};
use std::test::Fail;

// Each differs from the others in one field, or in its variant.
const DIFFERENT: &[Comparison] = &[
    Comparison::Same(Verdict::Valid),
    Comparison::Same(Verdict::Unknown(1)),
    Comparison::Differ(Verdict::Valid, Verdict::Unknown(1), 1),
    Comparison::Differ(Verdict::Valid, Verdict::Unknown(1), 2),
    Comparison::Differ(Verdict::Valid, Verdict::Revoked(1, 0), 1),
    Comparison::Differ(Verdict::Unknown(1), Verdict::Valid, 1),
    Comparison::Differ(Verdict::Valid, Verdict::Invalid(1, Reason::Empty), 1),
];

#[test]
fn each_field_of_a_comparison_counts(rt: HostRuntime) -> Result<(), Fail> {
    for (place, one) in DIFFERENT.iter().enumerate() {
        for (other_place, other) in DIFFERENT.iter().enumerate() {
            assert!(rt;
                (*one == *other) == (place == other_place),
                "{place} and {other_place}"
            );
        }
    }
    Ok(())
}
