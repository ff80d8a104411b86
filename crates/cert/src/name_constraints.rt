//! nameConstraints: the names that later certificates of a path may hold (RFC 5280, 4.2.1.10).

ghost use Rattle.std.specs.Prelude.{◌≤◌, ◌+◌, vec_len};

use crate::contained::contained_value;
use crate::fault::{CertFault, CertRule};
use crate::limit::MOST_NAMES;
use crate::subtrees::{take_excluded, take_permitted};
use asn::{SEQUENCE, Tlv};
use names::Subtree;
use std::alloc::Global;

/// NameConstraints ::= SEQUENCE { permittedSubtrees [0] GeneralSubtrees OPTIONAL, excludedSubtrees [1] GeneralSubtrees
/// OPTIONAL }
#[derive(Drop)]
pub struct NameConstraints<'a> {
    /// Empty if they are not there.
    pub permitted: Vec<Subtree<'a>>,
    /// Empty if they are not there.
    pub excluded: Vec<Subtree<'a>>,
    pub ghost served: { vec_len permitted + vec_len excluded ≤ 4096 },
}

impl<'a> NameConstraints<'a> {
    ghost use Rattle.cert.specs.Fault.{ReadsUnlessFull};
    ghost use Rattle.cert.specs.NameConstraints.{name_constraints, seen_name_constraints};

    /// Reads the name constraints in the OCTET STRING. Both lists may be missing. Else the first fault: `Der` in its contents;
    /// `ExtensionValue` at a value with a wrong identifier or left over, or at the end of the enclosing value if a base or every subtree
    /// is missing; `Limit` at the 4,097th subtree, permitted ones first; `Name` in a base; `SubtreeBounds` at a minimum, which is 0 and so
    /// left out, or at a maximum, which may not be there.
    #[tactic(auto, unfolding(crate::specs::NameConstraints::name_constraints))]
    pub fn read(alloc: Global, octet_string: Tlv<'a>) -> Result<NameConstraints<'a>, CertFault>
        ensures { ReadsUnlessFull seen_name_constraints result octet_string.entry name_constraints }
    {
        let value = contained_value(octet_string)?;
        value.is_a(SEQUENCE, CertRule::ExtensionValue)?;
        let mut members = value.members();
        let permitted = take_permitted(alloc, &mut members)?;
        let excluded = take_excluded(alloc, MOST_NAMES - permitted.len(), &mut members)?;
        members.ended(CertRule::ExtensionValue)?;
        Ok(NameConstraints {
            permitted,
            excluded,
        })
    }
}
