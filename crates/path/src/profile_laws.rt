//! What the profiles have in common.

ghost use Rattle.path.specs.ProfileReading.{QueryIsUnique, StatedQueryIsAsRead, StatedQueryIsRefusedInWide, StatedRefusalIsAsRead, WideQueryIsStatedWidened, WideRefusalIsStatedOrItsOwn};

/// Texts are one question. In the stated profile it is read and refused as by `Query::read`. The question that the wide profile reads is that
/// of the stated one, with the points and hosts of each certificate. If the wide profile refuses a certificate, the stated one refuses it for
/// the same fault, or the fault is that of its points or hosts: the latter, if the stated profile reads the question.
pub fn query_profile_laws()
    ensures unique { (options : _) → QueryIsUnique options }
    ensures stated { StatedQueryIsAsRead }
    ensures stated_refusal { StatedRefusalIsAsRead }
    ensures wide { WideQueryIsStatedWidened }
    ensures refusal { WideRefusalIsStatedOrItsOwn }
    ensures wide_alone { StatedQueryIsRefusedInWide }
{}
