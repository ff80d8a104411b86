//! What a valid path is made of, and what a search finds.

ghost use Rattle.path_issuers.specs.Factors.{TailIsRight, ValidPathFactors};
ghost use Rattle.path_issuers.specs.Search.{CandidatesAreOrdered, FirstValidIsOne, TailGrows};
ghost use Rattle.path_search.specs.WhyNot.{NamedAnchorsAreInTheWay, TailFactors, TargetFactors};

/// A path is valid exactly if its anchor issues its first certificate, and each certificate is right alone and with those below it; so the
/// last certificates of a valid path are right, whatever stands above them.
pub fn factor_laws()
    ensures exact { ValidPathFactors }
    ensures tail { TailIsRight }
{}

/// A search has at most one first valid candidate, since of two candidates one comes before the other. A candidate with a further place has a certificate more, at the top of its path.
pub fn search_laws()
    ensures one { FirstValidIsOne }
    ensures ordered { CandidatesAreOrdered }
    ensures grows { TailGrows }
{}

/// What a certificate does not meet at the end of a path, or above one, is why it is not right there; and where no candidate is valid, the
/// key of no anchor with the name of the issuer of a top accepts the signature.
pub fn why_not_laws()
    ensures target { TargetFactors }
    ensures tail { TailFactors }
    ensures anchors { NamedAnchorsAreInTheWay }
{}
