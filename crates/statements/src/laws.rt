//! What the definitions of statements decide.

ghost use Rattle.statements.specs.OcspFact.{StatedIdsAreBySha1, WideResponsesSayMore};
ghost use Rattle.statements.specs.OneIssuer.{IssuerDecides};
ghost use Rattle.statements.specs.Responder.{SignersAreFound};
ghost use Rattle.statements.specs.Statement.{GenuineStatementsAreFacts, GenuineStatementsAreFactsUnder, StatedStatementsAreReadWide, StatementIsExact, StatementIsExactUnder};

/// Octets are read as a statement exactly if they are a list or a response as the standards lay them out. A response has a signer exactly
/// if one is found. A statement is genuine exactly if it is a list that names the issuer, whose signature is accepted under the issuer's
/// key, or a response with a signer that says something of the issuer's certificates.
pub fn statement_laws()
    ensures exact { StatementIsExact }
    ensures signers { SignersAreFound }
    ensures genuine { GenuineStatementsAreFacts }
{}

/// Two certificates of one issuer (their subjects match, and their subjectPublicKeyInfo has the same octets) believe the same statements,
/// and find the same facts in them; of a response in the wide profile if they spell the subject alike.
pub fn identity_laws()
    ensures { IssuerDecides }
{}

/// In either profile octets are read as a statement exactly if they are one. What is read in the stated one is read as the same in the
/// wide one. A statement is genuine exactly as `statement_laws` says, but that a list is one in the profile, and a response says what it
/// says in the profile: in the stated one what it says by SHA-1; in the wide one that, and what it says by SHA-256.
pub fn statement_profile_laws()
    ensures exact { (profile : _) → StatementIsExactUnder profile }
    ensures wide { StatedStatementsAreReadWide }
    ensures genuine { (profile : _) → GenuineStatementsAreFactsUnder profile }
    ensures by_sha1 { StatedIdsAreBySha1 }
    ensures more { WideResponsesSayMore }
{}
