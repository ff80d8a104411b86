//! Responses of an issuer or its delegates (RFC 6960, 3.2).

ghost use Rattle.std.specs.Prelude.{◌≡◌, IfOk, map};
ghost use Rattle.cert.specs.Certificate.{seen_certificate};
ghost use Rattle.statements_ocsp.specs.OcspResponse.{seen_response};
ghost use Rattle.statements.specs.Genuine.{AnswersUnlessFull, OnFull};
ghost use Rattle.statements_facts.specs.Single.{seen_single, some_singles};
ghost use Rattle.statements.specs.OcspFact.{or_nothing, response_said};
ghost use Rattle.statements.specs.Seen.{IsSubjectOf, MayBeSigned};

use crate::issuing::issuer_of;
use crate::signer::Signer;
use crate::singles::singles_said;
use cert::Certificate;
use path_verifiers::Verifier;
use statements_facts::{OcspFacts, Profile, Single, Singles};
use statements_ocsp::Response;
use statements_parts::StatementFault;
use std::alloc::Global;

/// These, or the fault if there is none.
fn some_of(singles: Vec<Single<'_>>) -> Result<Singles<'_>, StatementFault>
    ensures { result ≡ or_nothing (some_singles (map seen_single singles.entry.items)) }
{
    match Singles::from_list(singles) {
        Some(singles) => Ok(singles),
        None => Err(StatementFault::NothingForIssuer),
    }
}

/// The single responses about the issuer's certificates in a response (RFC 6960, 3.2): by SHA-1, and in the wide profile by SHA-256 too,
/// with the name as the issuer's certificate spells it. The first fault is reported: nobody signed it who
/// may answer for the issuer (`NoSigner`), it says nothing of the issuer's certificates (`NothingForIssuer`). Each certificate that comes
/// with the response is read once, and the verifier is asked about it only if the responder id names it and the issuer's name is its
/// issuer's. Memory is taken for the single responses, at most 256, and to read the certificates of a response that the issuer did not
/// sign.
#[tactic(auto, using(crate::proofs::Answering::signer_refused, crate::proofs::Answering::singles_are, crate::proofs::Answering::same_answer))]
pub fn response_singles<'a, V: Verifier>(
    alloc: Global,
    profile: Profile,
    verifier: &V,
    issuer: &Certificate<'_>,
    response: &Response<'a>,
) -> Result<Singles<'a>, StatementFault>
    ensures said { AnswersUnlessFull (λ singles. singles) result
        (response_said profile (V.accepts verifier.now) (seen_certificate issuer.now)
        (seen_response response.now)) }
    ensures memory { OnFull result (MayBeSigned (V.accepts verifier.now) issuer.now response.now) }
{
    let signer = Signer::find(alloc, verifier, issuer, response)?;
    let singles = singles_said(alloc, profile, issuer, response, &signer)?;
    some_of(singles)
}

/// What a response of the issuer or of one of its delegates says of the issuer's certificates, as `response_singles`.
pub(crate) fn response_facts<'a, V: Verifier>(
    alloc: Global,
    profile: Profile,
    verifier: &V,
    issuer: &Certificate<'a>,
    response: &Response<'a>,
) -> Result<OcspFacts<'a>, StatementFault>
    ensures said { AnswersUnlessFull (λ facts. facts.singles) result
        (response_said profile (V.accepts verifier.now) (seen_certificate issuer.now)
        (seen_response response.now)) }
    ensures issuer { IfOk result (λ facts. IsSubjectOf issuer.now facts.issuer) }
    ensures memory { OnFull result (MayBeSigned (V.accepts verifier.now) issuer.now response.now) }
{
    let singles = response_singles(alloc, profile, verifier, issuer, response)?;
    Ok(OcspFacts {
        issuer: issuer_of(alloc, issuer)?,
        singles,
    })
}
