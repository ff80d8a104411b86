//! The signer of a response among the issuer and its delegates (RFC 6960, 4.2.2.2).

ghost use Rattle.std.specs.Prelude.{◌≡◌, ◌≢◌, [], Ok, option_map};
ghost use Rattle.cert.specs.Certificate.{seen_certificate};
ghost use Rattle.statements_ocsp.specs.OcspResponse.{certs_left, seen_response};
ghost use Rattle.statements.specs.Genuine.{AnswersUnlessFull, OnFull};
ghost use Rattle.statements.specs.OcspFact.{signer_or_fault};
ghost use Rattle.statements.specs.Responder.{delegate_of, signer_of};
ghost use Rattle.statements.specs.SignerView.{seen_signer};
ghost use Rattle.statements.specs.Seen.{DoesNotSign};

use crate::responder::{is_by_delegate, is_by_issuer};
use cert::Certificate;
use path_verifiers::Verifier;
use statements_ocsp::Response;
use statements_parts::StatementFault;
use std::alloc::Global;

/// Who signed a response.
#[derive(Drop)]
pub(crate) enum Signer<'a> {
    Issuer,
    Delegate(Certificate<'a>),
}

/// The first of the certificates that come with the response that is that of a delegate.
#[tactic(auto, unfolding(crate::specs::Responder::delegate_of))]
fn first_delegate<'a, V: Verifier>(
    alloc: Global,
    verifier: &V,
    issuer: &Certificate<'_>,
    response: &Response<'a>,
) -> Result<Option<Certificate<'a>>, StatementFault>
    ensures first { AnswersUnlessFull (option_map seen_certificate) result
        (Ok (delegate_of (V.accepts verifier.now) (seen_certificate issuer.now)
        (seen_response response.now))) }
    ensures memory { OnFull result (certs_left response.now.certs ≢ []) }
{
    let mut certs = response.certs;
    while let Some(certificate) = certs.next_certificate(alloc)? {
        if is_by_delegate(verifier, issuer, response, &certificate) {
            return Ok(Some(certificate));
        }
    }
    Ok(None)
}

impl<'a> Signer<'a> {
    /// Who signed the response. Memory is taken only if the issuer did not sign it itself, to read the certificates that it brings.
    pub(crate) fn find<V: Verifier>(
        alloc: Global,
        verifier: &V,
        issuer: &Certificate<'_>,
        response: &Response<'a>,
    ) -> Result<Signer<'a>, StatementFault>
        ensures found { AnswersUnlessFull seen_signer result
            (signer_or_fault (signer_of (V.accepts verifier.now) (seen_certificate issuer.now)
            (seen_response response.now))) }
        ensures own { OnFull result (DoesNotSign (V.accepts verifier.now) issuer.now response.now) }
        ensures brought { OnFull result (certs_left response.now.certs ≢ []) }
    {
        if is_by_issuer(verifier, issuer, response) {
            return Ok(Signer::Issuer);
        }
        match first_delegate(alloc, verifier, issuer, response)? {
            Some(certificate) => Ok(Signer::Delegate(certificate)),
            None => Err(StatementFault::NoSigner),
        }
    }
}
