//! What a verifier may be asked about a list or a response under an issuer.

ghost use Rattle.std.specs.Prelude.{IfOk};
ghost use Rattle.std.specs.List.{flat_map};
ghost use Rattle.asn.specs.Reading.{seen_tlv};
ghost use Rattle.cert.specs.Offsets.{StandsIn};
ghost use Rattle.statements.specs.Statement.{seen_statement};
ghost use Rattle.statements_crl.specs.CertificateList.{seen_list};
ghost use Rattle.statements_ocsp.specs.OcspResponse.{certs_left, seen_response};
ghost use Rattle.relying_questions.specs.Places.{IsPlaced, KeepsInTexts, ListStands, ResponseStands, StatementStands};
ghost use Rattle.relying_questions.specs.Seen.{Adds, asked_of_delegate_seen, asked_of_issuer_seen, asked_of_list_seen, asked_of_response_seen, asked_of_value_seen, asked_under_seen};

use crate::part::WhichText;
use crate::placed::Placed;
use crate::question::SignatureQuestion;
use crate::signatures::{of_answers, of_certificate, of_revocations};
use asn::Tlv;
use cert::{CertFault, Certificate};
use statements::{Statement, is_named_by, may_sign_responses};
use statements_crl::Crl;
use statements_ocsp::Response;
use std::alloc::{AllocError, Global};

/// Adds the question about a list, if it names the issuer.
fn ask_list<'a>(
    asked: &mut Vec<SignatureQuestion<'a>>,
    issuer: &Placed<'_, 'a>,
    source: WhichText,
    list: &Crl<'a>,
) -> Result<(), AllocError>
    ensures asked { IfOk result (λ _. Adds asked.old.items asked.new.items
        (asked_of_list_seen issuer.now list.now)) }
    ensures places { IfOk result (λ _. KeepsInTexts (λ texts. IsPlaced texts issuer.now
        × ListStands (texts source) (seen_list list.now)) asked.old.items asked.new.items) }
{
    if list.issuer.matches(&issuer.certificate.subject) {
        asked.push(of_revocations(issuer, source, list))?;
    }
    Ok(())
}

/// Adds the question whether the issuer signed the response itself, if the responder id names it.
fn ask_issuer<'a>(
    asked: &mut Vec<SignatureQuestion<'a>>,
    issuer: &Placed<'_, 'a>,
    source: WhichText,
    response: &Response<'a>,
) -> Result<(), AllocError>
    ensures asked { IfOk result (λ _. Adds asked.old.items asked.new.items
        (asked_of_issuer_seen issuer.now response.now)) }
    ensures places { IfOk result (λ _. KeepsInTexts (λ texts. IsPlaced texts issuer.now
        × ResponseStands (texts source) (seen_response response.now))
        asked.old.items asked.new.items) }
{
    if is_named_by(&response.responder, issuer.certificate) {
        asked.push(of_answers(issuer, source, response))?;
    }
    Ok(())
}

/// Adds the questions about a certificate that comes with the response, if it may be that of a delegate of the issuer: whether the
/// issuer issued it, and whether it signed the response.
fn ask_delegate<'a>(
    asked: &mut Vec<SignatureQuestion<'a>>,
    issuer: &Placed<'_, 'a>,
    source: WhichText,
    response: &Response<'a>,
    delegate: &Placed<'_, 'a>,
) -> Result<(), AllocError>
    ensures asked { IfOk result (λ _. Adds asked.old.items asked.new.items
        (asked_of_delegate_seen issuer.now response.now delegate.now)) }
    ensures places { IfOk result (λ _. KeepsInTexts (λ texts. IsPlaced texts issuer.now
        × ResponseStands (texts source) (seen_response response.now)
        × IsPlaced texts delegate.now) asked.old.items asked.new.items) }
{
    let certificate = delegate.certificate;
    if is_named_by(&response.responder, certificate)
        && certificate.issuer.matches(&issuer.certificate.subject)
    {
        asked.push(of_certificate(issuer, delegate))?;
        if may_sign_responses(certificate) {
            asked.push(of_answers(delegate, source, response))?;
        }
    }
    Ok(())
}

/// Adds the questions about a value that comes with the response, if it is a certificate.
fn ask_value<'a>(
    alloc: Global,
    asked: &mut Vec<SignatureQuestion<'a>>,
    issuer: &Placed<'_, 'a>,
    source: WhichText,
    response: &Response<'a>,
    value: Tlv<'a>,
) -> Result<(), AllocError>
    ensures asked { IfOk result (λ _. Adds asked.old.items asked.new.items
        (asked_of_value_seen issuer.now response.now (seen_tlv value.entry))) }
    ensures places { IfOk result (λ _. KeepsInTexts (λ texts. IsPlaced texts issuer.now
        × ResponseStands (texts source) (seen_response response.now)
        × StandsIn (texts source) (seen_tlv value.entry)) asked.old.items asked.new.items) }
{
    match Certificate::at(alloc, value) {
        Ok(certificate) => {
            let delegate = Placed {
                certificate: &certificate,
                source,
            };
            ask_delegate(asked, issuer, source, response, &delegate)
        }
        Err(CertFault::Refused(_, _)) => Ok(()),
        Err(CertFault::Memory) => Err(AllocError),
    }
}

/// Adds the questions about the values that come with a response.
fn ask_values<'a>(
    alloc: Global,
    asked: &mut Vec<SignatureQuestion<'a>>,
    issuer: &Placed<'_, 'a>,
    source: WhichText,
    response: &Response<'a>,
) -> Result<(), AllocError>
    ensures asked { IfOk result (λ _. Adds asked.old.items asked.new.items
        (flat_map (asked_of_value_seen issuer.now response.now) (certs_left response.now.certs))) }
    ensures places { IfOk result (λ _. KeepsInTexts (λ texts. IsPlaced texts issuer.now
        × ResponseStands (texts source) (seen_response response.now))
        asked.old.items asked.new.items) }
{
    let mut certs = response.certs;
    while let Some(value) = certs.next() {
        ask_value(alloc, asked, issuer, source, response, value)?;
    }
    Ok(())
}

/// Adds the questions about a response. The certificates that come with it are read.
fn ask_response<'a>(
    alloc: Global,
    asked: &mut Vec<SignatureQuestion<'a>>,
    issuer: &Placed<'_, 'a>,
    source: WhichText,
    response: &Response<'a>,
) -> Result<(), AllocError>
    ensures asked { IfOk result (λ _. Adds asked.old.items asked.new.items
        (asked_of_response_seen issuer.now response.now)) }
    ensures places { IfOk result (λ _. KeepsInTexts (λ texts. IsPlaced texts issuer.now
        × ResponseStands (texts source) (seen_response response.now))
        asked.old.items asked.new.items) }
{
    ask_issuer(asked, issuer, source, response)?;
    ask_values(alloc, asked, issuer, source, response)
}

/// Adds the questions about a statement under an issuer.
pub(crate) fn ask_statement<'a>(
    alloc: Global,
    asked: &mut Vec<SignatureQuestion<'a>>,
    issuer: &Placed<'_, 'a>,
    source: WhichText,
    statement: &Statement<'a>,
) -> Result<(), AllocError>
    ensures asked { IfOk result (λ _. Adds asked.old.items asked.new.items
        (asked_under_seen issuer.now statement.now)) }
    ensures places { IfOk result (λ _. KeepsInTexts (λ texts. IsPlaced texts issuer.now
        × StatementStands (texts source) (seen_statement statement.now))
        asked.old.items asked.new.items) }
{
    match statement {
        Statement::List(list) => ask_list(asked, issuer, source, list),
        Statement::Response(_, response) => ask_response(alloc, asked, issuer, source, response),
    }
}
