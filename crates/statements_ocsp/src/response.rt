//! Responses (RFC 6960, 4.2.1).

ghost use Rattle.std.specs.Prelude.{◌≡◌};
ghost use Rattle.asn.specs.Reading.{seen_tlv, left, Gives};
ghost use Rattle.asn.specs.Outermost.{nested};
ghost use Rattle.statements_parts.specs.Fault.{StatementGivesUnlessFull, as_statement_der};
ghost use Rattle.statements_parts.specs.Steps.{StepGivesUnlessFull};
ghost use Rattle.statements_ocsp.specs.OcspResponse.{basic_response, basic_type, explicit_bytes, next_contained, ocsp_response, ocsp_response_at, response_bytes, response_data, seen_data, seen_response, seen_signed, signature_part, successful};

use crate::certs::Certs;
use crate::generalized_time::take_time;
use crate::responder::ResponderId;
use crate::response_extensions::skip_extensions;
use crate::single_list::{SingleResponses, take_singles};
use asn::{Cursor, ENUMERATED, OBJECT_IDENTIFIER, OCTET_STRING, SEQUENCE, Tlv};
use cert::{AlgorithmIdentifier, BitString};
use statements_parts::{
    ReadingFault, StatementRefusal, StatementRule, outermost, take_algorithm, take_signature,
};
use std::alloc::Global;

/// A successful response of the type id-pkix-ocsp-basic that was read. Its parts borrow the octets.
#[derive(Clone, Copy)]
pub struct Response<'a> {
    /// tbsResponseData: the signed part.
    pub tbs: Tlv<'a>,
    /// The algorithm of the signature.
    pub algorithm: AlgorithmIdentifier<'a>,
    /// The signature, in which no bit is unused.
    pub signature: BitString<'a>,
    pub responder: ResponderId<'a>,
    /// In seconds from 1970-01-01T00:00:00Z.
    pub produced_at: i64,
    /// The single responses, in order: at most 256.
    pub responses: SingleResponses<'a>,
    /// The values in certs, in order; none if it is not there.
    pub certs: Certs<'a>,
}

/// The signed part, read.
#[derive(Clone, Copy)]
pub(crate) struct ResponseData<'a> {
    responder: ResponderId<'a>,
    produced_at: i64,
    responses: SingleResponses<'a>,
}

impl<'a> ResponseData<'a> {
    /// ResponseData ::= SEQUENCE { version [0] EXPLICIT Version DEFAULT v1, responderID ResponderID, producedAt GeneralizedTime,
    /// responses SEQUENCE OF SingleResponse, responseExtensions [1] EXPLICIT Extensions OPTIONAL }, where DER leaves v1 out
    #[tactic(auto, unfolding(crate::specs::OcspResponse::response_data))]
    fn read(alloc: Global, value: Tlv<'a>) -> Result<ResponseData<'a>, ReadingFault>
        ensures { StatementGivesUnlessFull seen_data result (response_data (seen_tlv value.entry)) }
    {
        value.is_a(SEQUENCE, StatementRule::Layout)?;
        let mut members = value.members();
        let responder = ResponderId::take(&mut members)?;
        let produced_at = take_time(&mut members)?;
        let responses = take_singles(alloc, &mut members)?;
        skip_extensions(alloc, &mut members)?;
        members.ended(StatementRule::Layout)?;
        Ok(ResponseData {
            responder,
            produced_at,
            responses,
        })
    }
}

/// What stands behind the signed part.
#[derive(Clone, Copy)]
pub(crate) struct Signed<'a> {
    algorithm: AlgorithmIdentifier<'a>,
    signature: BitString<'a>,
    certs: Certs<'a>,
}

impl<'a> Signed<'a> {
    /// signatureAlgorithm, signature, certs [0], and nothing more
    #[tactic(auto, unfolding(crate::specs::OcspResponse::signature_part))]
    fn read(members: Cursor<'a>) -> Result<Signed<'a>, StatementRefusal>
        ensures { Gives seen_signed result (signature_part (left members.entry)) }
    {
        let mut members = members;
        let algorithm = take_algorithm(&mut members)?;
        let signature = take_signature(&mut members)?;
        let certs = Certs::take(&mut members)?;
        members.ended(StatementRule::Layout)?;
        Ok(Signed {
            algorithm,
            signature,
            certs,
        })
    }
}

/// BasicOCSPResponse ::= SEQUENCE { tbsResponseData ResponseData, signatureAlgorithm AlgorithmIdentifier, signature BIT STRING, certs
/// [0] EXPLICIT SEQUENCE OF Certificate OPTIONAL }
#[tactic(auto, unfolding(crate::specs::OcspResponse::basic_response))]
fn read_basic<'a>(alloc: Global, value: Tlv<'a>) -> Result<Response<'a>, ReadingFault>
    ensures { StatementGivesUnlessFull seen_response result
        (basic_response (seen_tlv value.entry)) }
{
    value.is_a(SEQUENCE, StatementRule::Layout)?;
    let mut members = value.members();
    let tbs = members.next_or(StatementRule::Layout)?;
    let data = ResponseData::read(alloc, tbs)?;
    let signed = Signed::read(members)?;
    Ok(Response {
        tbs,
        algorithm: signed.algorithm,
        signature: signed.signature,
        responder: data.responder,
        produced_at: data.produced_at,
        responses: data.responses,
        certs: signed.certs,
    })
}

/// The value that the OCTET STRING holds.
fn contained_value(octet_string: Tlv<'_>) -> Result<Tlv<'_>, StatementRefusal>
    ensures { Gives seen_tlv result (as_statement_der (nested (seen_tlv octet_string.entry))) }
{
    match octet_string.nested() {
        Ok(value) => Ok(value),
        Err((rule, at)) => Err((StatementRule::Der(rule), at)),
    }
}

/// response OCTET STRING, which holds a BasicOCSPResponse
#[tactic(auto, unfolding(crate::specs::OcspResponse::contained_response, statements_parts::specs::Parts::statement_component))]
fn take_contained<'a>(alloc: Global, members: &mut Cursor<'a>) -> Result<Response<'a>, ReadingFault>
    ensures { StepGivesUnlessFull seen_response result members.old members.new next_contained }
{
    let octet_string = members.required(OCTET_STRING, StatementRule::Layout)?;
    read_basic(alloc, contained_value(octet_string)?)
}

/// id-pkix-ocsp-basic: 1.3.6.1.5.5.7.48.1.1
const ID_BASIC: &[u8] = &[0x2B, 0x06, 0x01, 0x05, 0x05, 0x07, 0x30, 0x01, 0x01];

/// Takes responseType, which has to be id-pkix-ocsp-basic.
#[tactic(auto, unfolding(crate::specs::OcspResponse::basic_type, asn::specs::Walk::check_that))]
fn take_type(members: &mut Cursor<'_>) -> Result<(), StatementRefusal>
    ensures { Gives (λ _. left members.new) result (basic_type (left members.old)) }
{
    let kind = members.required(OBJECT_IDENTIFIER, StatementRule::Layout)?;
    if kind.body == ID_BASIC {
        Ok(())
    } else {
        Err((StatementRule::ResponseType, kind.at))
    }
}

/// ResponseBytes ::= SEQUENCE { responseType OBJECT IDENTIFIER, response OCTET STRING }
#[tactic(auto, unfolding(crate::specs::OcspResponse::response_bytes))]
fn read_bytes<'a>(alloc: Global, value: Tlv<'a>) -> Result<Response<'a>, ReadingFault>
    ensures { StatementGivesUnlessFull seen_response result
        (response_bytes (seen_tlv value.entry)) }
{
    value.is_a(SEQUENCE, StatementRule::Layout)?;
    let mut members = value.members();
    take_type(&mut members)?;
    let response = take_contained(alloc, &mut members)?;
    members.ended(StatementRule::Layout)?;
    Ok(response)
}

/// [0] EXPLICIT ResponseBytes
#[tactic(auto, unfolding(crate::specs::OcspResponse::explicit_bytes, statements_parts::specs::Parts::next_in_statement))]
fn read_explicit<'a>(alloc: Global, value: Tlv<'a>) -> Result<Response<'a>, ReadingFault>
    ensures { StatementGivesUnlessFull seen_response result
        (explicit_bytes (seen_tlv value.entry)) }
{
    value.is_a(0xA0, StatementRule::Layout)?;
    let mut members = value.members();
    let bytes = members.next_or(StatementRule::Layout)?;
    let response = read_bytes(alloc, bytes)?;
    members.ended(StatementRule::Layout)?;
    Ok(response)
}

/// OCSPResponseStatus ::= ENUMERATED, which has to be successful(0)
#[tactic(auto, unfolding(crate::specs::OcspResponse::successful, asn::specs::Walk::check_that))]
fn check_status(value: Tlv<'_>) -> Result<(), StatementRefusal>
    ensures { Gives (λ _. tt) result (successful (seen_tlv value.entry)) }
{
    match value.body {
        [0] => Ok(()),
        [code] => Err((StatementRule::NotSuccessful(*code), value.at)),
        _ => Err((StatementRule::Layout, value.at)),
    }
}

impl<'a> Response<'a> {
    /// Reads a response from DER (RFC 6960, 4.2.1), or answers the first fault: the rule that is broken, and the offset of the value that
    /// breaks it. Fields are parts of the octets. Time is linear in the octets; a list of more than 16 extensions takes memory for their
    /// types, and n log n time.
    #[tactic(auto, unfolding(crate::specs::OcspResponse::ocsp_response))]
    pub fn read(alloc: Global, octets: &'a [u8]) -> Result<Response<'a>, ReadingFault>
        ensures { StatementGivesUnlessFull seen_response result (ocsp_response octets.now) }
    {
        let value = outermost(octets)?;
        Response::at(alloc, value)
    }

    /// OCSPResponse ::= SEQUENCE { responseStatus OCSPResponseStatus, responseBytes [0] EXPLICIT ResponseBytes OPTIONAL }, where a
    /// successful response has responseBytes
    ///
    /// As `read`, of a value in the text handed to `asn::whole`, with offsets in that text.
    #[tactic(auto, unfolding(crate::specs::OcspResponse::ocsp_response_at, statements_parts::specs::Parts::statement_component, statements_parts::specs::Parts::next_in_statement))]
    pub fn at(alloc: Global, value: Tlv<'a>) -> Result<Response<'a>, ReadingFault>
        ensures { StatementGivesUnlessFull seen_response result
            (ocsp_response_at (seen_tlv value.entry)) }
    {
        value.is_a(SEQUENCE, StatementRule::Layout)?;
        let mut members = value.members();
        let status = members.required(ENUMERATED, StatementRule::Layout)?;
        check_status(status)?;
        let explicit = members.next_or(StatementRule::Layout)?;
        let response = read_explicit(alloc, explicit)?;
        members.ended(StatementRule::Layout)?;
        Ok(response)
    }
}
