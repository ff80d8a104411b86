//! What a verifier is asked, a line each: fingerprints, as a file of verdicts has them, and the texts themselves for whoever judges.
ghost use Rattle.std.specs.Prelude.{◌≡◌};
ghost use Rattle.cert.specs.Certificate.{seen_certificate};
ghost use Rattle.cert.specs.SubjectPublicKeyInfo.{seen_key_info};
ghost use Rattle.statements_crl.specs.CertificateList.{seen_list};
ghost use Rattle.statements_ocsp.specs.OcspResponse.{seen_response};
ghost use Rattle.statements_ocsp.specs.Certificates.{certificates_left};
ghost use Rattle.cli_printing.specs.FingerprintText.{both_lines, certificate_print_line, certificate_question, crl_print_line, crl_question, delegate_lines, line_end, part_text, parts_text, judgement_print, question_line, response_print_lines, response_question, seen_judgement, signed_words};
ghost use Rattle.cli_printing.specs.Written.{Writes};

use crate::text::write_hex;
use cert::{Certificate, SubjectPublicKeyInfo};
use path_verifiers::fingerprint;
use statements_crl::Crl;
use statements_ocsp::Response;
use std::alloc::{AllocError, Global};
use std::io;
use std::io::Write;
use thiserror::Error;

/// Why the fingerprints of a response were not written; some of the lines may have been.
#[derive(Clone, Copy, Debug, PartialEq, Eq, Error)]
pub enum PrintsFault {
    /// The writer answered an error.
    #[error("cannot write")]
    Io,
    /// There is no memory for a certificate that comes with the response.
    #[error("no memory")]
    Memory,
}

impl From<io::Error> for PrintsFault {
    fn from(_: io::Error) -> PrintsFault {
        PrintsFault::Io
    }
}

impl From<AllocError> for PrintsFault {
    fn from(_: AllocError) -> PrintsFault {
        PrintsFault::Memory
    }
}

// What a verifier is asked: whether this is the signature of the message, under the key, by the algorithm.
#[derive(Clone, Copy)]
struct SignatureQuestion<'m, 'k> {
    algorithm: &'m [u8],
    key_info: &'k [u8],
    message: &'m [u8],
    signature: &'m [u8],
}

// Its fingerprint.
fn print_of(question: &SignatureQuestion<'_, '_>) -> [u8; 32]
    ensures { result ≡ judgement_print (seen_judgement question.now) }
{
    fingerprint(
        question.algorithm,
        question.key_info,
        question.message,
        question.signature,
    )
}

// ` NAME=HEX`
fn write_part<W: Write>(name: &str, octets: &[u8], writer: &mut W) -> io::Result<()>
    ensures { Writes W.contents writer.old writer.new result (part_text name.now octets.now) }
{
    write!(writer, " {name}=")?;
    write_hex(octets, writer)
}

fn write_parts<W: Write>(question: &SignatureQuestion<'_, '_>, writer: &mut W) -> io::Result<()>
    ensures { Writes W.contents writer.old writer.new result
        (parts_text (seen_judgement question.now)) }
{
    write_part("algorithm", question.algorithm, writer)?;
    write_part("key", question.key_info, writer)?;
    write_part("message", question.message, writer)?;
    write_part("signature", question.signature, writer)
}

// What stands behind the words of a line, and its end.
fn end_line<W: Write>(
    with_parts: bool,
    question: &SignatureQuestion<'_, '_>,
    writer: &mut W,
) -> io::Result<()>
    ensures { Writes W.contents writer.old writer.new result
        (line_end with_parts (seen_judgement question.now)) }
{
    if with_parts {
        write_parts(question, writer)?;
    }
    writer.write_all(b"\n")
}

// What is signed, and whose key judges it. Certificates that come with a response are counted from 1.
#[derive(Clone, Copy)]
enum Signed {
    Certificate,
    List,
    Response,
    // The certificate that comes with a response, by the issuer.
    Delegate(usize),
    // The response, by that certificate.
    ByDelegate(usize),
}

#[tactic(auto, unfolding(crate::specs::FingerprintText::signed_words))]
fn write_signed<W: Write>(signed: Signed, writer: &mut W) -> io::Result<()>
    ensures { Writes W.contents writer.old writer.new result (signed_words signed) }
{
    match signed {
        Signed::Certificate => writer.write_all(b" certificate issuer"),
        Signed::List => writer.write_all(b" crl issuer"),
        Signed::Response => writer.write_all(b" response issuer"),
        Signed::Delegate(number) => write!(writer, " certificate {number} issuer"),
        Signed::ByDelegate(number) => write!(writer, " response certificate {number}"),
    }
}

// The line of a question.
fn write_question<W: Write>(
    with_parts: bool,
    question: &SignatureQuestion<'_, '_>,
    signed: Signed,
    writer: &mut W,
) -> io::Result<()>
    ensures { Writes W.contents writer.old writer.new result
        (question_line with_parts (seen_judgement question.now) signed) }
{
    write_hex(&print_of(question), writer)?;
    write_signed(signed, writer)?;
    end_line(with_parts, question, writer)
}

// What a verifier is asked of the certificate's signature, under the key of its issuer.
fn question_about<'m, 'k>(
    certificate: &Certificate<'m>,
    key_info: &SubjectPublicKeyInfo<'k>,
) -> SignatureQuestion<'m, 'k>
    ensures { seen_judgement result ≡ certificate_question (seen_key_info key_info.now)
        (seen_certificate certificate.now) }
{
    SignatureQuestion {
        algorithm: certificate.algorithm.value.whole,
        key_info: key_info.value.whole,
        message: certificate.tbs.whole,
        signature: certificate.signature.octets(),
    }
}

/// Writes the line of what a verifier is asked of the certificate, under the key of its issuer: the fingerprint and what it is of, and,
/// with parts, the four texts in hexadecimal, so that whoever judges needs no reader of DER. It takes no memory.
pub fn certificate_print_to<W: Write>(
    certificate: &Certificate<'_>,
    key_info: &SubjectPublicKeyInfo<'_>,
    with_parts: bool,
    writer: &mut W,
) -> io::Result<()>
    ensures { Writes W.contents writer.old writer.new result (certificate_print_line with_parts
        (seen_key_info key_info.now) (seen_certificate certificate.now)) }
{
    let question = question_about(certificate, key_info);
    write_question(with_parts, &question, Signed::Certificate, writer)
}

// What a verifier is asked of the list's signature, under the key of its issuer.
fn question_about_list<'m, 'k>(
    list: &Crl<'m>,
    key_info: &SubjectPublicKeyInfo<'k>,
) -> SignatureQuestion<'m, 'k>
    ensures { seen_judgement result
        ≡ crl_question (seen_key_info key_info.now) (seen_list list.now) }
{
    SignatureQuestion {
        algorithm: list.algorithm.value.whole,
        key_info: key_info.value.whole,
        message: list.tbs.whole,
        signature: list.signature.octets(),
    }
}

/// Writes the line of what a verifier is asked of the revocation list, under the key of its issuer, with parts or without. It takes no
/// memory.
pub fn crl_print_to<W: Write>(
    list: &Crl<'_>,
    key_info: &SubjectPublicKeyInfo<'_>,
    with_parts: bool,
    writer: &mut W,
) -> io::Result<()>
    ensures { Writes W.contents writer.old writer.new result
        (crl_print_line with_parts (seen_key_info key_info.now) (seen_list list.now)) }
{
    let question = question_about_list(list, key_info);
    write_question(with_parts, &question, Signed::List, writer)
}

// What a verifier is asked of the response's signature, under a key that may have signed it.
fn question_about_response<'m, 'k>(
    response: &Response<'m>,
    key_info: &SubjectPublicKeyInfo<'k>,
) -> SignatureQuestion<'m, 'k>
    ensures { seen_judgement result
        ≡ response_question (seen_key_info key_info.now) (seen_response response.now) }
{
    SignatureQuestion {
        algorithm: response.algorithm.value.whole,
        key_info: key_info.value.whole,
        message: response.tbs.whole,
        signature: response.signature.octets(),
    }
}

// Both lines of the certificate that comes with the response under this number.
fn write_delegate<W: Write>(
    response: &Response<'_>,
    certificate: &Certificate<'_>,
    key_info: &SubjectPublicKeyInfo<'_>,
    with_parts: bool,
    number: usize,
    writer: &mut W,
) -> io::Result<()>
    ensures { Writes W.contents writer.old writer.new result
        (both_lines with_parts (seen_key_info key_info.now) (seen_response response.now) number
        (seen_certificate certificate.now)) }
{
    let issued = question_about(certificate, key_info);
    write_question(with_parts, &issued, Signed::Delegate(number), writer)?;
    let key_info = &certificate.subject_public_key_info;
    let signed = question_about_response(response, key_info);
    write_question(with_parts, &signed, Signed::ByDelegate(number), writer)
}

fn write_delegates<W: Write>(
    alloc: Global,
    response: &Response<'_>,
    key_info: &SubjectPublicKeyInfo<'_>,
    with_parts: bool,
    writer: &mut W,
) -> Result<(), PrintsFault>
    ensures { Writes W.contents writer.old writer.new result
        (delegate_lines with_parts (seen_key_info key_info.now) (seen_response response.now) 1
        (certificates_left response.now.certs)) }
{
    let mut certs = response.certs;
    let mut number = 0;
    while let Some(certificate) = certs.next_certificate(alloc)? {
        number += 1;
        write_delegate(response, &certificate, key_info, with_parts, number, writer)?;
    }
    Ok(())
}

/// Writes the lines of what a verifier is asked of the response, with parts or without: under the key of the issuer, and, for each
/// certificate that comes with it, that certificate's under the key of the issuer and the response's under that certificate's key.
/// Certificates are counted from 1; what else comes with the response is passed over. Memory is taken for one certificate at a time.
pub fn response_prints_to<W: Write>(
    alloc: Global,
    response: &Response<'_>,
    key_info: &SubjectPublicKeyInfo<'_>,
    with_parts: bool,
    writer: &mut W,
) -> Result<(), PrintsFault>
    ensures { Writes W.contents writer.old writer.new result
        (response_print_lines with_parts (seen_key_info key_info.now)
        (seen_response response.now)) }
{
    let question = question_about_response(response, key_info);
    write_question(with_parts, &question, Signed::Response, writer)?;
    write_delegates(alloc, response, key_info, with_parts, writer)
}
