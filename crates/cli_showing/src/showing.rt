//! What files say, in print.
ghost use Rattle.std.specs.Prelude.{◌≡◌, ◌++◌, [], false, IfErr, IfOk, Ok};
ghost use Rattle.cert.specs.Certificate.{Certificate as CertificateFields, certificate};
ghost use Rattle.cert.specs.SubjectPublicKeyInfo.{seen_key_info};
ghost use Rattle.cli_printing.specs.CertificateText.{certificate_text};
ghost use Rattle.statements_crl.specs.CertificateList.{CertificateList, certificate_list_under};
ghost use Rattle.cli_printing.specs.CrlText.{crl_text};
ghost use Rattle.cli_printing.specs.FingerprintText.{certificate_print_line, crl_print_line, response_print_lines};
ghost use Rattle.statements_facts.specs.declared.profile.Profile.TheVariants.{Stated};
ghost use Rattle.statements_ocsp.specs.OcspResponse.{OcspResponse, ocsp_response};
ghost use Rattle.cli_printing.specs.ResponseText.{response_text};
ghost use Rattle.cli_failures.specs.declared.failure.Failure.TheVariants.{NoMemory};
ghost use Rattle.cli_failures.specs.Failures.{IsJust, IsNoCertificate, IsNoList, IsNoResponse, IsNoValue};
ghost use Rattle.cli_showing.specs.Shown.{ArePrintLines, ArePrintsUnder, IsFailureOfPrints, IsNotShown, IsShownText, IsTreeText, IsWithDetails};

use cert::{Certificate, SubjectPublicKeyInfo};
use cli_details::{certificate_details, list_details, response_details};
use cli_failures::{Extent, Failure, Source, read_certificate, read_list, read_response};
use cli_printing::{
    TreeFault, certificate_print_to, certificate_to, crl_print_to, crl_to, response_prints_to,
    response_to, tree_to,
};
use cli_words::Kind;
use statements_crl::Crl;
use statements_facts::Profile;
use statements_ocsp::Response;
use std::alloc::Global;

/// The DER value in the file, a line for each value in it.
pub fn tree<'a, S: Source>(source: &S, alloc: Global, file: &'a str) -> Result<Vec<u8>, Failure<'a>>
    ensures shows { IfOk result (λ text.
        IsTreeText (S.holds source.now) file.entry.now text.items) }
    ensures fails { IfErr result (IsNoValue (S.holds source.now) file.entry.now) }
{
    let octets = source.octets_of(file, Extent::Value)?;
    let mut text = Vec::new(alloc);
    match tree_to(octets.as_slice(), &mut text) {
        Ok(()) => Ok(text),
        Err(TreeFault::Refused(fault)) => Err(Failure::Refused { file, fault }),
        Err(TreeFault::Io) => Err(Failure::NoMemory),
    }
}

/// What the certificate, the revocation list or the response in the file says, and behind it, if details are asked for, what no verdict
/// needs.
pub fn show<'a, S: Source>(
    source: &S,
    alloc: Global,
    kind: Kind,
    with_details: bool,
    file: &'a str,
) -> Result<Vec<u8>, Failure<'a>>
    ensures shows { IfOk result (λ text.
        IsShownText (S.holds source.now) kind with_details file.entry.now text.items) }
    ensures fails { IfErr result (IsNotShown (S.holds source.now) kind file.entry.now) }
{
    let octets = source.octets_of(file, Extent::Value)?;
    match kind {
        Kind::Certificate => show_certificate(alloc, with_details, file, octets.as_slice()),
        Kind::RevocationList => show_list(
            alloc,
            source.profile(),
            with_details,
            file,
            octets.as_slice(),
        ),
        Kind::Response => show_response(alloc, with_details, file, octets.as_slice()),
    }
}

// The text with these lines behind it.
fn with_lines<'a>(text: Vec<u8>, lines: &[u8]) -> Result<Vec<u8>, Failure<'a>>
    ensures joined { IfOk result (λ joined. joined.items ≡ text.items ++ lines.now) }
    ensures fails { IfErr result (λ failure. failure ≡ NoMemory) }
{
    let mut text = text;
    match text.extend_from_slice(lines) {
        Ok(()) => Ok(text),
        Err(_) => Err(Failure::NoMemory),
    }
}

// The further lines of the certificate; none if they are not asked for.
fn end_of_certificate<'a>(
    alloc: Global,
    with_details: bool,
    certificate: &Certificate<'_>,
) -> Result<Vec<u8>, Failure<'a>>
    ensures none { IfOk result (λ text. (with_details ≡ false) → text.items ≡ []) }
    ensures fails { IfErr result (λ failure. failure ≡ NoMemory) }
{
    if !with_details {
        return Ok(Vec::new(alloc));
    }
    certificate_details(alloc, certificate).map_err(|_| Failure::NoMemory)
}

fn show_certificate<'a>(
    alloc: Global,
    with_details: bool,
    file: &'a str,
    octets: &[u8],
) -> Result<Vec<u8>, Failure<'a>>
    ensures shows { IfOk result (λ text.
        (read : CertificateFields) × (certificate octets.now ≡ Ok read)
        × IsWithDetails with_details (certificate_text read) text.items) }
    ensures fails { IfErr result (IsNoCertificate (IsJust Stated octets.now) file.entry.now) }
{
    let certificate = read_certificate(alloc, file, octets)?;
    let details = end_of_certificate(alloc, with_details, &certificate)?;
    let mut text = Vec::new(alloc);
    match certificate_to(&certificate, &mut text) {
        Ok(()) => with_lines(text, details.as_slice()),
        Err(_) => Err(Failure::NoMemory),
    }
}

// The further lines of the revocation list; none if they are not asked for.
fn end_of_list<'a>(
    alloc: Global,
    with_details: bool,
    list: &Crl<'_>,
) -> Result<Vec<u8>, Failure<'a>>
    ensures none { IfOk result (λ text. (with_details ≡ false) → text.items ≡ []) }
    ensures fails { IfErr result (λ failure. failure ≡ NoMemory) }
{
    if !with_details {
        return Ok(Vec::new(alloc));
    }
    list_details(alloc, list).map_err(|_| Failure::NoMemory)
}

fn show_list<'a>(
    alloc: Global,
    profile: Profile,
    with_details: bool,
    file: &'a str,
    octets: &[u8],
) -> Result<Vec<u8>, Failure<'a>>
    ensures shows { IfOk result (λ text.
        (read : CertificateList) × (certificate_list_under profile octets.now ≡ Ok read)
        × IsWithDetails with_details (crl_text read) text.items) }
    ensures fails { IfErr result (IsNoList (IsJust profile octets.now) file.entry.now) }
{
    let list = read_list(alloc, profile, file, octets)?;
    let details = end_of_list(alloc, with_details, &list)?;
    let mut text = Vec::new(alloc);
    match crl_to(&list, &mut text) {
        Ok(()) => with_lines(text, details.as_slice()),
        Err(_) => Err(Failure::NoMemory),
    }
}

// The further lines of the response; none if they are not asked for.
fn end_of_response<'a>(
    alloc: Global,
    with_details: bool,
    response: &Response<'_>,
) -> Result<Vec<u8>, Failure<'a>>
    ensures none { IfOk result (λ text. (with_details ≡ false) → text.items ≡ []) }
    ensures fails { IfErr result (λ failure. failure ≡ NoMemory) }
{
    if !with_details {
        return Ok(Vec::new(alloc));
    }
    response_details(alloc, response).map_err(|_| Failure::NoMemory)
}

fn show_response<'a>(
    alloc: Global,
    with_details: bool,
    file: &'a str,
    octets: &[u8],
) -> Result<Vec<u8>, Failure<'a>>
    ensures shows { IfOk result (λ text.
        (read : OcspResponse) × (ocsp_response octets.now ≡ Ok read)
        × IsWithDetails with_details (response_text read) text.items) }
    ensures fails { IfErr result (IsNoResponse (IsJust Stated octets.now) file.entry.now) }
{
    let response = read_response(alloc, file, octets)?;
    let details = end_of_response(alloc, with_details, &response)?;
    let mut text = Vec::new(alloc);
    match response_to(&response, &mut text) {
        Ok(()) => with_lines(text, details.as_slice()),
        Err(_) => Err(Failure::NoMemory),
    }
}

/// The lines of what a verifier is asked about the file under the key of its issuer, with the four texts behind each if these are asked
/// for. The issuer's file comes first: the other is looked at only if it holds a certificate.
pub fn prints<'a, S: Source>(
    source: &S,
    alloc: Global,
    issuer: &'a str,
    kind: Kind,
    with_parts: bool,
    file: &'a str,
) -> Result<Vec<u8>, Failure<'a>>
    ensures prints { IfOk result (λ text. ArePrintsUnder (S.holds source.now)
        issuer.entry.now kind with_parts file.entry.now text.items) }
    ensures fails { IfErr result
        (IsFailureOfPrints (S.holds source.now) issuer.entry.now kind file.entry.now) }
{
    let octets = source.octets_of(issuer, Extent::Value)?;
    let signer = read_certificate(alloc, issuer, octets.as_slice())?;
    prints_under(
        source,
        alloc,
        &signer.subject_public_key_info,
        kind,
        with_parts,
        file,
    )
}

// The lines of the file under the key of its issuer.
fn prints_under<'a, S: Source>(
    source: &S,
    alloc: Global,
    key_info: &SubjectPublicKeyInfo<'_>,
    kind: Kind,
    with_parts: bool,
    file: &'a str,
) -> Result<Vec<u8>, Failure<'a>>
    ensures prints { IfOk result (λ text. ArePrintLines (S.holds source.now)
        (seen_key_info key_info.now) kind with_parts file.entry.now text.items) }
    ensures fails { IfErr result (IsNotShown (S.holds source.now) kind file.entry.now) }
{
    let octets = source.octets_of(file, Extent::Value)?;
    match kind {
        Kind::Certificate => {
            prints_of_certificate(alloc, key_info, with_parts, file, octets.as_slice())
        }
        Kind::RevocationList => prints_of_list(
            alloc,
            source.profile(),
            key_info,
            with_parts,
            file,
            octets.as_slice(),
        ),
        Kind::Response => prints_of_response(alloc, key_info, with_parts, file, octets.as_slice()),
    }
}

fn prints_of_certificate<'a>(
    alloc: Global,
    key_info: &SubjectPublicKeyInfo<'_>,
    with_parts: bool,
    file: &'a str,
    octets: &[u8],
) -> Result<Vec<u8>, Failure<'a>>
    ensures prints { IfOk result (λ text.
        (read : CertificateFields) × (certificate octets.now ≡ Ok read)
        × (text.items ≡ certificate_print_line with_parts (seen_key_info key_info.now) read)) }
    ensures fails { IfErr result (IsNoCertificate (IsJust Stated octets.now) file.entry.now) }
{
    let certificate = read_certificate(alloc, file, octets)?;
    let mut text = Vec::new(alloc);
    match certificate_print_to(&certificate, key_info, with_parts, &mut text) {
        Ok(()) => Ok(text),
        Err(_) => Err(Failure::NoMemory),
    }
}

fn prints_of_list<'a>(
    alloc: Global,
    profile: Profile,
    key_info: &SubjectPublicKeyInfo<'_>,
    with_parts: bool,
    file: &'a str,
    octets: &[u8],
) -> Result<Vec<u8>, Failure<'a>>
    ensures prints { IfOk result (λ text.
        (read : CertificateList) × (certificate_list_under profile octets.now ≡ Ok read)
        × (text.items ≡ crl_print_line with_parts (seen_key_info key_info.now) read)) }
    ensures fails { IfErr result (IsNoList (IsJust profile octets.now) file.entry.now) }
{
    let list = read_list(alloc, profile, file, octets)?;
    let mut text = Vec::new(alloc);
    match crl_print_to(&list, key_info, with_parts, &mut text) {
        Ok(()) => Ok(text),
        Err(_) => Err(Failure::NoMemory),
    }
}

fn prints_of_response<'a>(
    alloc: Global,
    key_info: &SubjectPublicKeyInfo<'_>,
    with_parts: bool,
    file: &'a str,
    octets: &[u8],
) -> Result<Vec<u8>, Failure<'a>>
    ensures prints { IfOk result (λ text.
        (read : OcspResponse) × (ocsp_response octets.now ≡ Ok read)
        × (text.items ≡ response_print_lines with_parts (seen_key_info key_info.now) read)) }
    ensures fails { IfErr result (IsNoResponse (IsJust Stated octets.now) file.entry.now) }
{
    let response = read_response(alloc, file, octets)?;
    let mut text = Vec::new(alloc);
    match response_prints_to(alloc, &response, key_info, with_parts, &mut text) {
        Ok(()) => Ok(text),
        Err(_) => Err(Failure::NoMemory),
    }
}
