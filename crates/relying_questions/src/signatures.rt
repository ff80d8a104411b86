//! The signatures that certificates, lists and responses carry, each under the key of a certificate.

ghost use Rattle.std.specs.Prelude.{◌≡◌};
ghost use Rattle.statements_crl.specs.CertificateList.{seen_list};
ghost use Rattle.statements_ocsp.specs.OcspResponse.{seen_response};
ghost use Rattle.relying_questions.specs.Questions.{of_certificate, of_revocations, of_answers};
ghost use Rattle.relying_questions.specs.Places.{AreInTexts, IsPlaced, ListStands, ResponseStands, Stands, Texts, placed_certificate};
ghost use Rattle.relying_questions.specs.Seen.{seen_question};

use crate::part::{TextPart, WhichText};
use crate::placed::Placed;
use crate::question::SignatureQuestion;
use statements_crl::Crl;
use statements_ocsp::Response;

/// The key of a certificate.
fn key_of<'a>(signer: &Placed<'_, 'a>) -> TextPart<'a>
    ensures octets { result.octets.now ≡ (placed_certificate signer.now).key_info.value.octets }
    ensures places { (texts : Texts) → IsPlaced texts signer.now → Stands texts result }
{
    TextPart::whole(
        signer.source,
        signer.certificate.subject_public_key_info.value,
    )
}

/// Whether the certificate is signed under the issuer's key.
pub(crate) fn of_certificate<'a>(
    issuer: &Placed<'_, 'a>,
    placed: &Placed<'_, 'a>,
) -> SignatureQuestion<'a>
    ensures question { seen_question result
        ≡ of_certificate (placed_certificate issuer.now) (placed_certificate placed.now) }
    ensures places { (texts : Texts) → IsPlaced texts issuer.now
        → IsPlaced texts placed.now → AreInTexts texts result }
{
    let (source, certificate) = (placed.source, placed.certificate);
    SignatureQuestion {
        algorithm: TextPart::whole(source, certificate.algorithm.value),
        key_info: key_of(issuer),
        message: TextPart::whole(source, certificate.tbs),
        signature: TextPart::bits(source, certificate.signature),
    }
}

/// Whether the list is signed under the issuer's key.
pub(crate) fn of_revocations<'a>(
    issuer: &Placed<'_, 'a>,
    source: WhichText,
    list: &Crl<'a>,
) -> SignatureQuestion<'a>
    ensures question { seen_question result
        ≡ of_revocations (placed_certificate issuer.now) (seen_list list.now) }
    ensures places { (texts : Texts) → IsPlaced texts issuer.now
        → ListStands (texts source) (seen_list list.now) → AreInTexts texts result }
{
    SignatureQuestion {
        algorithm: TextPart::whole(source, list.algorithm.value),
        key_info: key_of(issuer),
        message: TextPart::whole(source, list.tbs),
        signature: TextPart::bits(source, list.signature),
    }
}

/// Whether the response is signed under the signer's key.
pub(crate) fn of_answers<'a>(
    signer: &Placed<'_, 'a>,
    source: WhichText,
    response: &Response<'a>,
) -> SignatureQuestion<'a>
    ensures question { seen_question result
        ≡ of_answers (placed_certificate signer.now) (seen_response response.now) }
    ensures places { (texts : Texts) → IsPlaced texts signer.now
        → ResponseStands (texts source) (seen_response response.now) → AreInTexts texts result }
{
    SignatureQuestion {
        algorithm: TextPart::whole(source, response.algorithm.value),
        key_info: key_of(signer),
        message: TextPart::whole(source, response.tbs),
        signature: TextPart::bits(source, response.signature),
    }
}
