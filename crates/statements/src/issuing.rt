//! The issuer that a certificate belongs to.

ghost use Rattle.std.specs.Prelude.{IfOk};
ghost use Rattle.statements.specs.Seen.{IsSubjectOf};

use cert::Certificate;
use statements_facts::{Issuer, NameKey};
use std::alloc::{AllocError, Global};

/// The issuer that a certificate belongs to: the key of its subject's name, and its subjectPublicKeyInfo. Memory is taken for the key.
pub fn issuer_of<'a>(alloc: Global, certificate: &Certificate<'a>) -> Result<Issuer<'a>, AllocError>
    ensures { IfOk result (IsSubjectOf certificate.now) }
{
    let name = certificate.subject.key(alloc)?;
    Ok(Issuer {
        name: NameKey::from_octets(name),
        key_info: certificate.subject_public_key_info.value.whole,
    })
}
