//! Of whose certificates the ids of single responses are (RFC 6960, 4.1.1).

ghost use Rattle.std.specs.Prelude.{◌≡◌, option_map};
ghost use Rattle.cert.specs.Certificate.{seen_certificate};
ghost use Rattle.statements_ocsp.specs.CertificateId.{seen_id};
ghost use Rattle.statements.specs.CertificateIds.{hashes_in, hashes_of, named_by_sha1, named_by_sha256};
ghost use Rattle.statements.specs.Responder.{key_hash};
ghost use Rattle.statements.specs.Seen.{named_with_seen, seen_hashes};

use crate::responder::hash_of_key;
use cert::Certificate;
use sha1::Sha1;
use sha2::{Digest, Sha256};
use statements_facts::Profile;
use statements_ocsp::CertId;

/// id-sha1, 1.3.14.3.2.26
const SHA_1: &[u8] = b"\x2B\x0E\x03\x02\x1A";

/// id-sha256, 2.16.840.1.101.3.4.2.1
const SHA_256: &[u8] = b"\x60\x86\x48\x01\x65\x03\x04\x02\x01";

/// The hashes of an issuer's key and name by SHA-256, and of its name by SHA-1.
#[derive(Clone, Copy)]
pub(crate) struct IssuerHashes {
    key_by_sha256: [u8; 32],
    name_by_sha256: [u8; 32],
    name_by_sha1: [u8; 20],
}

impl IssuerHashes {
    fn of(issuer: &Certificate<'_>) -> IssuerHashes
        ensures { seen_hashes result ≡ hashes_of (seen_certificate issuer.now) }
    {
        let name = issuer.subject.raw();
        IssuerHashes {
            key_by_sha256: Sha256::digest(issuer.subject_public_key_info.key.octets()),
            name_by_sha256: Sha256::digest(name),
            name_by_sha1: Sha1::digest(name),
        }
    }
}

/// The hash of the issuer's name in an id by SHA-1, if the issuer has the key of this hash.
fn named_by_sha1(key_hash: &[u8], id: &CertId<'_>) -> Option<[u8; 20]>
    ensures { result ≡ named_by_sha1 key_hash.now (seen_id id.now) }
{
    if id.hash_algorithm != SHA_1 || id.issuer_key_hash != key_hash {
        return None;
    }
    match <[u8; 20]>::try_from(id.issuer_name_hash) {
        Ok(name_hash) => Some(name_hash),
        Err(_) => None,
    }
}

/// The SHA-1 of the issuer's name, if an id by SHA-256 is of the issuer.
fn named_by_sha256(hashes: &IssuerHashes, id: &CertId<'_>) -> Option<[u8; 20]>
    ensures { result ≡ named_by_sha256 (seen_hashes hashes.now) (seen_id id.now) }
{
    let is_of_issuer = id.hash_algorithm == SHA_256
        && id.issuer_name_hash == hashes.name_by_sha256.as_slice()
        && id.issuer_key_hash == hashes.key_by_sha256.as_slice();
    if is_of_issuer {
        Some(hashes.name_by_sha1)
    } else {
        None
    }
}

/// The hashes by which ids name an issuer: in the stated profile that of its key by SHA-1, in the wide one those by SHA-256 too.
#[derive(Clone, Copy)]
pub(crate) struct IssuerIds {
    key_hash: [u8; 20],
    wide: Option<IssuerHashes>,
}

impl IssuerIds {
    pub(crate) fn of(profile: Profile, issuer: &Certificate<'_>) -> IssuerIds
        ensures key { result.key_hash ≡ key_hash (seen_certificate issuer.now) }
        ensures wide { option_map seen_hashes result.wide
            ≡ hashes_in profile (seen_certificate issuer.now) }
    {
        let wide = match profile {
            Profile::Stated => None,
            Profile::Wide => Some(IssuerHashes::of(issuer)),
        };
        IssuerIds {
            key_hash: hash_of_key(issuer),
            wide,
        }
    }

    /// The SHA-1 of the issuer's name in the certificate of which the id is, if it is one of the issuer's.
    pub(crate) fn name_hash(&self, id: &CertId<'_>) -> Option<[u8; 20]>
        ensures { result ≡ named_with_seen self.now id.now }
    {
        let by_sha1 = named_by_sha1(&self.key_hash, id);
        match &self.wide {
            None => by_sha1,
            Some(hashes) => match by_sha1 {
                Some(name_hash) => Some(name_hash),
                None => named_by_sha256(hashes, id),
            },
        }
    }
}
