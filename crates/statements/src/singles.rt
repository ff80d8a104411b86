//! What the single responses say of the issuer's certificates (RFC 6960, 4.2.1 and 4.2.2).

ghost use Rattle.std.specs.Prelude.{◌≡◌, IfOk, map};
ghost use Rattle.cert.specs.Certificate.{seen_certificate};
ghost use Rattle.statements_facts.specs.Single.{seen_single};
ghost use Rattle.statements_ocsp.specs.OcspResponse.{seen_response};
ghost use Rattle.statements_ocsp.specs.Single.{seen_single_response as seen_response_to};
ghost use Rattle.statements.specs.OcspFact.{counts_until, singles_of, status_of};
ghost use Rattle.statements.specs.Seen.{single_fact_seen, window_of_seen};
ghost use Rattle.statements.specs.SignerView.{seen_signer};

use crate::ids::IssuerIds;
use crate::signer::Signer;
use cert::Certificate;
use statements_facts::{Profile, Single, Status};
use statements_ocsp::{CertStatus, Response, SingleResponse};
use std::alloc::{AllocError, Global};

/// For how long a single response counts that does not say until when, in seconds.
const DAY: i64 = 86_400;

/// Until when the single response counts.
fn end(single: &SingleResponse<'_>) -> i64
    ensures { result ≡ counts_until (seen_response_to single.now) }
{
    match single.next_update {
        Some(next_update) => next_update,
        None => single.this_update + DAY,
    }
}

/// From when and until when it counts, by this signer.
fn window(signer: &Signer<'_>, single: &SingleResponse<'_>) -> (i64, i64)
    ensures from { result.0 ≡ (window_of_seen signer.now single.now).from }
    ensures until { result.1 ≡ (window_of_seen signer.now single.now).until }
{
    let (from, until) = (single.this_update, end(single));
    match signer {
        Signer::Issuer => (from, until),
        Signer::Delegate(certificate) => {
            let validity = certificate.validity;
            (from.max(validity.not_before), until.min(validity.not_after))
        }
    }
}

/// The status as that of a fact.
fn status(status: CertStatus) -> Status
    ensures { result ≡ status_of status }
{
    match status {
        CertStatus::Good => Status::Good,
        CertStatus::Revoked(reason) => Status::Revoked(reason),
        CertStatus::Unknown => Status::Unknown,
    }
}

/// What a single response says, in a response made at this time by this signer, of a certificate whose issuer's name has this hash.
fn said_by<'a>(
    signer: &Signer<'_>,
    produced_at: i64,
    single: &SingleResponse<'a>,
    name_hash: [u8; 20],
) -> Single<'a>
    ensures { seen_single result
        ≡ single_fact_seen signer.now produced_at single.now name_hash }
{
    let (from, until) = window(signer, single);
    Single {
        name_hash,
        serial: single.id.serial,
        this_update: single.this_update,
        produced_at,
        from,
        until,
        status: status(single.status),
    }
}

/// What the response says in a profile of certificates of the issuer, in order.
pub(crate) fn singles_said<'a>(
    alloc: Global,
    profile: Profile,
    issuer: &Certificate<'_>,
    response: &Response<'a>,
    signer: &Signer<'_>,
) -> Result<Vec<Single<'a>>, AllocError>
    ensures { IfOk result (λ all. map seen_single all.items ≡
        singles_of profile (seen_certificate issuer.now) (seen_response response.now)
        (seen_signer signer.now)) }
{
    let ids = IssuerIds::of(profile, issuer);
    let mut all = Vec::new(alloc);
    let mut singles = response.responses;
    while let Some(single) = singles.next() {
        if let Some(name_hash) = ids.name_hash(&single.id) {
            all.push(said_by(signer, response.produced_at, &single, name_hash))?;
        }
    }
    Ok(all)
}
