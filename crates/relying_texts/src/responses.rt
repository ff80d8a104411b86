//! The newest single response of a certificate.

ghost use Rattle.std.specs.Prelude.{◌≡◌, None, map, option_map};
ghost use Rattle.std.specs.List.{filter_map};
ghost use Rattle.statements_facts.specs.Coming.{ocsp_for};
ghost use Rattle.statements_facts.specs.Newest.{held_after, newer_ocsp, newer_of};
ghost use Rattle.statements_facts.specs.Single.{seen_single};
ghost use Rattle.statements_facts.specs.Answer.{seen_ocsp};
ghost use Rattle.relying_texts.specs.View.{facts_of_genuine, facts_in_all, ocsp_slot_of, singles_for};

use crate::contents::{Contents, GenuineStatement};
use crate::same_issuer::is_same_issuer;
use cert::Certificate;
use statements_facts::{OcspAnswer, Single};

/// What a single response says.
fn answer_of(single: &Single<'_>) -> OcspAnswer
    ensures { seen_ocsp result ≡ (seen_single single.now).fact }
{
    OcspAnswer {
        this_update: single.this_update,
        produced_at: single.produced_at,
        from: single.from,
        until: single.until,
        status: single.status,
    }
}

/// The newer of two answers, the first of equals: by thisUpdate, and then by producedAt.
fn newer_of(held: Option<OcspAnswer>, next: OcspAnswer) -> Option<OcspAnswer>
    ensures { option_map seen_ocsp result
        ≡ newer_of newer_ocsp (option_map seen_ocsp held) (seen_ocsp next) }
{
    match held {
        None => Some(next),
        Some(held) => {
            let newer = next
                .this_update
                .cmp(&held.this_update)
                .then(next.produced_at.cmp(&held.produced_at))
                .is_gt();
            if newer { Some(next) } else { Some(held) }
        }
    }
}

/// The newest of what is held and of those single responses that speak of the certificate with this hash of its issuer field and this
/// serial number.
fn newest_single(
    held: Option<OcspAnswer>,
    singles: &[Single<'_>],
    name_hash: &[u8],
    serial: &[u8],
) -> Option<OcspAnswer>
    ensures { option_map seen_ocsp result ≡ held_after newer_ocsp (option_map seen_ocsp held)
        (singles_for name_hash.now serial.now (map seen_single singles.now)) }
{
    let mut newest = held;
    for single in singles {
        if single.name_hash.as_slice() == name_hash && single.serial == serial {
            newest = newer_of(newest, answer_of(single));
        }
    }
    newest
}

/// The newest of what is held and of what the statement says.
fn newest_of(
    held: Option<OcspAnswer>,
    statement: &GenuineStatement<'_, '_, '_>,
    issuer: &Certificate<'_>,
    name_hash: &[u8],
    serial: &[u8],
) -> Option<OcspAnswer>
    ensures { option_map seen_ocsp result ≡ held_after newer_ocsp (option_map seen_ocsp held)
        (filter_map (ocsp_for (ocsp_slot_of issuer.now name_hash.now serial.now))
        (facts_of_genuine statement.now)) }
{
    match &statement.contents {
        Contents::List(_) => held,
        Contents::Singles(singles) => {
            if is_same_issuer(statement.issuer, issuer) {
                newest_single(held, singles.as_slice(), name_hash, serial)
            } else {
                held
            }
        }
    }
}

/// What the newest response says of the certificate of the issuer with this hash of its issuer field and this serial number.
pub(crate) fn response_answer(
    genuine: &[GenuineStatement<'_, '_, '_>],
    issuer: &Certificate<'_>,
    name_hash: &[u8],
    serial: &[u8],
) -> Option<OcspAnswer>
    ensures { option_map seen_ocsp result ≡ held_after newer_ocsp None
        (filter_map (ocsp_for (ocsp_slot_of issuer.now name_hash.now serial.now))
        (facts_in_all genuine.now)) }
{
    let mut newest = None;
    for statement in genuine {
        newest = newest_of(newest, statement, issuer, name_hash, serial);
    }
    newest
}
