//! The newest list of an issuer, a point and a scope.

ghost use Rattle.std.specs.Prelude.{◌≡◌, Option, None, option_map};
ghost use Rattle.std.specs.List.{filter_map};
ghost use Rattle.std.specs.Option.{option_to_list};
ghost use Rattle.statements_facts.specs.Coming.{crl_for};
ghost use Rattle.statements_facts.specs.Newest.{held_after, newer_crl};
ghost use Rattle.statements_facts.specs.Statement.{CrlFact, answer_for};
ghost use Rattle.statements_facts.specs.Answer.{seen_crl};
ghost use Rattle.relying_texts.specs.View.{crl_slot_of, facts_of_genuine, facts_in_all, list_fact, list_fact_at};

use crate::contents::{Contents, GenuineStatement};
use crate::same_issuer::is_kept_in;
use cert::Certificate;
use statements_crl::Crl;
use statements_facts::{CrlAnswer, Scope};

/// The list, if it is one of the issuer and the scope, published at the point; no octets stand for anywhere. A point that it names twice
/// counts once.
fn list_for<'t, 'a>(
    statement: &'t GenuineStatement<'_, '_, 'a>,
    issuer: &Certificate<'_>,
    point: &[u8],
    scope: Scope,
) -> Option<&'t Crl<'a>>
    ensures { (held : Option CrlFact) →
        held_after newer_crl held (option_to_list (option_map list_fact_at result))
        ≡ held_after newer_crl held (filter_map (crl_for (crl_slot_of issuer.now point.now scope))
        (facts_of_genuine statement.now)) }
{
    match &statement.contents {
        Contents::List(list) => {
            if is_kept_in(statement.issuer, list, issuer, point, scope) {
                Some(list)
            } else {
                None
            }
        }
        Contents::Singles(_) => None,
    }
}

/// The newer of two lists, the first of equals.
fn newer_list<'t, 'a>(held: Option<&'t Crl<'a>>, next: Option<&'t Crl<'a>>) -> Option<&'t Crl<'a>>
    ensures { option_map list_fact_at result ≡ held_after newer_crl
        (option_map list_fact_at held.entry)
        (option_to_list (option_map list_fact_at next.entry)) }
{
    match next {
        None => held,
        Some(next) => match held {
            None => Some(next),
            Some(held) => {
                if next.number.value().cmp(&held.number.value()).is_gt() {
                    Some(next)
                } else {
                    Some(held)
                }
            }
        },
    }
}

/// The newest list of the issuer, the point and the scope, the first of those with its number.
fn newest_list<'t, 'a>(
    genuine: &'t [GenuineStatement<'_, '_, 'a>],
    issuer: &Certificate<'_>,
    point: &[u8],
    scope: Scope,
) -> Option<&'t Crl<'a>>
    ensures { option_map list_fact_at result ≡ held_after newer_crl None
        (filter_map (crl_for (crl_slot_of issuer.now point.now scope)) (facts_in_all genuine.now)) }
{
    let mut newest = None;
    for statement in genuine {
        newest = newer_list(newest, list_for(statement, issuer, point, scope));
    }
    newest
}

/// What a list says of one serial number.
fn answer_of(list: &Crl<'_>, serial: &[u8]) -> CrlAnswer
    ensures { seen_crl result ≡ answer_for serial.now (list_fact list.now) }
{
    CrlAnswer {
        number: list.number.value(),
        from: list.this_update,
        until: list.next_update,
        reason: list.lists(serial),
    }
}

/// What the newest list of the issuer, the point and the scope says of one serial number.
pub(crate) fn list_answer(
    genuine: &[GenuineStatement<'_, '_, '_>],
    issuer: &Certificate<'_>,
    point: &[u8],
    scope: Scope,
    serial: &[u8],
) -> Option<CrlAnswer>
    ensures { option_map seen_crl result ≡ option_map (answer_for serial.now)
        (held_after newer_crl None
        (filter_map (crl_for (crl_slot_of issuer.now point.now scope))
        (facts_in_all genuine.now))) }
{
    let list = newest_list(genuine, issuer, point, scope)?;
    Some(answer_of(list, serial))
}
