//! Certificates of one issuer.

ghost use Rattle.std.specs.Prelude.{◌≡◌};
ghost use Rattle.statements_facts.specs.Statement.{same_issuer};
ghost use Rattle.relying_texts.specs.View.{crl_slot_of, identity_seen, is_kept_at, is_kept_in, is_published_at, points_of};
ghost use Rattle.cert_points.specs.GeneralNames.{seen_general_names};

use cert::Certificate;
use cert_points::GeneralNames;
use names::key_laws;
use statements_crl::Crl;
use statements_facts::Scope;

/// Whether two certificates are of one issuer: their subjects match, and their subjectPublicKeyInfo has the same octets.
pub(crate) fn is_same_issuer(one: &Certificate<'_>, other: &Certificate<'_>) -> bool
    ensures { result ≡ same_issuer (identity_seen one.now) (identity_seen other.now) }
{
    key_laws();
    one.subject.matches(&other.subject)
        && one.subject_public_key_info.value.whole == other.subject_public_key_info.value.whole
}

/// Whether the point is one of the names; of none, whether no octets stand for it.
fn is_one_of(names: &GeneralNames<'_>, point: &[u8]) -> bool
    ensures { result ≡ is_published_at (seen_general_names names.now) point.now }
{
    if names.members.end() {
        return point.is_empty();
    }
    names.has(point)
}

/// Whether the list is published at the point, of which no octets stand for anywhere: there a whole list is published.
fn is_published_at(list: &Crl<'_>, point: &[u8]) -> bool
    ensures { result ≡ is_published_at (points_of list.now) point.now }
{
    match &list.points {
        Some(names) => is_one_of(names, point),
        None => point.is_empty(),
    }
}

/// Whether a list of the one issuer is kept for the other at the point: the key of a name tells where it ends.
fn is_kept_at(one: &Certificate<'_>, list: &Crl<'_>, other: &Certificate<'_>, point: &[u8]) -> bool
    ensures { result ≡ is_kept_at (identity_seen one.now) (points_of list.now)
        (identity_seen other.now) point.now }
{
    key_laws();
    is_same_issuer(one, other) && is_published_at(list, point)
}

/// Whether a list of the one issuer is kept in the slot of the other at the point, and of the scope.
pub(crate) fn is_kept_in(
    one: &Certificate<'_>,
    list: &Crl<'_>,
    other: &Certificate<'_>,
    point: &[u8],
    scope: Scope,
) -> bool
    ensures { result ≡ is_kept_in (identity_seen one.now) list.now
        (crl_slot_of other.now point.now scope) }
{
    list.scope == scope && is_kept_at(one, list, other, point)
}
