//! The verdict on a path by statements at hand.

ghost use Rattle.path.specs.Validity.{IsValidPath};
ghost use Rattle.std.specs.Prelude.{◌≡◌, ◌++◌, IfOk, OnErr, OnOk, None, Some, if◌then◌else◌, map, option_map};
ghost use Rattle.std.specs.Option.{option_or};
ghost use Rattle.relying_agreement.specs.Status.{deciding_reason, evidence_of, is_covered_by};
ghost use Rattle.relying_agreement.specs.Verdict.{verdict_by};
ghost use Rattle.relying_search.specs.View.{seen_evidence, seen_link, seen_lists};
ghost use Rattle.statements_facts.specs.Answer.{seen_ocsp};
ghost use Rattle.path.specs.Reading.{seen_query};
ghost use Rattle.statements.specs.Statement.{seen_statement};
ghost use Rattle.relying_texts.specs.Texts.{IsVerdictByStatements, evidence_told};
ghost use Rattle.relying_texts.specs.Told.{complete_lists_told, limited_lists_told, lists_told, lists_told_at, point_names, response_told};
ghost use Rattle.relying_texts.specs.View.{CarriesNoSubtrees, facts_in_all, held_of};

use crate::contents::GenuineStatement;
use crate::gathering::genuine_statements;
use crate::newest::list_answer;
use crate::responses::response_answer;
use path::{Outcome, Query, validate_with};
use path_verifiers::Verifier;
use relying_agreement::Verdict;
use relying_search::{Evidence, Link, links_of, may_sign_crls, own_scope};
use sha1::Sha1;
use statements::Statement;
use statements_facts::{CrlAnswer, OcspAnswer, Scope};
use std::alloc::{AllocError, Global};

/// Adds what both lists say that the issuer publishes at the point.
fn push_lists_at(
    lists: &mut Vec<Option<CrlAnswer>>,
    link: &Link<'_, '_>,
    genuine: &[GenuineStatement<'_, '_, '_>],
    point: &[u8],
) -> Result<(), AllocError>
    ensures { OnOk result (seen_lists lists.new.items ≡ seen_lists lists.old.items
        ++ lists_told (facts_in_all genuine.now) (seen_link link.now) point.now) }
{
    let (issuer, certificate) = (link.issuer, link.certificate);
    let serial = certificate.serial.body;
    lists.push(list_answer(genuine, issuer, point, Scope::All, serial))?;
    lists.push(list_answer(genuine, issuer, point, own_scope(certificate), serial))?;
    Ok(())
}

/// The same at each of these points.
fn push_lists_at_each(
    lists: &mut Vec<Option<CrlAnswer>>,
    link: &Link<'_, '_>,
    genuine: &[GenuineStatement<'_, '_, '_>],
    points: &[&[u8]],
) -> Result<(), AllocError>
    ensures { OnOk result (seen_lists lists.new.items ≡ seen_lists lists.old.items
        ++ lists_told_at (facts_in_all genuine.now) (seen_link link.now) (point_names points.now)) }
{
    for point in points {
        push_lists_at(lists, link, genuine, point)?;
    }
    Ok(())
}

/// What the newest lists say that speak of the certificate: those that are published anywhere, and those at its complete points.
fn complete_lists_on(
    alloc: Global,
    link: &Link<'_, '_>,
    genuine: &[GenuineStatement<'_, '_, '_>],
) -> Result<Vec<Option<CrlAnswer>>, AllocError>
    ensures { IfOk result (λ lists. seen_lists lists.items
        ≡ complete_lists_told (facts_in_all genuine.now) (seen_link link.now)) }
{
    let mut lists = Vec::new(alloc);
    push_lists_at(&mut lists, link, genuine, &[])?;
    let points = link.certificate.points.complete.as_slice();
    push_lists_at_each(&mut lists, link, genuine, points)?;
    Ok(lists)
}

/// What the newest lists say at the limited points of the certificate.
fn limited_lists_on(
    alloc: Global,
    link: &Link<'_, '_>,
    genuine: &[GenuineStatement<'_, '_, '_>],
) -> Result<Vec<Option<CrlAnswer>>, AllocError>
    ensures { IfOk result (λ lists. seen_lists lists.items
        ≡ limited_lists_told (facts_in_all genuine.now) (seen_link link.now)) }
{
    let mut lists = Vec::new(alloc);
    let points = link.certificate.points.limited.as_slice();
    push_lists_at_each(&mut lists, link, genuine, points)?;
    Ok(lists)
}

/// What the newest response says of the certificate.
fn response_on(link: &Link<'_, '_>, genuine: &[GenuineStatement<'_, '_, '_>]) -> Option<OcspAnswer>
    ensures { option_map seen_ocsp result
        ≡ response_told (facts_in_all genuine.now) (seen_link link.now) }
{
    let certificate = link.certificate;
    let name_hash = Sha1::digest(certificate.issuer.raw());
    response_answer(genuine, link.issuer, &name_hash, certificate.serial.body)
}

/// What bears on the certificate by the newest statements.
fn evidence_of(
    alloc: Global,
    link: &Link<'_, '_>,
    genuine: &[GenuineStatement<'_, '_, '_>],
) -> Result<Evidence, AllocError>
    ensures { IfOk result (λ it. seen_evidence it
        ≡ evidence_of (held_of (facts_in_all genuine.now)) (seen_link link.now)) }
{
    Ok(Evidence {
        number: link.number,
        may_sign_crls: may_sign_crls(link),
        lists: complete_lists_on(alloc, link, genuine)?,
        limited: limited_lists_on(alloc, link, genuine)?,
        ocsp: response_on(link, genuine),
    })
}

/// Why the certificate is revoked, if it is, and whether a statement speaks of it.
fn status_of(
    alloc: Global,
    link: &Link<'_, '_>,
    genuine: &[GenuineStatement<'_, '_, '_>],
    moment: i64,
) -> Result<(Option<u8>, bool), AllocError>
    ensures reason { IfOk result (λ status. status.0 ≡ deciding_reason moment
        (evidence_of (held_of (facts_in_all genuine.now)) (seen_link link.now))) }
    ensures covered { IfOk result (λ status. status.1 ≡ is_covered_by moment
        (evidence_of (held_of (facts_in_all genuine.now)) (seen_link link.now))) }
{
    let evidence = evidence_of(alloc, link, genuine)?;
    Ok((evidence.reason(moment), evidence.is_covered(moment)))
}

/// The first certificate of which no statement speaks, with one more.
fn first_uncovered(earlier: Option<usize>, number: usize, is_covered: bool) -> Option<usize>
    ensures { result ≡ option_or earlier (if is_covered then None else Some number) }
{
    match earlier {
        Some(earlier) => Some(earlier),
        None => { if is_covered { None } else { Some(number) } }
    }
}

/// The verdict on the certificates of a path that meets all conditions: the first that is revoked; if none is, the first of which no
/// statement speaks; else that the path is valid.
pub(crate) fn verdict_on(
    alloc: Global,
    links: &[Link<'_, '_>],
    genuine: &[GenuineStatement<'_, '_, '_>],
    moment: i64,
) -> Result<Verdict, AllocError>
    ensures { IfOk result (λ verdict. verdict ≡ verdict_by moment
        (map (evidence_of (held_of (facts_in_all genuine.now))) (map seen_link links.now))) }
{
    let mut uncovered = None;
    for link in links {
        let (revoked, is_covered) = status_of(alloc, link, genuine, moment)?;
        if let Some(reason) = revoked {
            return Ok(Verdict::Revoked(link.number, reason));
        }
        uncovered = first_uncovered(uncovered, link.number, is_covered);
    }
    match uncovered {
        Some(number) => Ok(Verdict::Unknown(number)),
        None => Ok(Verdict::Valid),
    }
}

/// The same at the moment that is asked for.
fn verdict_at(
    alloc: Global,
    query: &Query<'_>,
    links: &[Link<'_, '_>],
    genuine: &[GenuineStatement<'_, '_, '_>],
) -> Result<Verdict, AllocError>
    ensures { IfOk result (λ verdict. verdict ≡ verdict_by query.now.moment
        (map (evidence_of (held_of (facts_in_all genuine.now))) (map seen_link links.now))) }
{
    let moment = query.moment;
    verdict_on(alloc, links, genuine, moment)
}

/// The verdict on a path that meets all conditions.
fn verdict_by_statements<V: Verifier>(
    alloc: Global,
    verifier: &V,
    query: &Query<'_>,
    statements: &[Statement<'_>],
) -> Result<Verdict, AllocError>
    ensures { IfOk result (λ verdict. verdict ≡ verdict_by query.now.moment
        (evidence_told (V.accepts verifier.now) (seen_query query.now)
        (map seen_statement statements.now))) }
{
    let links = links_of(alloc, &query.anchor, query.path.as_slice())?;
    let genuine = genuine_statements(alloc, verifier, links.as_slice(), statements)?;
    verdict_at(alloc, query, links.as_slice(), genuine.as_slice())
}

/// The verdict on a path by statements, lists and responses in any order: that of a relying party that began with nothing and was
/// delivered each statement with the certificate of each issuer of the path. A statement that is genuine for none of the issuers changes
/// nothing. The path is validated first, with the options of the question, and statements are looked at only if it is valid. The only error
/// is lack of memory.
///
/// The verifier is asked about a list once for each issuer whose name it has, about a response once for each
/// issuer and for each certificate that comes with it. For each certificate of the path at most two lists are walked over once more, the
/// newest of either scope, and as many at each of its points. Memory is taken for the certificates of the path, for genuine statements and
/// for the certificates that come with responses, but not for the entries of lists.
pub fn verdict<V: Verifier>(
    alloc: Global,
    verifier: &V,
    query: &Query<'_>,
    statements: &[Statement<'_>],
) -> Result<Verdict, AllocError>
    ensures verdict { IfOk result (IsVerdictByStatements (V.accepts verifier.now)
        (seen_query query.now) (map seen_statement statements.now)) }
    // If no certificate of the path carries a subtree of a processed form, memory is asked for only if the path is valid.
    ensures memory { OnErr result (CarriesNoSubtrees query.now
        → IsValidPath (V.accepts verifier.now) (seen_query query.now)) }
{
    let (anchor, path) = (&query.anchor, query.path.as_slice());
    let (moment, purpose, options) = (query.moment, query.purpose, query.options);
    match validate_with(alloc, verifier, anchor, path, moment, purpose, options)? {
        Outcome::Bad(number, reason) => Ok(Verdict::Invalid(number, reason)),
        Outcome::Good => verdict_by_statements(alloc, verifier, query, statements),
    }
}
