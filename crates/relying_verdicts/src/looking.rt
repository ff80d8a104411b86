//! What a store holds of the certificates of a path.

ghost use Rattle.std.specs.Prelude.{◌≡◌, ◌≢◌, ◌++◌, [], IsTrue, IfOk, OnOk, length, map, vec_len};
ghost use Rattle.sqlite.specs.State.{HasCleanDisk};
ghost use Rattle.cert.specs.Certificate.{seen_certificate};
ghost use Rattle.statements_facts.specs.Fact.{seen_issuer};
ghost use Rattle.statements_facts.specs.Statement.{at_point};
ghost use Rattle.store_sql.specs.Inside.{IsInTransaction, KeepsReference, SucceedsOnlyIfOpen, inside};
ghost use Rattle.store_sql.specs.Statements.{CommitsNothing};
ghost use Rattle.store_maps.specs.LooksUp.{LooksUpInside, CausedOverStore};
ghost use Rattle.relying_agreement.specs.Status.{evidence_of};
ghost use Rattle.relying_agreement.specs.Verdict.{evidence_on};
ghost use Rattle.relying_verdicts.specs.Asking.{AsksStore, AsksForCause};
ghost use Rattle.relying_verdicts.specs.Found.{AreAnswersOn, AreFoundAt, AreListsAtPoints, IsAssembled, lists_in};
ghost use Rattle.relying_search.specs.View.{seen_evidence, seen_link, seen_lists};
ghost use Rattle.path.specs.Reading.{seen_query};

use crate::fault::Fault;
use cert::Certificate;
use path::Query;
use relying_search::{Evidence, Link, links_of, may_sign_crls, own_scope};
use sha1::Sha1;
use sqlite::{Alter, Transaction};
use statements::issuer_of;
use statements_facts::{Answers, CrlAnswer, Issuer};
use std::alloc::{AllocError, Global};
use store_maps::{CertificateKey, answers_on};
use store_sql::StoreFault;

/// What is held of a certificate of the issuer: the hash of its issuer field is that of the field as the certificate spells it.
fn look_up<S: Alter>(
    tx: &mut Transaction<'_, S>,
    issuer: &Issuer<'_>,
    certificate: &Certificate<'_>,
) -> Result<Answers, StoreFault>
    requires inside { IsInTransaction S.Store tx.old }
    ensures same_reference { KeepsReference tx.old tx.new }
    ensures looks_up { LooksUpInside S.Store tx.old tx.new
        (AreAnswersOn (seen_issuer issuer.now) (seen_certificate certificate.now)) result }
    ensures caused { CausedOverStore S.Store tx.old tx.new result }
    ensures open { SucceedsOnlyIfOpen S.Store tx.old tx.new result }
    ensures survives { CommitsNothing (inside S.Store tx.old) (inside S.Store tx.new) }
{
    let name_hash = Sha1::digest(certificate.issuer.raw());
    let key = CertificateKey {
        kind: own_scope(certificate),
        name_hash: &name_hash,
        serial: certificate.serial.body,
    };
    answers_on(tx, issuer, &key)
}

/// The same at a point where the issuer publishes lists.
fn look_up_at<S: Alter>(
    alloc: Global,
    tx: &mut Transaction<'_, S>,
    issuer: &Issuer<'_>,
    certificate: &Certificate<'_>,
    point: &[u8],
) -> Result<Answers, Fault>
    requires inside { IsInTransaction S.Store tx.old }
    ensures same_reference { KeepsReference tx.old tx.new }
    ensures asks { AsksStore S.Store tx.old tx.new (AreAnswersOn
        (at_point point.now (seen_issuer issuer.now)) (seen_certificate certificate.now)) result }
    ensures caused { AsksForCause S.Store tx.old tx.new result }
    ensures survives { CommitsNothing (inside S.Store tx.old) (inside S.Store tx.new) }
{
    let there = issuer.at_point(alloc, point)?;
    Ok(look_up(tx, &there, certificate)?)
}

/// Adds what both lists say.
fn push_lists(lists: &mut Vec<Option<CrlAnswer>>, answers: &Answers) -> Result<(), AllocError>
    ensures { OnOk result (seen_lists lists.new.items
        ≡ seen_lists lists.old.items ++ lists_in answers.now) }
{
    lists.push(answers.all)?;
    lists.push(answers.own)?;
    Ok(())
}

/// What the lists say that the issuer publishes at these points, as they speak of a certificate: of each point one look-up.
fn lists_at<S: Alter>(
    alloc: Global,
    tx: &mut Transaction<'_, S>,
    issuer: &Issuer<'_>,
    certificate: &Certificate<'_>,
    points: &[&[u8]],
) -> Result<Vec<Option<CrlAnswer>>, Fault>
    requires inside { IsInTransaction S.Store tx.old }
    ensures same_reference { KeepsReference tx.old tx.new }
    ensures asks { AsksStore S.Store tx.old tx.new (AreFoundAt
        (seen_issuer issuer.now) (seen_certificate certificate.now) points.now) result }
    ensures caused { AsksForCause S.Store tx.old tx.new result }
    ensures survives { CommitsNothing (inside S.Store tx.old) (inside S.Store tx.new) }
{
    let mut lists = Vec::new(alloc);
    for point in points {
        let answers = look_up_at(alloc, tx, issuer, certificate, point)?;
        push_lists(&mut lists, &answers)?;
    }
    Ok(lists)
}

/// What the lists say at the points of a certificate.
#[derive(Drop)]
struct ListsAtPoints {
    /// At the complete ones.
    complete: Vec<Option<CrlAnswer>>,
    /// At the limited ones.
    limited: Vec<Option<CrlAnswer>>,
}

/// What the lists say that the issuer publishes at the points of the certificate.
fn lists_at_points<S: Alter>(
    alloc: Global,
    tx: &mut Transaction<'_, S>,
    issuer: &Issuer<'_>,
    certificate: &Certificate<'_>,
) -> Result<ListsAtPoints, Fault>
    requires inside { IsInTransaction S.Store tx.old }
    ensures same_reference { KeepsReference tx.old tx.new }
    ensures asks { AsksStore S.Store tx.old tx.new
        (AreListsAtPoints (seen_issuer issuer.now) (seen_certificate certificate.now)) result }
    ensures caused { AsksForCause S.Store tx.old tx.new result }
    ensures survives { CommitsNothing (inside S.Store tx.old) (inside S.Store tx.new) }
{
    let points = &certificate.points;
    let complete = lists_at(alloc, tx, issuer, certificate, points.complete.as_slice())?;
    let limited = lists_at(alloc, tx, issuer, certificate, points.limited.as_slice())?;
    Ok(ListsAtPoints { complete, limited })
}

/// What bears on a certificate, by what is held of it under its issuer, and of lists at its points.
fn assembled(
    alloc: Global,
    link: &Link<'_, '_>,
    answers: &Answers,
    at_points: ListsAtPoints,
) -> Result<Evidence, AllocError>
    ensures { IfOk result (IsAssembled (seen_link link.now) answers.now at_points) }
{
    let ListsAtPoints { complete, limited } = at_points;
    let mut lists = Vec::new(alloc);
    push_lists(&mut lists, answers)?;
    lists.extend_from_slice(complete.as_slice())?;
    Ok(Evidence {
        number: link.number,
        may_sign_crls: may_sign_crls(link),
        lists,
        limited,
        ocsp: answers.ocsp,
    })
}

/// What bears on a certificate. Memory is taken for the key of the issuer's name, and at each of the certificate's points once more.
fn evidence_of<S: Alter>(
    alloc: Global,
    tx: &mut Transaction<'_, S>,
    link: &Link<'_, '_>,
) -> Result<Evidence, Fault>
    requires inside { IsInTransaction S.Store tx.old }
    ensures same_reference { KeepsReference tx.old tx.new }
    ensures asks { AsksStore S.Store tx.old tx.new
        (λ held it. seen_evidence it ≡ evidence_of held (seen_link link.now)) result }
    ensures caused { AsksForCause S.Store tx.old tx.new result }
    ensures open { SucceedsOnlyIfOpen S.Store tx.old tx.new result }
    ensures survives { CommitsNothing (inside S.Store tx.old) (inside S.Store tx.new) }
{
    let issuer = issuer_of(alloc, link.issuer)?;
    let answers = look_up(tx, &issuer, link.certificate)?;
    let at_points = lists_at_points(alloc, tx, &issuer, link.certificate)?;
    Ok(assembled(alloc, link, &answers, at_points)?)
}

/// What bears on certificates, one after the other: of each one look-up in a slot, one more at each of its points, and the key of the
/// issuer's name once.
pub(crate) fn evidence_of_each<S: Alter>(
    alloc: Global,
    tx: &mut Transaction<'_, S>,
    links: &[Link<'_, '_>],
) -> Result<Vec<Evidence>, Fault>
    requires inside { IsInTransaction S.Store tx.old }
    ensures same_reference { KeepsReference tx.old tx.new }
    ensures count { IfOk result (λ all. vec_len all ≡ length links.now) }
    ensures asks { AsksStore S.Store tx.old tx.new (λ held all.
        map seen_evidence all.items ≡ map (evidence_of held) (map seen_link links.now)) result }
    ensures caused { AsksForCause S.Store tx.old tx.new result }
    ensures open { HasCleanDisk (inside S.Store tx.new)
        → IfOk result (λ all. all.items ≢ [] → IsTrue (inside S.Store tx.old).is_open) }
    ensures survives { CommitsNothing (inside S.Store tx.old) (inside S.Store tx.new) }
{
    let mut all = Vec::new(alloc);
    for link in links {
        let it = evidence_of(alloc, tx, link)?;
        all.push(it)?;
    }
    Ok(all)
}

/// What bears on the certificates of a path.
pub(crate) fn evidence_on<S: Alter>(
    alloc: Global,
    tx: &mut Transaction<'_, S>,
    query: &Query<'_>,
) -> Result<Vec<Evidence>, Fault>
    requires inside { IsInTransaction S.Store tx.old }
    ensures same_reference { KeepsReference tx.old tx.new }
    ensures count { IfOk result (λ all. vec_len all ≡ vec_len query.now.path) }
    ensures asks { AsksStore S.Store tx.old tx.new
        (λ held all. map seen_evidence all.items ≡ evidence_on held (seen_query query.now)) result }
    ensures caused { AsksForCause S.Store tx.old tx.new result }
    ensures open { HasCleanDisk (inside S.Store tx.new)
        → IfOk result (λ all. all.items ≢ [] → IsTrue (inside S.Store tx.old).is_open) }
    ensures survives { CommitsNothing (inside S.Store tx.old) (inside S.Store tx.new) }
{
    let links = links_of(alloc, &query.anchor, query.path.as_slice())?;
    evidence_of_each(alloc, tx, links.as_slice())
}
