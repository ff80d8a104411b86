//! Lists of an issuer (RFC 5280, 6.3.3).

ghost use Rattle.std.specs.Prelude.{◌≡◌, IfOk, map};
ghost use Rattle.cert.specs.Certificate.{seen_certificate};
ghost use Rattle.cert_points.specs.GeneralNames.{octets_of};
ghost use Rattle.statements_crl.specs.CertificateList.{seen_list};
ghost use Rattle.statements_facts.specs.Fact.{crl_fact, crl_issuers, facts_in_list, seen_issuer};
ghost use Rattle.statements_facts.specs.Statement.{at_point};
ghost use Rattle.statements.specs.CrlFact.{fact_of_list, list_said};
ghost use Rattle.statements.specs.Genuine.{AnswersUnlessFull, OnFull};
ghost use Rattle.statements.specs.Seen.{AreIssuersOf, IsOfIssuer, issuers_of_seen, of_issuer_seen};

use crate::issuing::issuer_of;
use crate::listed::listed_by;
use cert::Certificate;
use path_verifiers::Verifier;
use statements_crl::Crl;
use statements_facts::{CrlFacts, Issuer, RevokedSerials};
use statements_parts::StatementFault;
use std::alloc::{AllocError, Global};

/// Whether the issuer issued a list (RFC 5280, 6.3.3 (f), (g)): the list names it, else `OtherIssuer`, and its signature is
/// accepted under the issuer's key, else `BadSignature`. No memory is taken.
#[tactic(auto, unfolding(crate::specs::CrlFact::of_issuer))]
pub fn check_crl_issuer<V: Verifier>(
    verifier: &V,
    issuer: &Certificate<'_>,
    list: &Crl<'_>,
) -> Result<(), StatementFault>
    ensures { of_issuer_seen (V.accepts verifier.now) issuer.now list.now ≡ result }
{
    if !list.issuer.matches(&issuer.subject) {
        return Err(StatementFault::OtherIssuer);
    }
    let key_info = issuer.subject_public_key_info.value.whole;
    let accepted = verifier.judge(
        list.algorithm.value.whole,
        key_info,
        list.tbs.whole,
        list.signature.octets(),
    );
    if !accepted {
        return Err(StatementFault::BadSignature);
    }
    Ok(())
}

/// The issuer at each of the points, in order.
fn issuers_at<'a>(
    alloc: Global,
    issuer: &Issuer<'a>,
    points: &[&[u8]],
) -> Result<Vec<Issuer<'a>>, AllocError>
    ensures { IfOk result (λ issuers. map seen_issuer issuers.items
        ≡ map (λ point. at_point point.now (seen_issuer issuer.now)) points.now) }
{
    let mut issuers = Vec::with_capacity(alloc, points.len())?;
    for point in points {
        issuers.push(issuer.at_point(alloc, point)?)?;
    }
    Ok(issuers)
}

/// The names of the point where the list is published; none of a whole list.
fn points_of<'a>(alloc: Global, list: &Crl<'a>) -> Result<Vec<&'a [u8]>, AllocError>
    ensures { IfOk result (λ points. octets_of points ≡ (seen_list list.now).points) }
{
    match list.points {
        Some(names) => names.octets(alloc),
        None => Ok(Vec::new(alloc)),
    }
}

/// For whom the list is kept: its issuer, and no others; or, if it is published at points, its issuer at the first, and at each further one.
fn issuers_of<'a>(
    alloc: Global,
    issuer: &Certificate<'a>,
    list: &Crl<'a>,
) -> Result<(Issuer<'a>, Vec<Issuer<'a>>), AllocError>
    ensures { IfOk result (λ issuers. AreIssuersOf issuer.now list.now issuers.0 issuers.1) }
{
    let own = issuer_of(alloc, issuer)?;
    let points = points_of(alloc, list)?;
    match points.as_slice().split_first() {
        None => Ok((own, Vec::new(alloc))),
        Some((first, others)) => {
            let at_first = own.at_point(alloc, first)?;
            let at_others = issuers_at(alloc, &own, others)?;
            Ok((at_first, at_others))
        }
    }
}

/// The facts of a list of the issuer. Memory is taken for the entries, and for the issuer at each point.
fn facts_of<'a>(
    alloc: Global,
    issuer: &Certificate<'a>,
    list: &Crl<'a>,
) -> Result<CrlFacts<'a>, AllocError>
    ensures scope { IfOk result (λ facts. facts.scope ≡ list.now.scope) }
    ensures issuers { IfOk result (λ facts.
        crl_issuers facts ≡ issuers_of_seen issuer.now list.now) }
    ensures fact { IfOk result (λ facts. crl_fact facts ≡ fact_of_list (seen_list list.now)) }
{
    let listed = listed_by(alloc, list.revoked)?;
    let (issuer, others) = issuers_of(alloc, issuer, list)?;
    Ok(CrlFacts {
        issuer,
        others,
        scope: list.scope,
        number: list.number.value(),
        from: list.this_update,
        until: list.next_update,
        revoked: RevokedSerials::of_entries(listed)?,
    })
}

/// The facts of a list, if the issuer issued it; else the fault. Memory is taken only for a list that the issuer issued.
#[tactic(auto, using(crate::proofs::Genuineness::issuer_refused, crate::proofs::Genuineness::no_memory_for_the_issuer, crate::proofs::Genuineness::list_believed))]
pub(crate) fn list_facts<'a, V: Verifier>(
    alloc: Global,
    verifier: &V,
    issuer: &Certificate<'a>,
    list: &Crl<'a>,
) -> Result<CrlFacts<'a>, StatementFault>
    ensures said { AnswersUnlessFull facts_in_list result
        (list_said (V.accepts verifier.now) (seen_certificate issuer.now) (seen_list list.now)) }
    ensures memory { OnFull result (IsOfIssuer (V.accepts verifier.now) issuer.now list.now) }
{
    check_crl_issuer(verifier, issuer, list)?;
    Ok(facts_of(alloc, issuer, list)?)
}
