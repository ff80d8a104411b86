//! Statements that are read before they are taken.

ghost use Rattle.std.specs.Prelude.{IfErr, IfOk};
ghost use Rattle.statements_facts.specs.Fact.{facts_in};
ghost use Rattle.statements_facts.specs.declared.profile.Profile.TheVariants.{Stated};
ghost use Rattle.relying.specs.Delivery.{IsRefusal, StatementSays};

use crate::fault::DeliverFault;
use cert::Certificate;
use path_verifiers::Verifier;
use statements::genuine_under;
use statements_facts::{Facts, Profile};
use std::alloc::Global;

/// Reads a statement, a list or a response, under the issuer whose certificate is `issuer`, both in DER: the first step of a delivery,
/// which needs no store; `Node::take` is the second. The first fault is answered: that of the issuer's certificate, else that of the
/// statement, never the store's. The facts borrow both texts. Time is n log n in the octets.
pub fn read_statement<'a, V: Verifier>(
    alloc: Global,
    verifier: &V,
    issuer: &'a [u8],
    statement: &'a [u8],
) -> Result<Facts<'a>, DeliverFault>
    ensures says { IfOk result (λ facts.
        StatementSays Stated (V.accepts verifier.now) issuer.now statement.now (facts_in facts)) }
    ensures refused { IfErr result
        (IsRefusal Stated (V.accepts verifier.now) issuer.now statement.now) }
{
    read_statement_under(alloc, Profile::Stated, verifier, issuer, statement)
}

/// The same in a profile: that of the store that is to take it.
pub fn read_statement_under<'a, V: Verifier>(
    alloc: Global,
    profile: Profile,
    verifier: &V,
    issuer: &'a [u8],
    statement: &'a [u8],
) -> Result<Facts<'a>, DeliverFault>
    ensures says { IfOk result (λ facts.
        StatementSays profile (V.accepts verifier.now) issuer.now statement.now (facts_in facts)) }
    ensures refused { IfErr result
        (IsRefusal profile (V.accepts verifier.now) issuer.now statement.now) }
{
    let issuer = match Certificate::read(alloc, issuer) {
        Ok(issuer) => issuer,
        Err(fault) => return Err(DeliverFault::Issuer(fault)),
    };
    match genuine_under(alloc, profile, verifier, &issuer, statement) {
        Ok(facts) => Ok(facts),
        Err(fault) => Err(DeliverFault::Statement(fault)),
    }
}
