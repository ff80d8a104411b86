//! Deliveries: the facts of the statement in a file or an operand are passed to a receiver.
ghost use Rattle.std.specs.Prelude.{◌≡◌};
ghost use Rattle.cert.specs.Certificate.{seen_certificate};
ghost use Rattle.statements.specs.Statement.{genuine_statement_under};
ghost use Rattle.cli_steps.specs.Passing.{DeliversTo, DeliversUnder, TakesSaid};
ghost use Rattle.cli_steps.specs.Steps.{DeliversFile};
ghost use Rattle.cli_steps.specs.Ways.{MovesParty};

use crate::answer::SessionAnswer;
use crate::keeper::Keeper;
use crate::party::Party;
use crate::receiver::TakeFacts;
use cert::Certificate;
use cli_failures::{Extent, Failure, Source, read_certificate, read_facts};
use path_verifiers::Verifier;
use statements_facts::{Counts, Profile};
use std::alloc::Global;

// What these octets of the file say is taken, under the issuer of the certificate.
fn deliver_statement<'a, R: TakeFacts<'a>, V: Verifier>(
    receiver: &mut R,
    alloc: Global,
    profile: Profile,
    verifier: &V,
    issuer: &Certificate<'_>,
    statement: &[u8],
    file: &'a str,
) -> Result<Counts, Failure<'a>>
    ensures { TakesSaid (genuine_statement_under profile (V.accepts verifier.now)
        (seen_certificate issuer.now) statement.now) file.entry.now R.takes receiver.old
        receiver.new result }
{
    let facts = read_facts(alloc, profile, verifier, issuer, file, statement)?;
    receiver.take_facts(&facts)
}

// What the statement in the file says is taken, under the issuer of the certificate.
fn deliver_under<'a, R: TakeFacts<'a>, V: Verifier, S: Source>(
    receiver: &mut R,
    source: &S,
    alloc: Global,
    verifier: &V,
    issuer: &Certificate<'_>,
    file: &'a str,
) -> Result<Counts, Failure<'a>>
    ensures { DeliversUnder (S.holds source.now) (V.accepts verifier.now)
        (seen_certificate issuer.now) file.entry.now R.takes receiver.old receiver.new result }
{
    let statement = source.octets_of(file, Extent::Value)?;
    deliver_statement(
        receiver,
        alloc,
        source.profile(),
        verifier,
        issuer,
        statement.as_slice(),
        file,
    )
}

/// What the statement in the file says is taken, under the issuer whose certificate the other file holds. Both are read once, the
/// certificate first.
pub(crate) fn deliver_to<'a, R: TakeFacts<'a>, V: Verifier, S: Source>(
    receiver: &mut R,
    source: &S,
    alloc: Global,
    verifier: &V,
    issuer: &'a str,
    file: &'a str,
) -> Result<Counts, Failure<'a>>
    ensures { DeliversTo (S.holds source.now) (V.accepts verifier.now) issuer.entry.now
        file.entry.now R.takes receiver.old receiver.new result }
{
    let octets = source.octets_of(issuer, Extent::Value)?;
    let certificate = read_certificate(alloc, issuer, octets.as_slice())?;
    deliver_under(receiver, source, alloc, verifier, &certificate, file)
}

/// Delivers the statement in the operand to a session's party, under the issuer whose certificate the other operand holds.
pub(crate) fn deliver<'a, K: Keeper, S: Source>(
    party: &mut Party<K>,
    source: &S,
    alloc: Global,
    issuer: &'a str,
    file: &'a str,
) -> SessionAnswer<'a>
    ensures clean { K.is_clean party.new.keeper → K.is_clean party.old.keeper }
    ensures steps { MovesParty K.is_clean K.keeps party.old party.new (λ old new.
        DeliversFile (S.holds source.now) issuer.entry.now file.entry.now old new result) }
{
    let (keeper, verifier) = (&mut party.keeper, &party.believed);
    match deliver_to(keeper, source, alloc, verifier, issuer, file) {
        Ok(counts) => SessionAnswer::Delivered(counts),
        Err(failure) => SessionAnswer::Failed(failure),
    }
}
