//! What is held, as lines of text.
ghost use Rattle.std.specs.Prelude.{◌≡◌, IfErr, IfOk, map, option_map};
ghost use Rattle.store_listing.specs.Listing.{seen_held_issuer, seen_listing};
ghost use Rattle.cli_failures.specs.declared.failure.Failure.TheVariants.{NoMemory};
ghost use Rattle.cli_listing.specs.ListingText.{IdsRise, listing_text};
ghost use Rattle.cli_steps.specs.Keeping.{AnswersWithLines};
ghost use Rattle.cli_steps.specs.Steps.{ListsHeld};
ghost use Rattle.cli_steps.specs.Ways.{MovesParty};

use crate::answer::SessionAnswer;
use crate::keeper::Keeper;
use crate::party::Party;
use cli_failures::Failure;
use cli_listing::listing_to;
use cli_operands::read_moment;
use std::alloc::Global;
use store_listing::Listing;

/// The lines of what was listed, with whether each statement is in force at the moment, if one is given. They stand in memory, so that
/// nothing is written of a store that does not answer.
pub fn listing_lines<'a>(
    alloc: Global,
    all: &Listing,
    at: Option<i64>,
) -> Result<Vec<u8>, Failure<'a>>
    ensures lines { IfOk result (λ text. IdsRise (map seen_held_issuer all.now.issuers.items)
        → text.items ≡ listing_text at (seen_listing all.now)) }
    ensures fails { IfErr result (λ failure. failure ≡ NoMemory) }
{
    let mut text = Vec::new(alloc);
    match listing_to(all, at, &mut text) {
        Ok(()) => Ok(text),
        Err(_) => Err(Failure::NoMemory),
    }
}

// The lines of what the keeper holds.
fn held_lines<'a, K: Keeper>(
    keeper: &mut K,
    alloc: Global,
    at: Option<i64>,
) -> Result<Vec<u8>, Failure<'a>>
    ensures clean { K.is_clean keeper.new → K.is_clean keeper.old }
    ensures lists { K.is_clean keeper.new
        → AnswersWithLines (K.keeps keeper.old) (K.keeps keeper.new) at result }
{
    match keeper.list(alloc) {
        Ok(all) => listing_lines(alloc, &all, at),
        Err(failure) => Err(failure),
    }
}

/// Lists what is held, with whether each statement is in force at the moment, if one is named.
pub(crate) fn list<'a, K: Keeper>(
    party: &mut Party<K>,
    alloc: Global,
    moment: Option<&str>,
) -> SessionAnswer<'a>
    ensures clean { K.is_clean party.new.keeper → K.is_clean party.old.keeper }
    ensures steps { MovesParty K.is_clean K.keeps party.old party.new (λ old new.
        ListsHeld (option_map (λ text. text.now) moment.entry) old result × (new ≡ old)) }
{
    let at = match read_moment(moment) {
        Ok(at) => at,
        Err(failure) => return SessionAnswer::Failed(failure),
    };
    match held_lines(&mut party.keeper, alloc, at) {
        Ok(text) => SessionAnswer::Listed(text),
        Err(failure) => SessionAnswer::Failed(failure),
    }
}
