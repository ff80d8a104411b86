//! Requests, one at a time.
ghost use Rattle.std.specs.Prelude.{◌≡◌};
ghost use Rattle.cli_requests.specs.Requests.{seen_request};
ghost use Rattle.cli_steps.specs.Held.{holding_of};
ghost use Rattle.cli_steps.specs.Steps.{IsStep};
ghost use Rattle.cli_steps.specs.Ways.{MovesParty};

use crate::answer::SessionAnswer;
use crate::believing::{believe, forget};
use crate::checking::check;
use crate::delivering::deliver;
use crate::finding::find;
use crate::keeper::Keeper;
use crate::listing::list;
use crate::operands::OperandSource;
use crate::party::Party;
use crate::policy_checking::check_with_policies;
use crate::printing::{show_prints, show_search_prints};
use cli_failures::Source;
use cli_requests::Request;
use std::alloc::Global;

/// Does what the request asks for, and answers it. Where a failure is answered, nothing changes. Operands that name files are read from
/// the source, in the order of the request.
pub fn step<'a, K: Keeper, S: Source>(
    party: &mut Party<K>,
    source: &S,
    alloc: Global,
    request: Request<'a>,
) -> SessionAnswer<'a>
    ensures clean { K.is_clean party.new.keeper → K.is_clean party.old.keeper }
    ensures steps { MovesParty K.is_clean K.keeps party.old party.new (λ old new.
        IsStep (holding_of (S.holds source.now)) (seen_request request.entry) old new result) }
{
    let operands = OperandSource { source, alloc };
    match request {
        Request::Nothing => SessionAnswer::Nothing,
        Request::Believe(print) => believe(party, print),
        Request::Deliver { issuer, file } => deliver(party, &operands, alloc, issuer, file),
        Request::Check(words) => check(party, &operands, alloc, &words),
        Request::CheckWithPolicies { query, policies } => {
            check_with_policies(party, &operands, alloc, &query, &policies)
        }
        Request::Find { words, name } => match &name {
            Some(name) => find(party, &operands, alloc, &words, Some(name.as_str())),
            None => find(party, &operands, alloc, &words, None),
        },
        Request::Prints {
            kind,
            with_parts,
            issuer,
            file,
        } => show_prints(&operands, alloc, kind, with_parts, issuer, file),
        Request::SearchPrints { with_parts, files } => {
            show_search_prints(&operands, alloc, with_parts, files)
        }
        Request::List(moment) => list(party, alloc, moment),
        Request::Forget => {
            forget(party);
            SessionAnswer::Forgets
        }
        Request::Quit => SessionAnswer::Ends,
    }
}
