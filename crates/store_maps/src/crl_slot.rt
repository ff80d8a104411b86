//! Look-ups of revocation lists.

ghost use Rattle.std.specs.Prelude.{◌≡◌, ◌<◌};
ghost use Rattle.statements_facts.specs.Fact.{seen_issuer};
ghost use Rattle.store_sql.specs.Statements.{CommitsNothing};
ghost use Rattle.store_maps.specs.Held.{seen_with_reason, IsCrlUnder, IsCrlHeld};
ghost use Rattle.statements_facts.specs.Answer.{seen_crl};
ghost use Rattle.store_sql.specs.Inside.{inside, IsInTransaction, KeepsReference, SucceedsOnlyIfOpen};
ghost use Rattle.store_maps.specs.LooksUp.{LooksUpInside, CausedOverStore};
ghost use Rattle.store_rows.specs.Steps.{FindsIn, CausedIn};

use sqlite::{Alter, Transaction};
use statements_facts::{CrlAnswer, Issuer, Scope};
use store_rows::{Head, ListKey, find_crl, find_entry, find_issuer};
use store_sql::StoreFault;

fn with_reason(head: Head, reason: Option<u8>) -> CrlAnswer
    ensures { seen_crl result ≡ seen_with_reason head reason }
{
    CrlAnswer {
        number: head.number,
        from: head.from,
        until: head.until,
        reason,
    }
}

pub(crate) fn look_under<S: Alter>(
    tx: &mut Transaction<'_, S>,
    list: &ListKey,
    serial: &[u8],
) -> Result<Option<CrlAnswer>, StoreFault>
    requires issuer { list.now.issuer < 536870911 }
    requires inside { IsInTransaction S.Store tx.old }
    ensures same_reference { KeepsReference tx.old tx.new }
    ensures finds { FindsIn S.Store tx.old tx.new (IsCrlUnder list.now serial.now) result }
    ensures caused { CausedIn S.Store tx.old tx.new result }
    ensures survives { CommitsNothing (inside S.Store tx.old) (inside S.Store tx.new) }
{
    let Some(head) = find_crl(tx, list.issuer, list.scope)? else {
        return Ok(None);
    };
    let reason = find_entry(tx, list, serial)?;
    Ok(Some(with_reason(head, reason)))
}

/// The list held of an issuer and a scope: its number and window, and its reason for one serial number.
pub fn crl<S: Alter>(
    tx: &mut Transaction<'_, S>,
    issuer: &Issuer<'_>,
    scope: Scope,
    serial: &[u8],
) -> Result<Option<CrlAnswer>, StoreFault>
    requires inside { IsInTransaction S.Store tx.old }
    ensures same_reference { KeepsReference tx.old tx.new }
    ensures looks_up { LooksUpInside S.Store tx.old tx.new
        (IsCrlHeld (seen_issuer issuer.now) scope serial.now) result }
    ensures caused { CausedOverStore S.Store tx.old tx.new result }
    ensures open { SucceedsOnlyIfOpen S.Store tx.old tx.new result }
    ensures survives { CommitsNothing (inside S.Store tx.old) (inside S.Store tx.new) }
{
    let Some(id) = find_issuer(tx, issuer)? else {
        return Ok(None);
    };
    let list = ListKey { issuer: id, scope };
    look_under(tx, &list, serial)
}
