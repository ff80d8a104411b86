//! Look-ups of what responses say.

ghost use Rattle.statements_facts.specs.Fact.{seen_issuer};
ghost use Rattle.store_sql.specs.Statements.{CommitsNothing};
ghost use Rattle.store_sql.specs.Inside.{inside, IsInTransaction, KeepsReference, SucceedsOnlyIfOpen};
ghost use Rattle.store_maps.specs.LooksUp.{LooksUpInside, CausedOverStore};
ghost use Rattle.store_maps.specs.Held.{IsOcspHeld};

use sqlite::{Alter, Transaction};
use statements_facts::{Issuer, OcspAnswer};
use store_rows::{find_issuer, find_single};
use store_sql::StoreFault;

/// What is held of one certificate of an issuer, by the hash of the issuer's name, as the certificate spells it, and the contents octets
/// of its serial number.
pub fn ocsp<'x, S: Alter>(
    tx: &mut Transaction<'_, S>,
    issuer: &Issuer<'_>,
    name_hash: &'x [u8],
    serial: &'x [u8],
) -> Result<Option<OcspAnswer>, StoreFault>
    requires inside { IsInTransaction S.Store tx.old }
    ensures same_reference { KeepsReference tx.old tx.new }
    ensures looks_up { LooksUpInside S.Store tx.old tx.new
        (IsOcspHeld (seen_issuer issuer.now) name_hash.now serial.now) result }
    ensures caused { CausedOverStore S.Store tx.old tx.new result }
    ensures open { SucceedsOnlyIfOpen S.Store tx.old tx.new result }
    ensures survives { CommitsNothing (inside S.Store tx.old) (inside S.Store tx.new) }
{
    let Some(id) = find_issuer(tx, issuer)? else {
        return Ok(None);
    };
    find_single(tx, id, name_hash, serial)
}
