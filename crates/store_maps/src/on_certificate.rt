//! Look-ups of all that is held of one certificate.

ghost use Rattle.std.specs.Prelude.{◌<◌};
ghost use Rattle.statements_facts.specs.Fact.{seen_issuer};
ghost use Rattle.store_sql.specs.Statements.{CommitsNothing};
ghost use Rattle.store_sql.specs.Inside.{inside, IsInTransaction, KeepsReference, SucceedsOnlyIfOpen};
ghost use Rattle.store_rows.specs.Steps.{FindsIn, CausedIn};
ghost use Rattle.store_maps.specs.Answers.{AreAnswersHeld, AreAnswersUnder, AreListsUnder};
ghost use Rattle.store_maps.specs.LooksUp.{LooksUpInside, CausedOverStore};

use crate::crl_slot::look_under;
use sqlite::{Alter, Transaction};
use statements_facts::{Answers, CrlAnswer, Issuer, Scope};
use store_rows::{ListKey, find_issuer, find_single};
use store_sql::StoreFault;

/// A certificate of an issuer, as statements name it.
#[derive(Clone, Copy)]
pub struct CertificateKey<'x> {
    /// The scope of the lists that are about certificates of its kind alone.
    pub kind: Scope,
    /// The SHA-1 hash of its issuer field, as it spells it.
    pub name_hash: &'x [u8],
    /// The contents octets of its serial number.
    pub serial: &'x [u8],
}

fn lists_under<S: Alter>(
    tx: &mut Transaction<'_, S>,
    issuer: u32,
    key: &CertificateKey<'_>,
) -> Result<(Option<CrlAnswer>, Option<CrlAnswer>), StoreFault>
    requires issuer { issuer < 536870911 }
    requires inside { IsInTransaction S.Store tx.old }
    ensures same_reference { KeepsReference tx.old tx.new }
    ensures finds { FindsIn S.Store tx.old tx.new (AreListsUnder issuer key.now) result }
    ensures caused { CausedIn S.Store tx.old tx.new result }
    ensures survives { CommitsNothing (inside S.Store tx.old) (inside S.Store tx.new) }
{
    let list = ListKey {
        issuer,
        scope: Scope::All,
    };
    let all = look_under(tx, &list, key.serial)?;
    let list = ListKey {
        issuer,
        scope: key.kind,
    };
    let own = look_under(tx, &list, key.serial)?;
    Ok((all, own))
}

fn answers_under<S: Alter>(
    tx: &mut Transaction<'_, S>,
    issuer: u32,
    key: &CertificateKey<'_>,
) -> Result<Answers, StoreFault>
    requires issuer { issuer < 536870911 }
    requires inside { IsInTransaction S.Store tx.old }
    ensures same_reference { KeepsReference tx.old tx.new }
    ensures finds { FindsIn S.Store tx.old tx.new (AreAnswersUnder issuer key.now) result }
    ensures caused { CausedIn S.Store tx.old tx.new result }
    ensures survives { CommitsNothing (inside S.Store tx.old) (inside S.Store tx.new) }
{
    let (all, own) = lists_under(tx, issuer, key)?;
    let ocsp = find_single(tx, issuer, key.name_hash, key.serial)?;
    Ok(Answers { all, own, ocsp })
}

/// What is held of a certificate of an issuer: the lists of both scopes that may be about it, and what a response says of it. The
/// issuer's id is looked for once.
pub fn answers_on<S: Alter>(
    tx: &mut Transaction<'_, S>,
    issuer: &Issuer<'_>,
    key: &CertificateKey<'_>,
) -> Result<Answers, StoreFault>
    requires inside { IsInTransaction S.Store tx.old }
    ensures same_reference { KeepsReference tx.old tx.new }
    ensures looks_up { LooksUpInside S.Store tx.old tx.new
        (AreAnswersHeld (seen_issuer issuer.now) key.now) result }
    ensures caused { CausedOverStore S.Store tx.old tx.new result }
    ensures open { SucceedsOnlyIfOpen S.Store tx.old tx.new result }
    ensures survives { CommitsNothing (inside S.Store tx.old) (inside S.Store tx.new) }
{
    let Some(id) = find_issuer(tx, issuer)? else {
        return Ok(Answers {
            all: None,
            own: None,
            ocsp: None,
        });
    };
    answers_under(tx, id, key)
}
