//! Revocation lists, without their entries.

ghost use Rattle.std.specs.Prelude.{◌≡◌, ◌≢◌, ℕ, pos, length, Err, IfOk, IfSome, IfNone};
ghost use Rattle.asn.specs.Integer.{binary_value};
ghost use Rattle.asn.specs.NumberLaws.{number_octets};
ghost use Rattle.store_sql.specs.Statements.{CommitsNothing};
ghost use Rattle.store_rows.specs.Contents.{CrlHead, head_cells, scope_number};
ghost use Rattle.store_rows.specs.Holding.{IsNumbered, with_head};
ghost use Rattle.store_rows.specs.Seen.{seen_head};
ghost use Rattle.store_sql.specs.Inside.{inside, IsInTransaction, KeepsReference, RunsIn};
ghost use Rattle.store_rows.specs.Found.{IsHeadOf};
ghost use Rattle.store_rows.specs.Reading.{SpellsNumber, IsShown, AreShown, RefusesRows};
ghost use Rattle.store_rows.specs.Bound.{head_insertion};
ghost use Rattle.store_rows.specs.Room.{CrlsLeaveAnId};
ghost use Rattle.store_rows.specs.Steps.{FindsIn, CausedIn, CausedIfRoomIn, ChangesIn};

use crate::cell::{integer, octets};
use asn::Number20;
use sqlite::{Alter, Error, Row, Transaction};
use statements_facts::Scope;
use store_sql::{CrlCells, CrlKey, StoreFault, crl_rows, delete_crl, insert_crl};

/// A list without its entries. Times are in seconds from 1970-01-01T00:00:00Z.
#[derive(Clone, Copy)]
pub struct Head {
    pub number: Number20,
    pub from: i64,
    pub until: i64,
}

/// The number of a scope in the tables.
pub fn scope_number(scope: Scope) -> u8
    ensures { result ≡ scope_number scope }
{
    match scope {
        Scope::All => 0,
        Scope::User => 1,
        Scope::Ca => 2,
    }
}

/// The number that twenty octets spell; `None` if there are not twenty.
pub fn number_of(octets: &[u8]) -> Option<Number20>
    ensures some { IfSome result (SpellsNumber octets.now) }
    ensures none { IfNone result ((number : ℕ) → octets.now ≢ number_octets 20 number) }
{
    match octets.try_into() {
        Ok(octets) => Some(Number20::from_octets(octets)),
        Err(_) => None,
    }
}

fn read_head(row: &Row) -> Result<Head, StoreFault>
    ensures ok { IfOk result (IsShown seen_head head_cells IsNumbered row.now) }
    ensures schema { result ≡ Err StoreFault.Schema → (head : CrlHead) → row.now ≢ head_cells head }
    ensures cell { result ≢ Err StoreFault.Store }
{
    let octets = octets(row, 0)?;
    let from = integer(row, 1)?;
    let until = integer(row, 2)?;
    let Some(number) = number_of(octets.as_slice()) else {
        return Err(StoreFault::Schema);
    };
    Ok(Head {
        number,
        from,
        until,
    })
}

fn read_heads(rows: &[Row]) -> Result<Option<Head>, StoreFault>
    ensures ok { IfOk result (AreShown seen_head head_cells IsNumbered rows.now) }
    ensures schema { RefusesRows head_cells IsNumbered rows.now result }
    ensures cell { result ≢ Err StoreFault.Store }
{
    match rows {
        [] => Ok(None),
        [row] => Ok(Some(read_head(row)?)),
        _ => Err(StoreFault::Schema),
    }
}

/// The list of an issuer and a scope, if one is held.
pub fn find_crl<S: Alter>(
    tx: &mut Transaction<'_, S>,
    issuer: u32,
    scope: Scope,
) -> Result<Option<Head>, StoreFault>
    requires inside { IsInTransaction S.Store tx.old }
    ensures same_reference { KeepsReference tx.old tx.new }
    ensures finds { FindsIn S.Store tx.old tx.new (IsHeadOf issuer scope) result }
    ensures caused { CausedIn S.Store tx.old tx.new result }
    ensures survives { CommitsNothing (inside S.Store tx.old) (inside S.Store tx.new) }
{
    let key = key_of(issuer, scope);
    let rows = crl_rows(tx, &key)?;
    read_heads(rows.as_slice())
}

fn key_of(issuer: u32, scope: Scope) -> CrlKey
    ensures issuer { result.issuer ≡ pos issuer }
    ensures scope { result.scope ≡ pos (scope_number scope) }
{
    CrlKey {
        issuer: i64::from(issuer),
        scope: i64::from(scope_number(scope)),
    }
}

/// Twenty octets spell a number in just one way.
fn is_spelled(octets: &[u8])
    requires { length octets.now ≡ 20 }
    ensures { octets.now ≡ number_octets 20 (binary_value octets.now) }
{
    let _count = octets.len();
}

fn add_crl<S: Alter>(tx: &mut Transaction<'_, S>, key: &CrlKey, head: &Head) -> Result<usize, Error>
    ensures same_reference { KeepsReference tx.old tx.new }
    ensures runs { RunsIn S.Store tx.old tx.new (head_insertion key.now head.now) result }
    ensures survives { CommitsNothing (inside S.Store tx.old) (inside S.Store tx.new) }
{
    let number = head.number.to_octets();
    is_spelled(&number);
    let cells = CrlCells {
        number: &number,
        since: head.from,
        until: head.until,
    };
    insert_crl(tx, key, &cells)
}

/// Puts a list, without its entries, in the place of that of its issuer and scope.
pub fn replace_crl<S: Alter>(
    tx: &mut Transaction<'_, S>,
    issuer: u32,
    scope: Scope,
    head: &Head,
) -> Result<(), StoreFault>
    requires inside { IsInTransaction S.Store tx.old }
    ensures same_reference { KeepsReference tx.old tx.new }
    ensures changes { ChangesIn S.Store tx.old tx.new (with_head issuer scope head.now) result }
    ensures caused { CausedIfRoomIn S.Store tx.old tx.new CrlsLeaveAnId result }
    ensures survives { CommitsNothing (inside S.Store tx.old) (inside S.Store tx.new) }
{
    let key = key_of(issuer, scope);
    delete_crl(tx, &key)?;
    add_crl(tx, &key, head)?;
    Ok(())
}
