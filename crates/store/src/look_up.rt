//! Look-ups, in a transaction that is dropped.

ghost use Rattle.std.specs.Prelude.{◌≡◌, false};
ghost use Rattle.sqlite.specs.Held.{state};
ghost use Rattle.statements_facts.specs.Fact.{seen_issuer};
ghost use Rattle.store_sql.specs.Statements.{CommitsNothing, IsDurable};
ghost use Rattle.store_adoption.specs.Creates.{IsSettled};
ghost use Rattle.store.specs.Adopts.{CausedOn, FindsHeld, FindsOnlyIfOpen, StaysIfOpen};
ghost use Rattle.store_maps.specs.Held.{IsCrlHeld, IsOcspHeld};
ghost use Rattle.sqlite.specs.State.{KeepsCommit};

use sqlite::{Alter, Connection};
use statements_facts::{CrlAnswer, Issuer, OcspAnswer, Scope};
use store_maps::{crl, ocsp};
use store_sql::StoreFault;

fn crl_in_transaction<S: Alter>(
    conn: &mut Connection<S>,
    issuer: &Issuer<'_>,
    scope: Scope,
    serial: &[u8],
) -> Result<Option<CrlAnswer>, StoreFault>
    requires idle { conn.old.in_transaction ≡ false }
    ensures idle { conn.new.in_transaction ≡ false }
    ensures looks_at { FindsHeld KeepsCommit (state S.Store conn.old) (state S.Store conn.new)
        (IsCrlHeld (seen_issuer issuer.now) scope serial.now) result }
    ensures caused { CausedOn (state S.Store conn.old) (state S.Store conn.new) result }
    ensures open { FindsOnlyIfOpen (state S.Store conn.old) (state S.Store conn.new) result }
    ensures survives { CommitsNothing (state S.Store conn.old) (state S.Store conn.new) }
{
    let mut tx = conn.transaction();
    crl(&mut tx, issuer, scope, serial)
}

/// The list held of an issuer and a scope: its number and window, and its reason for one serial number; as `Store::crl`, over a
/// connection.
pub fn look_up_crl<S: Alter>(
    conn: &mut Connection<S>,
    issuer: &Issuer<'_>,
    scope: Scope,
    serial: &[u8],
) -> Result<Option<CrlAnswer>, StoreFault>
    requires idle { conn.old.in_transaction ≡ false }
    ensures idle { conn.new.in_transaction ≡ false }
    ensures looks_up { FindsHeld StaysIfOpen (state S.Store conn.old) (state S.Store conn.new)
        (IsCrlHeld (seen_issuer issuer.now) scope serial.now) result }
    ensures caused { CausedOn (state S.Store conn.old) (state S.Store conn.new) result }
    ensures open { FindsOnlyIfOpen (state S.Store conn.old) (state S.Store conn.new) result }
    ensures settled { IsSettled (state S.Store conn.old) × IsSettled (state S.Store conn.new) }
    ensures durable { IsDurable (state S.Store conn.new) }
    ensures survives { CommitsNothing (state S.Store conn.old) (state S.Store conn.new) }
{
    let _before = conn.is_autocommit();
    let held = crl_in_transaction(conn, issuer, scope, serial);
    let _after = conn.is_autocommit();
    held
}

fn ocsp_in_transaction<'x, S: Alter>(
    conn: &mut Connection<S>,
    issuer: &Issuer<'_>,
    name_hash: &'x [u8],
    serial: &'x [u8],
) -> Result<Option<OcspAnswer>, StoreFault>
    requires idle { conn.old.in_transaction ≡ false }
    ensures idle { conn.new.in_transaction ≡ false }
    ensures looks_at { FindsHeld KeepsCommit (state S.Store conn.old) (state S.Store conn.new)
        (IsOcspHeld (seen_issuer issuer.now) name_hash.now serial.now) result }
    ensures caused { CausedOn (state S.Store conn.old) (state S.Store conn.new) result }
    ensures open { FindsOnlyIfOpen (state S.Store conn.old) (state S.Store conn.new) result }
    ensures survives { CommitsNothing (state S.Store conn.old) (state S.Store conn.new) }
{
    let mut tx = conn.transaction();
    ocsp(&mut tx, issuer, name_hash, serial)
}

/// What is held of one certificate of an issuer; as `Store::ocsp`, over a connection.
pub fn look_up_ocsp<'x, S: Alter>(
    conn: &mut Connection<S>,
    issuer: &Issuer<'_>,
    name_hash: &'x [u8],
    serial: &'x [u8],
) -> Result<Option<OcspAnswer>, StoreFault>
    requires idle { conn.old.in_transaction ≡ false }
    ensures idle { conn.new.in_transaction ≡ false }
    ensures looks_up { FindsHeld StaysIfOpen (state S.Store conn.old) (state S.Store conn.new)
        (IsOcspHeld (seen_issuer issuer.now) name_hash.now serial.now) result }
    ensures caused { CausedOn (state S.Store conn.old) (state S.Store conn.new) result }
    ensures open { FindsOnlyIfOpen (state S.Store conn.old) (state S.Store conn.new) result }
    ensures settled { IsSettled (state S.Store conn.old) × IsSettled (state S.Store conn.new) }
    ensures durable { IsDurable (state S.Store conn.new) }
    ensures survives { CommitsNothing (state S.Store conn.old) (state S.Store conn.new) }
{
    let _before = conn.is_autocommit();
    let said = ocsp_in_transaction(conn, issuer, name_hash, serial);
    let _after = conn.is_autocommit();
    said
}
