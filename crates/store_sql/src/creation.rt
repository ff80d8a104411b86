//! The tables are made.

ghost use Rattle.store_sql.specs.Statements.{CommitsNothing};
ghost use Rattle.store_sql.specs.Texts.{create_meta, create_issuers, create_ocsp, create_scoped_crls, create_scoped_entries};
ghost use Rattle.store_sql.specs.Inside.{inside, KeepsReference, RunsIn};
ghost use Rattle.store_sql.specs.Bindings.{without_params};

use sqlite::{Alter, Error, Transaction};

/// Makes the table of the version.
pub fn create_meta<S: Alter>(tx: &mut Transaction<'_, S>) -> Result<usize, Error>
    ensures same_reference { KeepsReference tx.old tx.new }
    ensures runs { RunsIn S.Store tx.old tx.new (without_params create_meta) result }
    ensures survives { CommitsNothing (inside S.Store tx.old) (inside S.Store tx.new) }
{
    tx.execute(
        "CREATE TABLE meta (id INTEGER PRIMARY KEY, version INTEGER NOT NULL) STRICT",
        &[],
    )
}

/// Makes the table of issuers.
pub fn create_issuers<S: Alter>(tx: &mut Transaction<'_, S>) -> Result<usize, Error>
    ensures same_reference { KeepsReference tx.old tx.new }
    ensures runs { RunsIn S.Store tx.old tx.new (without_params create_issuers) result }
    ensures survives { CommitsNothing (inside S.Store tx.old) (inside S.Store tx.new) }
{
    tx.execute(
        "CREATE TABLE issuers (id INTEGER PRIMARY KEY, name BLOB NOT NULL, spki BLOB NOT NULL, UNIQUE (name, spki)) STRICT",
        &[],
    )
}

/// Makes the table of what responses say.
pub fn create_ocsp<S: Alter>(tx: &mut Transaction<'_, S>) -> Result<usize, Error>
    ensures same_reference { KeepsReference tx.old tx.new }
    ensures runs { RunsIn S.Store tx.old tx.new (without_params create_ocsp) result }
    ensures survives { CommitsNothing (inside S.Store tx.old) (inside S.Store tx.new) }
{
    tx.execute(
        "CREATE TABLE ocsp (issuer INTEGER NOT NULL, name_hash BLOB NOT NULL, serial BLOB NOT NULL, this_update INTEGER NOT NULL, produced_at INTEGER NOT NULL, since INTEGER NOT NULL, until INTEGER NOT NULL, status INTEGER NOT NULL, reason INTEGER NOT NULL, PRIMARY KEY (issuer, name_hash, serial)) STRICT",
        &[],
    )
}

/// Makes the table of lists.
pub fn create_scoped_crls<S: Alter>(tx: &mut Transaction<'_, S>) -> Result<usize, Error>
    ensures same_reference { KeepsReference tx.old tx.new }
    ensures runs { RunsIn S.Store tx.old tx.new (without_params create_scoped_crls) result }
    ensures survives { CommitsNothing (inside S.Store tx.old) (inside S.Store tx.new) }
{
    tx.execute(
        "CREATE TABLE scoped_crls (issuer INTEGER NOT NULL, scope INTEGER NOT NULL, number BLOB NOT NULL, since INTEGER NOT NULL, until INTEGER NOT NULL, PRIMARY KEY (issuer, scope)) STRICT",
        &[],
    )
}

/// Makes the table of their entries.
pub fn create_scoped_entries<S: Alter>(tx: &mut Transaction<'_, S>) -> Result<usize, Error>
    ensures same_reference { KeepsReference tx.old tx.new }
    ensures runs { RunsIn S.Store tx.old tx.new (without_params create_scoped_entries) result }
    ensures survives { CommitsNothing (inside S.Store tx.old) (inside S.Store tx.new) }
{
    tx.execute(
        "CREATE TABLE scoped_entries (id INTEGER PRIMARY KEY, issuer INTEGER NOT NULL, scope INTEGER NOT NULL, serial BLOB NOT NULL, reason INTEGER NOT NULL) STRICT",
        &[],
    )
}
