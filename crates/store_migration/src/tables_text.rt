//! The tables of version 1, as SQL.

ghost use Rattle.std.specs.Prelude.{◌≡◌};
ghost use Rattle.store_migration.specs.Texts.{version_1_text, AreTablesOfVersion1};

/// The SQL text of the tables of version 1, in the order in which they are made, each statement with its semicolon.
#[tactic(auto, using(crate::proofs::Old::are_tables))]
pub fn version_1_tables() -> &'static str
    ensures text { result.now ≡ version_1_text }
    ensures tables { AreTablesOfVersion1 }
{
    "CREATE TABLE meta (id INTEGER PRIMARY KEY, version INTEGER NOT NULL) STRICT;\nCREATE TABLE issuers (id INTEGER PRIMARY KEY, name BLOB NOT NULL, spki BLOB NOT NULL, UNIQUE (name, spki)) STRICT;\nCREATE TABLE ocsp (issuer INTEGER NOT NULL, name_hash BLOB NOT NULL, serial BLOB NOT NULL, this_update INTEGER NOT NULL, produced_at INTEGER NOT NULL, since INTEGER NOT NULL, until INTEGER NOT NULL, status INTEGER NOT NULL, reason INTEGER NOT NULL, PRIMARY KEY (issuer, name_hash, serial)) STRICT;\nCREATE TABLE crls (issuer INTEGER PRIMARY KEY, number BLOB NOT NULL, since INTEGER NOT NULL, until INTEGER NOT NULL) STRICT;\nCREATE TABLE entries (issuer INTEGER NOT NULL, serial BLOB NOT NULL, reason INTEGER NOT NULL, PRIMARY KEY (issuer, serial)) STRICT;\n"
}
