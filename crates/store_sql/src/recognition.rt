//! Whether the tables of a database are those of a store.

ghost use Rattle.std.specs.Prelude.{◌≡◌, ◌≢◌, ◌↔◌, ◌<◌, ◌∷◌, [], IsTrue, IfSome, IfNone};
ghost use Rattle.store_sql.specs.declared.origin.Origin.TheVariants.{Made, Migrated};
ghost use Rattle.store_sql.specs.Tables.{meta_table, issuers_table, ocsp_table, crls_table, entries_table, scoped_crls_table, scoped_entries_table, list_columns, entry_columns, status_columns, said_columns, ocsp_columns, issuers_key, ocsp_key, entries_key, scoped_crls_key, no_schema, version_1_schema, store_schema};

use crate::origin::Origin;
use crate::shape::{
    is_blob, is_id, is_index, is_integer, is_keyed_by, is_keyed_by_id, is_keyed_by_id_and,
};
use sqlite_schema::schema::{Column, Index, Schema, Table};

fn has_meta_columns(columns: &[Column]) -> bool
    ensures { IsTrue result ↔ (columns.now ≡ (meta_table 0).columns) }
{
    match columns {
        [id, version] => is_id(id, b"id") && is_integer(version, b"version"),
        _ => false,
    }
}

fn is_meta(table: &Table) -> bool
    ensures { IsTrue result ↔ (table.now ≡ meta_table 0) }
{
    is_keyed_by_id(table, b"meta", 0) && has_meta_columns(table.columns.as_slice())
}

fn has_issuer_columns(columns: &[Column]) -> bool
    ensures { IsTrue result ↔ (columns.now ≡ (issuers_table 1).columns) }
{
    match columns {
        [id, name, key_info] => {
            is_id(id, b"id") && is_blob(name, b"name") && is_blob(key_info, b"spki")
        }
        _ => false,
    }
}

fn is_issuers(table: &Table) -> bool
    ensures { IsTrue result ↔ (table.now ≡ issuers_table 1) }
{
    is_keyed_by_id_and(table, b"issuers", 1, &[2, 3])
        && has_issuer_columns(table.columns.as_slice())
}

fn has_status_columns(columns: &[Column]) -> bool
    ensures { IsTrue result ↔ (columns.now ≡ status_columns) }
{
    match columns {
        [until, status, reason] => {
            is_integer(until, b"until")
                && is_integer(status, b"status")
                && is_integer(reason, b"reason")
        }
        _ => false,
    }
}

fn has_said_columns(columns: &[Column]) -> bool
    ensures { IsTrue result ↔ (columns.now ≡ said_columns) }
{
    match columns {
        [this_update, produced_at, since, status @ ..] => {
            is_integer(this_update, b"this_update")
                && is_integer(produced_at, b"produced_at")
                && is_integer(since, b"since")
                && has_status_columns(status)
        }
        _ => false,
    }
}

fn has_ocsp_columns(columns: &[Column]) -> bool
    ensures { IsTrue result ↔ (columns.now ≡ ocsp_columns) }
{
    match columns {
        [issuer, name_hash, serial, said @ ..] => {
            is_integer(issuer, b"issuer")
                && is_blob(name_hash, b"name_hash")
                && is_blob(serial, b"serial")
                && has_said_columns(said)
        }
        _ => false,
    }
}

fn is_ocsp(table: &Table) -> bool
    ensures { IsTrue result ↔ (table.now ≡ ocsp_table 3) }
{
    is_keyed_by(table, b"ocsp", 3, &[1, 2, 3]) && has_ocsp_columns(table.columns.as_slice())
}

fn has_list_columns(columns: &[Column]) -> bool
    ensures { IsTrue result ↔ (columns.now ≡ list_columns) }
{
    match columns {
        [number, since, until] => {
            is_blob(number, b"number") && is_integer(since, b"since") && is_integer(until, b"until")
        }
        _ => false,
    }
}

fn has_crl_columns(columns: &[Column]) -> bool
    ensures { IsTrue result ↔ (columns.now ≡ (crls_table 5).columns) }
{
    match columns {
        [issuer, list @ ..] => is_id(issuer, b"issuer") && has_list_columns(list),
        _ => false,
    }
}

fn is_crls(table: &Table) -> bool
    ensures { IsTrue result ↔ (table.now ≡ crls_table 5) }
{
    is_keyed_by_id(table, b"crls", 5) && has_crl_columns(table.columns.as_slice())
}

fn has_listed_columns(columns: &[Column]) -> bool
    ensures { IsTrue result ↔ (columns.now ≡ entry_columns) }
{
    match columns {
        [serial, reason] => is_blob(serial, b"serial") && is_integer(reason, b"reason"),
        _ => false,
    }
}

fn has_entry_columns(columns: &[Column]) -> bool
    ensures { IsTrue result ↔ (columns.now ≡ (entries_table 6).columns) }
{
    match columns {
        [issuer, listed @ ..] => is_integer(issuer, b"issuer") && has_listed_columns(listed),
        _ => false,
    }
}

fn is_entries(table: &Table) -> bool
    ensures { IsTrue result ↔ (table.now ≡ entries_table 6) }
{
    is_keyed_by(table, b"entries", 6, &[1, 2]) && has_entry_columns(table.columns.as_slice())
}

fn has_scoped_crl_columns(columns: &[Column]) -> bool
    ensures { IsTrue result ↔ (columns.now ≡ (scoped_crls_table 0).columns) }
{
    match columns {
        [issuer, scope, list @ ..] => {
            is_integer(issuer, b"issuer") && is_integer(scope, b"scope") && has_list_columns(list)
        }
        _ => false,
    }
}

fn is_scoped_crls(table: &Table, tree: u32) -> bool
    ensures { IsTrue result ↔ (table.now ≡ scoped_crls_table tree) }
{
    is_keyed_by(table, b"scoped_crls", tree, &[1, 2])
        && has_scoped_crl_columns(table.columns.as_slice())
}

fn has_scoped_entry_columns(columns: &[Column]) -> bool
    ensures { IsTrue result ↔ (columns.now ≡ (scoped_entries_table 0).columns) }
{
    match columns {
        [id, issuer, scope, listed @ ..] => {
            is_id(id, b"id")
                && is_integer(issuer, b"issuer")
                && is_integer(scope, b"scope")
                && has_listed_columns(listed)
        }
        _ => false,
    }
}

fn is_scoped_entries(table: &Table, tree: u32) -> bool
    ensures { IsTrue result ↔ (table.now ≡ scoped_entries_table tree) }
{
    is_keyed_by_id(table, b"scoped_entries", tree)
        && has_scoped_entry_columns(table.columns.as_slice())
}

fn are_tables_made(tables: &[Table]) -> bool
    ensures { IsTrue result ↔ (tables.now ≡ (store_schema Made).tables) }
{
    match tables {
        [meta, issuers, ocsp, crls, entries] => {
            is_meta(meta)
                && is_issuers(issuers)
                && is_ocsp(ocsp)
                && is_scoped_crls(crls, 5)
                && is_scoped_entries(entries, 7)
        }
        _ => false,
    }
}

fn are_tables_of_version_1(tables: &[Table]) -> bool
    ensures { IsTrue result ↔ (tables.now ≡ version_1_schema.tables) }
{
    match tables {
        [meta, issuers, ocsp, crls, entries] => {
            is_meta(meta)
                && is_issuers(issuers)
                && is_ocsp(ocsp)
                && is_crls(crls)
                && is_entries(entries)
        }
        _ => false,
    }
}

fn are_tables_migrated(tables: &[Table]) -> bool
    ensures { IsTrue result ↔ (tables.now ≡ (store_schema Migrated).tables) }
{
    match tables {
        [old @ .., crls, entries] => {
            are_tables_of_version_1(old)
                && is_scoped_crls(crls, 8)
                && is_scoped_entries(entries, 10)
        }
        _ => false,
    }
}

fn is_issuers_key(index: &Index) -> bool
    ensures { IsTrue result ↔ (index.now ≡ issuers_key) }
{
    is_index(index, b"sqlite_autoindex_issuers_1", 1, &[2, 3])
}

fn is_ocsp_key(index: &Index) -> bool
    ensures { IsTrue result ↔ (index.now ≡ ocsp_key) }
{
    is_index(index, b"sqlite_autoindex_ocsp_1", 3, &[1, 2, 3])
}

fn is_entries_key(index: &Index) -> bool
    ensures { IsTrue result ↔ (index.now ≡ entries_key) }
{
    is_index(index, b"sqlite_autoindex_entries_1", 6, &[1, 2])
}

fn is_scoped_crls_key(index: &Index, table: u32) -> bool
    requires { table < 4294967295 }
    ensures { IsTrue result ↔ (index.now ≡ scoped_crls_key table) }
{
    is_index(index, b"sqlite_autoindex_scoped_crls_1", table, &[1, 2])
}

fn are_keys_made(indexes: &[Index]) -> bool
    ensures { IsTrue result ↔ (indexes.now ≡ (store_schema Made).indexes) }
{
    match indexes {
        [issuers, ocsp, crls] => {
            is_issuers_key(issuers) && is_ocsp_key(ocsp) && is_scoped_crls_key(crls, 5)
        }
        _ => false,
    }
}

fn are_keys_of_version_1(indexes: &[Index]) -> bool
    ensures { IsTrue result ↔ (indexes.now ≡ version_1_schema.indexes) }
{
    match indexes {
        [issuers, ocsp, entries] => {
            is_issuers_key(issuers) && is_ocsp_key(ocsp) && is_entries_key(entries)
        }
        _ => false,
    }
}

fn are_keys_migrated(indexes: &[Index]) -> bool
    ensures { IsTrue result ↔ (indexes.now ≡ (store_schema Migrated).indexes) }
{
    match indexes {
        [issuers, ocsp, entries, crls] => {
            is_issuers_key(issuers)
                && is_ocsp_key(ocsp)
                && is_entries_key(entries)
                && is_scoped_crls_key(crls, 8)
        }
        _ => false,
    }
}

fn is_made(schema: &Schema) -> bool
    ensures { IsTrue result ↔ (schema.now ≡ store_schema Made) }
{
    are_tables_made(schema.tables.as_slice())
        && are_keys_made(schema.indexes.as_slice())
        && schema.views.is_empty()
}

fn is_migrated(schema: &Schema) -> bool
    ensures { IsTrue result ↔ (schema.now ≡ store_schema Migrated) }
{
    are_tables_migrated(schema.tables.as_slice())
        && are_keys_migrated(schema.indexes.as_slice())
        && schema.views.is_empty()
}

/// Whether the tables are those of version 1.
pub fn is_version_1(schema: &Schema) -> bool
    ensures { IsTrue result ↔ (schema.now ≡ version_1_schema) }
{
    are_tables_of_version_1(schema.tables.as_slice())
        && are_keys_of_version_1(schema.indexes.as_slice())
        && schema.views.is_empty()
}

/// Whether there is no table, no index and no view.
pub fn is_empty(schema: &Schema) -> bool
    ensures { IsTrue result ↔ (schema.now ≡ no_schema) }
{
    schema.tables.is_empty() && schema.indexes.is_empty() && schema.views.is_empty()
}

/// How the tables came to be those of version 2; `None` if they are not.
pub fn origin_of(schema: &Schema) -> Option<Origin>
    ensures some { IfSome result (λ origin. schema.now ≡ store_schema origin) }
    ensures none { IfNone result ((origin : Origin) → schema.now ≢ store_schema origin) }
{
    if is_made(schema) {
        Some(Origin::Made)
    } else if is_migrated(schema) {
        Some(Origin::Migrated)
    } else {
        None
    }
}
