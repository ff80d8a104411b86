//! The form of a table: its keys, and no other rule.

ghost use Rattle.std.specs.Prelude.{◌≡◌, ◌↔◌, ◌<◌, ◌∷◌, [], IsTrue, true, false};
ghost use Rattle.sqlite_value.specs.Keys.{plain};
ghost use Rattle.store_sql.specs.Tables.{column_with, keyed_by_id, keyed_by, key_of, without_rules, no_stamps, table_named, plainly_named, keyed_twice};

use sqlite_items::Items;
use sqlite_schema::code::Terms;
use sqlite_schema::schema::{Column, Index, Kind, Stamps, Table};
use sqlite_value::keys::{Collation, Order};
use sqlite_value::value::Value;

fn is_column(column: &Column, name: &[u8], kind: Kind, not_null: bool) -> bool
    ensures { IsTrue result ↔ (column.now ≡ column_with name.now kind not_null) }
{
    column.name.as_slice() == name
        && column.kind == kind
        && column.is_strict
        && column.not_null == not_null
        && matches!(&column.default, Value::Null)
        && column.collation == Collation::Binary
}

/// INTEGER PRIMARY KEY.
pub(crate) fn is_id(column: &Column, name: &[u8]) -> bool
    ensures { IsTrue result ↔ (column.now ≡ column_with name.now Kind.Integer false) }
{
    is_column(column, name, Kind::Integer, false)
}

/// INTEGER NOT NULL.
pub(crate) fn is_integer(column: &Column, name: &[u8]) -> bool
    ensures { IsTrue result ↔ (column.now ≡ column_with name.now Kind.Integer true) }
{
    is_column(column, name, Kind::Integer, true)
}

/// BLOB NOT NULL.
pub(crate) fn is_blob(column: &Column, name: &[u8]) -> bool
    ensures { IsTrue result ↔ (column.now ≡ column_with name.now Kind.Blob true) }
{
    is_column(column, name, Kind::Blob, true)
}

#[tactic(auto, using(crate::proofs::Terms::map_empty))]
fn has_no_terms(terms: &Terms) -> bool
    ensures { IsTrue result ↔ (terms.now ≡ []) }
{
    terms.roots.is_empty()
}

fn has_no_stamps(stamps: &Stamps) -> bool
    ensures { IsTrue result ↔ (stamps.now ≡ no_stamps) }
{
    stamps.places.is_empty() && has_no_terms(&stamps.terms) && stamps.formats.is_empty()
}

fn has_no_rules(table: &Table) -> bool
    ensures { IsTrue result ↔ (table.now ≡ without_rules table.now) }
{
    has_no_terms(&table.checks)
        && table.references.is_empty()
        && table.computed.is_empty()
        && has_no_stamps(&table.stamps)
        && !table.is_counted
}

fn is_named(table: &Table, name: &[u8], tree: u32, key: Option<usize>, primary: &[usize]) -> bool
    ensures { IsTrue result ↔ (table.now ≡ table_named name.now tree key primary.now table.now) }
{
    table.name.as_slice() == name
        && table.tree == tree
        && table.key == key
        && table.primary.as_slice() == primary
}

/// The table has no rule but its keys, and these.
fn has_shape(table: &Table, name: &[u8], tree: u32, key: Option<usize>, primary: &[usize]) -> bool
    ensures { IsTrue result ↔ (table.now ≡ plainly_named name.now tree key primary.now table.now) }
{
    is_named(table, name, tree, key, primary) && has_no_rules(table)
}

fn has_order(orders: &[Order]) -> bool
    ensures { IsTrue result ↔ (orders.now ≡ plain ∷ []) }
{
    match orders {
        [order] => order.digits == 0,
        _ => false,
    }
}

fn is_at(key: &Items<usize>, places: &[usize]) -> bool
    ensures { IsTrue result ↔ (key.now ≡ places.now) }
{
    key.as_slice() == places
}

fn has_key(keys: &[Items<usize>], places: &[usize]) -> bool
    ensures { IsTrue result ↔ (keys.now ≡ places.now ∷ []) }
{
    match keys {
        [key] => is_at(key, places),
        _ => false,
    }
}

/// The table's first column is the rowid, and it has no other key.
pub(crate) fn is_keyed_by_id(table: &Table, name: &[u8], tree: u32) -> bool
    ensures { IsTrue result ↔ (table.now ≡ keyed_by_id name.now tree table.now.columns) }
{
    has_shape(table, name, tree, Some(0), &[0])
        && table.uniques.is_empty()
        && table.orders.is_empty()
}

/// The table's first column is the rowid, and these are a key too.
pub(crate) fn is_keyed_by_id_and(table: &Table, name: &[u8], tree: u32, places: &[usize]) -> bool
    ensures { IsTrue result ↔ (table.now ≡ keyed_twice name.now tree table.now.columns places.now) }
{
    has_shape(table, name, tree, Some(0), &[0])
        && has_key(table.uniques.as_slice(), places)
        && has_order(table.orders.as_slice())
}

/// The table's one key is these columns, counted from 1.
pub(crate) fn is_keyed_by(table: &Table, name: &[u8], tree: u32, places: &[usize]) -> bool
    ensures { IsTrue result ↔ (table.now ≡ keyed_by name.now tree table.now.columns places.now) }
{
    has_shape(table, name, tree, None, places)
        && has_key(table.uniques.as_slice(), places)
        && has_order(table.orders.as_slice())
}

/// The index is that of a key, in the tree behind that of its table.
pub(crate) fn is_index(index: &Index, name: &[u8], table: u32, places: &[usize]) -> bool
    requires { table < 4294967295 }
    ensures { IsTrue result ↔ (index.now ≡ key_of name.now table places.now) }
{
    index.name.as_slice() == name
        && index.tree == table + 1
        && index.table == table
        && index.columns.as_slice() == places
        && index.order.digits == 0
        && index.is_unique
}
