//! A table's rows, tested one after the other.

ghost use Rattle.std.specs.Prelude.{◌≡◌, [], false, OnOk};
ghost use Rattle.sqlite.specs.Held.{state};
ghost use Rattle.sqlite.specs.State.{HasCleanDisk};
ghost use Rattle.sqlite.specs.Given.{IsPlain};
ghost use Rattle.sqlite.specs.Listing.{understood};
ghost use Rattle.store_sql.specs.Statements.{CommitsNothing};
ghost use Rattle.store_adoption.specs.Tests.{PassesOneMore, HoldsAlike, TestsOn, TestsForCause, SchemaBreaksForm};

use sqlite::{Alter, Connection, Row};
use store_sql::StoreFault;

/// A test of rows, one after the other.
pub trait RowTest {
    ghost use Rattle.std.specs.Prelude.{◌≢◌, List, Err};
    ghost use Rattle.sqlite.specs.Order.{Row as Cells};

    // These rows have passed, and left the test so.
    ghost passed: { Self → List Cells → Type 0 };

    // These are all rows of a table of a store.
    ghost are_formed: { Self → List Cells → Type 0 };

    /// Takes the next row; `StoreFault::Schema` if no store has it there.
    fn take(&mut self, row: &Row) -> Result<(), StoreFault>
        ensures passed { OnOk result (PassesOneMore (passed self.old) (passed self.new) row.now) }
        ensures same { OnOk result (HoldsAlike (are_formed self.old) (are_formed self.new)) }
        ensures refused { SchemaBreaksForm (passed self.old) (are_formed self.old) row.now result }
        ensures cell { result ≢ Err StoreFault.Store };
}

/// Shows each row that the text asks for to the test.
pub fn test_rows<S: Alter, T: RowTest>(
    conn: &mut Connection<S>,
    sql: &str,
    test: &mut T,
) -> Result<(), StoreFault>
    requires start { T.RowTest.passed test.old [] }
    requires idle { conn.old.in_transaction ≡ false }
    requires plain { HasCleanDisk (state S.Store conn.old)
        → IsPlain (understood (state S.Store conn.old).now.schema sql.now) }
    ensures idle { conn.new.in_transaction ≡ false }
    ensures tests { TestsOn S.Store conn.old conn.new sql.now
        (T.RowTest.passed test.new) (T.RowTest.are_formed test.old) result }
    ensures caused { TestsForCause S.Store conn.old conn.new sql.now result }
    ensures same { OnOk result
        (HoldsAlike (T.RowTest.are_formed test.old) (T.RowTest.are_formed test.new)) }
    ensures survives { CommitsNothing (state S.Store conn.old) (state S.Store conn.new) }
{
    let mut rows = conn.query(sql, &[])?;
    'each: for _shown in 0..u64::MAX {
        rows.advance()?;
        let Some(row) = rows.get() else {
            return Ok(());
        };
        test.take(row)?;
    }
    Err(StoreFault::Store)
}
