//! Files of a store that are opened again.

ghost use Rattle.std.specs.Prelude.{◌≡◌, ◌≢◌, false, IfErr, IfOk, IsTrue};
ghost use Rattle.sqlite.specs.Files.{Finds, IsCleanLeft, IsOpened, LeavesFiles, file_state};
ghost use Rattle.sqlite.specs.Held.{IsNew};
ghost use Rattle.sqlite.specs.State.{HasCleanDisk};
ghost use Rattle.store.specs.Opens.{OpensForCause};

use crate::connecting::options;
use sqlite::{Connection, FileStore, Files, Leftover};
use sqlite_disk::Disk;
use std::alloc::Global;
use store_sql::StoreFault;

/// Where the salts of the log begin. A close leaves an empty log, so they need not differ from those before.
const SEED: u64 = 0;

/// Opens the files that a close gave back.
pub(crate) fn open_again<D: Disk + Drop>(
    alloc: Global,
    files: Files<D>,
) -> Result<Connection<FileStore<D>>, (StoreFault, Leftover<D>)>
    requires log { IsTrue (D.Disk.is_usable files.log) }
    requires db { IsTrue (D.Disk.is_usable files.db) }
    ensures idle { IfOk result (λ conn. conn.in_transaction ≡ false) }
    ensures fresh { IfOk result IsNew }
    ensures opened { IfOk result (λ conn. HasCleanDisk (file_state conn) → IsOpened conn) }
    ensures found { IfOk result (λ conn. HasCleanDisk (file_state conn) → Finds files conn) }
    ensures fault { IfErr result (λ failed. failed.0 ≢ StoreFault.Schema) }
    ensures cause { IfErr result (λ failed. OpensForCause files failed.1 failed.0) }
    ensures unharmed { IfErr result (λ failed. IsCleanLeft failed.1 → LeavesFiles files failed.1) }
{
    match Connection::open_files(alloc, files, options(SEED)) {
        Ok(conn) => Ok(conn),
        Err((error, left)) => Err((StoreFault::from(error), left)),
    }
}
