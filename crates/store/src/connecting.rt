//! Connections to the files at a path.

ghost use Rattle.std.specs.Prelude.{◌≡◌, ◌≢◌, IfErr, IfOk};
ghost use Rattle.sqlite.specs.Files.{IsOpened, file_state};
ghost use Rattle.sqlite.specs.Held.{IsNew};
ghost use Rattle.sqlite.specs.Start.{FindsIn};
ghost use Rattle.sqlite.specs.State.{HasCleanDisk};
ghost use Rattle.sqlite_wal.specs.Files.{image_at};
ghost use Rattle.store.specs.Opens.{WantsMemory};

use sqlite::{Connection, FileStore, Options};
use sqlite_disk::Start;
use sqlite_std_file::{FileFrom, OpenError};
use std::fs;
use std::hash::{BuildHasher, RandomState};
use std::io::ErrorKind;
use std::rt::HostRuntime;
use store_sql::StoreFault;

/// How many pages of a database are kept in memory: 1 MB of them. Opening takes all of that memory at once.
const CACHE_PAGES: usize = 256;

/// How a database is opened; the salts of its log begin with the seed.
pub(crate) fn options(seed: u64) -> Options {
    let mut options = Options::new(seed);
    options.cache_pages = CACHE_PAGES;
    options
}

fn random_options(rt: &HostRuntime) -> Result<Options, StoreFault>
    ensures { IfErr result (λ fault. fault ≢ StoreFault.Schema) }
{
    let state = RandomState::new(rt).map_err(|_| StoreFault::Store)?;
    Ok(options(state.hash_one(&0u8)))
}

// Want of memory is told as that, and all else as a refusal.
fn fault_of(error: &OpenError) -> StoreFault
    ensures memory { WantsMemory error.now → result ≡ StoreFault.Memory }
    ensures store { (WantsMemory error.now → ⊥) → result ≡ StoreFault.Store }
    ensures schema { result ≢ StoreFault.Schema }
{
    match error {
        OpenError::OutOfMemory => StoreFault::Memory,
        OpenError::Io(error) if error.kind() == ErrorKind::OutOfMemory => StoreFault::Memory,
        _ => StoreFault::Store,
    }
}

/// Whether SQLite reads the path as another thing than the name of a file.
fn is_no_file(path: &str) -> bool {
    path == ":memory:" || path.starts_with("file:")
}

/// Whether there is a file at the path; a fault if that cannot be told.
fn is_file(rt: &HostRuntime, path: &str) -> Result<bool, StoreFault>
    ensures { IfErr result (λ fault. fault ≢ StoreFault.Schema) }
{
    match fs::open(rt, path) {
        Ok(_) => Ok(true),
        Err(error) if error.kind() == ErrorKind::NotFound => Ok(false),
        Err(error) => Err(fault_of(&OpenError::Io(error))),
    }
}

/// Opens the database at the path, if a file is to be there, or else makes an empty one.
pub(crate) fn connect<S: Start>(
    rt: &HostRuntime,
    path: &str,
    is_there: bool,
    start: S,
) -> Result<Connection<FileStore<FileFrom<S>>>, StoreFault>
    ensures found { IfOk result (λ conn. HasCleanDisk (file_state conn)
        → FindsIn (image_at S.Start) (file_state conn)) }
    ensures fresh { IfOk result IsNew }
    ensures opened { IfOk result (λ conn. HasCleanDisk (file_state conn) → IsOpened conn) }
    ensures fault { IfErr result (λ fault. fault ≢ StoreFault.Schema) }
{
    if is_no_file(path) || is_file(rt, path)? != is_there {
        return Err(StoreFault::Store);
    }
    let options = random_options(rt)?;
    let files = match sqlite_std_file::open(rt, path, start) {
        Ok(files) => files,
        Err(error) => return Err(fault_of(&error)),
    };
    match Connection::open_files(rt.alloc(), files, options) {
        Ok(conn) => Ok(conn),
        Err((error, _left)) => Err(StoreFault::from(error)),
    }
}
