//! Files in memory whose calls fail once so many have been answered. `None` is answered where there is no memory.

use sqlite::Files;
use sqlite_disk::{Crash, Disk, Fuse, Memory};
use std::alloc::Global;

pub type Fused = Fuse<Memory>;

/// What the two files hold while the machine is off.
#[derive(Drop)]
pub struct Octets {
    pub log: Vec<u8>,
    pub database: Vec<u8>,
}

/// How many calls each file answers.
#[derive(Clone, Copy)]
pub struct Fuses {
    pub log: u64,
    pub database: u64,
}

pub const NO_FUSES: Fuses = Fuses {
    log: u64::MAX,
    database: u64::MAX,
};

/// A file that holds the octets.
fn disk(alloc: Global, octets: &[u8], calls: u64) -> Option<Fused> {
    let mut file = Memory::new(alloc);
    if !octets.is_empty() && file.may_be_used() {
        file.write_at(0, octets).ok()?;
    }
    if file.may_be_used() {
        file.sync().ok()?;
    }
    Some(Fuse::new(file, calls))
}

/// The files, switched on.
pub fn files(alloc: Global, octets: &Octets, fuses: Fuses) -> Option<Files<Fused>> {
    Some(Files {
        log: disk(alloc, &octets.log, fuses.log)?,
        db: disk(alloc, &octets.database, fuses.database)?,
    })
}

/// No file holds anything.
pub fn nothing(alloc: Global) -> Octets {
    Octets {
        log: Vec::new(alloc),
        database: Vec::new(alloc),
    }
}

/// What the files hold after the process has ended: all that was written.
pub fn written(alloc: Global, files: &Files<Fused>) -> Option<Octets> {
    Some(Octets {
        log: Vec::from_slice(alloc, files.log.inner().bytes()).ok()?,
        database: Vec::from_slice(alloc, files.db.inner().bytes()).ok()?,
    })
}

/// What they hold after the machine has lost all that was not synced.
pub fn synced(alloc: Global, mut files: Files<Fused>) -> Option<Octets> {
    files.log.crash();
    files.db.crash();
    written(alloc, &files)
}
