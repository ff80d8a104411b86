//! The machine on which a run takes place: its files, and its stores, for which a run waits if another process has them open.

ghost use Rattle.std.specs.Prelude.{true, []};

use crate::stores::{Stores, open_at, open_or_make_at};
use cli_failures::{Extent, Failure, Source, StoreRefusal, is_in_use};
use sqlite_disk::{Disk, Start};
use sqlite_std_file::FileFrom;
use statements_facts::Profile;
use std::thread;
use std::time::Duration;
use store::Store;

/// The system's files and stores. A store that another process has open is asked for again and again, for some seconds.
///
/// `S` stands for what the files of a store hold as they are opened. It is the same for each path and each try, so what is said of a store
/// is said of those files alone that held this, and of others under another `S`.
#[derive(Clone, Copy)]
pub struct Machine<'r, S: Start> {
    pub rt: &'r HostRuntime,
    /// For how many seconds.
    pub wait: u16,
    /// That of its stores, in which statements, and the certificates of paths, are read.
    pub profile: Profile,
    pub start: S,
}

/// For `main` to name: as `sqlite_std_file::Unknown`, for as many openings as there are.
#[derive(Clone, Copy)]
pub struct AnyFiles;

impl Start for AnyFiles {
    ghost log = { [] };

    ghost db = { [] };

    ghost is_mixing = { true };

    fn mixes() -> bool {
        true
    }
}

// How often a second a store is asked for.
const TRIES_A_SECOND: u32 = 20;

const PAUSE: u64 = 50;

// How often a store is asked for once more that did not open and that nobody has open: whoever had it open may have closed it since.
const TRIES_ONCE_CLOSED: u32 = 4;

fn is_refused<D: Disk>(opened: &Result<Store<D>, Failure<'_>>) -> bool {
    match opened {
        Err(
            Failure::StoreFailed {
                refusal: StoreRefusal::Store,
            },
        ) => true,
        _ => false,
    }
}

impl<S: Start> Machine<'_, S> {
    fn tries(&self) -> u32 {
        self.wait as u32 * TRIES_A_SECOND
    }

    fn pause(&self) {
        thread::sleep(self.rt, Duration::from_millis(PAUSE));
    }

    // Whether a store that did not open is asked for again: another process has it open, or may have closed it since, which is believed
    // so many times.
    fn asks_again(
        &self,
        path: &str,
        opened: &Result<Store<FileFrom<S>>, Failure<'_>>,
        once_closed: &mut u32,
    ) -> bool {
        if !is_refused(opened) {
            return false;
        }
        if is_in_use(self.rt, path) {
            return true;
        }
        if *once_closed == 0 {
            return false;
        }
        *once_closed -= 1;
        true
    }
}

impl<S: Start> Source for Machine<'_, S> {
    ghost use Rattle.cli_failures.specs.Failures.{any_file};

    ghost holds = { λ machine. any_file machine.profile };

    fn profile(&self) -> Profile {
        self.profile
    }

    fn octets_of<'a>(&self, file: &'a str, extent: Extent) -> Result<Vec<u8>, Failure<'a>> {
        self.rt.octets_of(file, extent)
    }
}

impl<S: Start + Copy> Stores<Store<FileFrom<S>>> for Machine<'_, S> {
    ghost use Rattle.sqlite_wal.specs.Files.{image_at};
    ghost use Rattle.cli_store.specs.OnFiles.{places_on};

    ghost places = { λ machine. places_on machine.profile (image_at S.Start) };

    fn open_store<'a>(&self, path: &'a str) -> Result<Store<FileFrom<S>>, Failure<'a>> {
        let mut left = self.tries();
        let mut once_closed = TRIES_ONCE_CLOSED;
        'tries: loop {
            let opened = open_at(self.rt, self.profile, path, self.start);
            if left == 0 || !self.asks_again(path, &opened, &mut once_closed) {
                return opened;
            }
            left -= 1;
            self.pause();
        }
    }

    fn open_or_make_store<'a>(&self, path: &'a str) -> Result<Store<FileFrom<S>>, Failure<'a>> {
        let mut left = self.tries();
        let mut once_closed = TRIES_ONCE_CLOSED;
        'tries: loop {
            let opened = open_or_make_at(self.rt, self.profile, path, self.start);
            if left == 0 || !self.asks_again(path, &opened, &mut once_closed) {
                return opened;
            }
            left -= 1;
            self.pause();
        }
    }

    fn close_store(&self, _path: &str, store: Store<FileFrom<S>>) {
        let _ = store.into_files();
    }
}
