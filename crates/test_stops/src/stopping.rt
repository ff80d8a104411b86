//! Work that is stopped at each call of a file. `None` is answered where there is no memory, or where what is to be there before was not
//! done.

use crate::disks::{Fuses, NO_FUSES, Octets, files, nothing, synced, written};
use crate::finding::Found;
use crate::working::{Progress, Then, Work, run};
use std::alloc::Global;

/// More calls than any of this work makes.
const MOST: u64 = 10_000;

/// Work that is stopped.
#[derive(Clone, Copy)]
pub struct Trial {
    /// What was done before.
    pub before: &'static [Work],
    pub work: Work,
    /// What may be found where it was not answered that the work was done, and where it was.
    pub stopped: &'static [Found],
    pub done: &'static [Found],
}

/// The files after the work, which no fuse stops.
fn after(alloc: Global, works: &[Work]) -> Option<Octets> {
    let mut octets = nothing(alloc);
    for work in works {
        let (files, progress) = run(alloc, files(alloc, &octets, NO_FUSES)?, work);
        if progress != Progress::Closed {
            return None;
        }
        octets = written(alloc, &files)?;
    }
    Some(octets)
}

/// Whether one of these is found. Files that are not opened are no store.
fn is_found(alloc: Global, octets: &Octets, wanted: &'static [Found]) -> Option<bool> {
    let (_files, progress) = run(
        alloc,
        files(alloc, octets, NO_FUSES)?,
        &Work::TakeOver(Then::Find(wanted)),
    );
    Some(match progress {
        Progress::NotOpened => wanted.iter().any(|found| matches!(found, Found::NoStore)),
        _ => progress == Progress::Closed,
    })
}

/// How far the work came, and whether it was told so, and what it left may be, where the process ends there and where the machine does.
fn come(alloc: Global, before: &Octets, trial: &Trial, fuses: Fuses) -> Option<(Progress, bool)> {
    let (files, progress) = run(alloc, files(alloc, before, fuses)?, &trial.work);
    let wanted = match progress {
        Progress::Mistold => return Some((progress, false)),
        Progress::Done | Progress::Closed => trial.done,
        _ => trial.stopped,
    };
    let written = written(alloc, &files)?;
    let synced = synced(alloc, files)?;
    let is_so = is_found(alloc, &written, wanted)? && is_found(alloc, &synced, wanted)?;
    Some((progress, is_so))
}

/// Which file stops.
#[derive(Clone, Copy)]
enum File {
    Log,
    Database,
}

fn fuses(file: File, calls: u64) -> Fuses {
    match file {
        File::Log => Fuses {
            log: calls,
            ..NO_FUSES
        },
        File::Database => Fuses {
            database: calls,
            ..NO_FUSES
        },
    }
}

/// Whether the file stops the work at one call after the other, and each leaves what may be, until nothing stops it.
fn is_whole_at(alloc: Global, before: &Octets, trial: &Trial, file: File) -> Option<bool> {
    for calls in 0..MOST {
        let (progress, is_so) = come(alloc, before, trial, fuses(file, calls))?;
        if !is_so || progress == Progress::Closed {
            return Some(is_so && calls > 0);
        }
    }
    Some(false)
}

/// Whether the work leaves what it may, at whichever call of either file it stops.
pub fn is_whole(alloc: Global, trial: &Trial) -> Option<bool> {
    let before = after(alloc, trial.before)?;
    Some(
        is_whole_at(alloc, &before, trial, File::Database)?
            && is_whole_at(alloc, &before, trial, File::Log)?,
    )
}
