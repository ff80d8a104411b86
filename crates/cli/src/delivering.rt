//! Deliveries.
ghost use Rattle.std.specs.Prelude.{◌≡◌, IfErr, IfOk};
ghost use Rattle.std.specs.Io.KnownBytes.{Appends};
ghost use Rattle.cli_answers.specs.AnswerText.{counts_line};
ghost use Rattle.cli_failures.specs.Report.{UnlessLate};
ghost use Rattle.cli.specs.Delivered.{FailsToDeliver, IsDelivered, IsFailureOfDelivery};
ghost use Rattle.cli.specs.Host.{host};

use crate::at_path::AtPath;
use crate::writing::write_counts;
use cli_failures::{Failure, Source};
use cli_steps::deliver_believing;
use cli_store::Stores;
use sqlite_disk::Disk;
use statements_facts::Counts;
use std::alloc::Global;
use std::io::Write;
use std::marker::PhantomData;
use store::Store;

/// What `deliver` names.
#[derive(Clone, Copy, Debug, PartialEq, Eq)]
pub struct Delivery<'a> {
    /// The file of the store.
    pub store: &'a str,
    /// The file of the fingerprints of good signatures.
    pub verdicts: &'a str,
    /// The file of the issuer's certificate.
    pub issuer: &'a str,
    /// The file of the statement.
    pub file: &'a str,
}

// Delivers what the words name.
fn deliver_facts<'a, D: Disk + Drop, S: Source + Stores<Store<D>>>(
    source: &S,
    alloc: Global,
    words: Delivery<'a>,
) -> Result<Counts, Failure<'a>>
    ensures delivered { IfOk result
        (IsDelivered (host S.holds S.places source.now) words.entry) }
    ensures fails { IfErr result
        (IsFailureOfDelivery (host S.holds S.places source.now) words.entry) }
{
    let mut store: AtPath<'a, '_, D, S> = AtPath {
        source,
        path: words.store,
        disk: PhantomData,
    };
    deliver_believing(
        &mut store,
        source,
        alloc,
        words.verdicts,
        words.issuer,
        words.file,
    )
}

/// Delivers the statement in the file to the store, under the issuer's certificate, and writes how its facts were counted. Both files
/// are read once, before the store is opened. Where no store is there it is made, but not for a statement that is refused.
pub fn deliver<'a, D: Disk + Drop, S: Source + Stores<Store<D>>, O: Write>(
    source: &S,
    alloc: Global,
    words: Delivery<'a>,
    out: &mut O,
) -> Result<Counts, Failure<'a>>
    ensures delivered { IfOk result
        (IsDelivered (host S.holds S.places source.now) words.entry) }
    ensures written { IfOk result (λ counts.
        Appends (O.contents out.old) (O.contents out.new) (counts_line counts)) }
    ensures fails { IfErr result (FailsToDeliver (host S.holds S.places source.now)
        words.entry (O.contents out.old) (O.contents out.new)) }
    ensures quiet { IfErr result (λ failure. UnlessLate failure (out.new ≡ out.old)) }
{
    let counts = deliver_facts(source, alloc, words)?;
    match write_counts(&counts, out) {
        Ok(()) => Ok(counts),
        Err(_) => Err(Failure::Unwritable),
    }
}
