//! Comparisons of the verdicts by what two stores hold.
ghost use Rattle.std.specs.Prelude.{◌≡◌, IfErr, IfOk};
ghost use Rattle.std.specs.Io.KnownBytes.{Appends};
ghost use Rattle.cli_answers.specs.AnswerText.{comparison_line};
ghost use Rattle.cli_failures.specs.Report.{UnlessLate};
ghost use Rattle.cli_words.specs.QueryTexts.{seen_words};
ghost use Rattle.cli.specs.Checked.{FailsToCompare, IsCompared, IsFailureOfComparison};
ghost use Rattle.cli.specs.Host.{host};

use crate::at_path::{AtPaths, StorePair};
use crate::writing::write_comparison;
use cli_failures::{Failure, Source};
use cli_steps::ask_believing;
use cli_store::Stores;
use cli_words::QueryWords;
use relying_agreement::Comparison;
use sqlite_disk::Disk;
use std::alloc::Global;
use std::io::Write;
use std::marker::PhantomData;
use store::Store;

// The comparison that the words ask for.
fn compare_verdicts<'a, D: Disk + Drop, S: Source + Stores<Store<D>>>(
    source: &S,
    alloc: Global,
    stores: StorePair<'a>,
    verdicts: &'a str,
    query: &QueryWords<'a>,
) -> Result<Comparison, Failure<'a>>
    ensures compared { IfOk result (IsCompared (host S.holds S.places source.now)
        stores.entry verdicts.entry.now (seen_words query.now)) }
    ensures fails { IfErr result
        (IsFailureOfComparison (host S.holds S.places source.now)
        stores.entry verdicts.entry.now (seen_words query.now)) }
{
    let mut stores: AtPaths<'a, '_, D, S> = AtPaths {
        source,
        stores,
        disk: PhantomData,
    };
    ask_believing(&mut stores, source, alloc, verdicts, query)
}

/// Writes whether the store and the other give the same verdict on the path that the words name, and the verdict; else both, and the
/// least certificate of which the two hold something different.
pub fn compare<'a, D: Disk + Drop, S: Source + Stores<Store<D>>, O: Write>(
    source: &S,
    alloc: Global,
    stores: StorePair<'a>,
    verdicts: &'a str,
    query: &QueryWords<'a>,
    out: &mut O,
) -> Result<Comparison, Failure<'a>>
    ensures compared { IfOk result (IsCompared (host S.holds S.places source.now)
        stores.entry verdicts.entry.now (seen_words query.now)) }
    ensures written { IfOk result (λ comparison.
        Appends (O.contents out.old) (O.contents out.new) (comparison_line comparison)) }
    ensures fails { IfErr result (FailsToCompare (host S.holds S.places source.now)
        stores.entry verdicts.entry.now (seen_words query.now)
        (O.contents out.old) (O.contents out.new)) }
    ensures quiet { IfErr result (λ failure. UnlessLate failure (out.new ≡ out.old)) }
{
    let comparison = compare_verdicts(source, alloc, stores, verdicts, query)?;
    match write_comparison(comparison, out) {
        Ok(()) => Ok(comparison),
        Err(_) => Err(Failure::Unwritable),
    }
}
