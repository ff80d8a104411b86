//! Verdicts on paths whose certificate policies are processed.
ghost use Rattle.std.specs.Prelude.{◌≡◌, IfErr, IfOk};
ghost use Rattle.std.specs.Io.KnownBytes.{Appends};
ghost use Rattle.cli_failures.specs.Report.{UnlessLate};
ghost use Rattle.cli_words.specs.PolicyTexts.{seen_policy_words};
ghost use Rattle.cli_words.specs.QueryTexts.{seen_words};
ghost use Rattle.cli.specs.CheckedPolicies.{FailsToCheckPolicies, IsCheckedWithPolicies, IsFailureOfPolicyCheck};
ghost use Rattle.cli.specs.Host.{host};

use crate::at_path::AtPath;
use cli_answers::write_front;
use cli_failures::{Failure, Source};
use cli_steps::{PolicyVerdict, check_believing};
use cli_store::Stores;
use cli_words::{PolicyWords, QueryWords};
use relying_agreement::Verdict;
use sqlite_disk::Disk;
use std::alloc::Global;
use std::io::Write;
use std::marker::PhantomData;
use store::Store;

// The verdict that the words ask for.
fn check_policies_of_path<'a, D: Disk + Drop, S: Source + Stores<Store<D>>>(
    source: &S,
    alloc: Global,
    store: &'a str,
    verdicts: &'a str,
    query: &QueryWords<'a>,
    policies: &PolicyWords<'a>,
) -> Result<PolicyVerdict, Failure<'a>>
    ensures checked { IfOk result (IsCheckedWithPolicies (host S.holds S.places source.now)
        store.entry.now verdicts.entry.now (seen_words query.now)
        (seen_policy_words policies.now)) }
    ensures fails { IfErr result (IsFailureOfPolicyCheck (host S.holds S.places source.now)
        store.entry.now verdicts.entry.now (seen_words query.now)
        (seen_policy_words policies.now)) }
{
    let mut store: AtPath<'a, '_, D, S> = AtPath {
        source,
        path: store,
        disk: PhantomData,
    };
    check_believing(&mut store, source, alloc, verdicts, query, policies)
}

/// Writes the verdict on the path that the words name, by the statements that the store holds (RFC 5280, 6; RFC 6960, 3.2), with its
/// certificate policies processed (RFC 5280, 6.1): a line for the verdict, and unless it is invalid a line for each policy at the end of the
/// path.
pub fn check_with_policies<'a, D: Disk + Drop, S: Source + Stores<Store<D>>, O: Write>(
    source: &S,
    alloc: Global,
    store: &'a str,
    verdicts: &'a str,
    query: &QueryWords<'a>,
    policies: &PolicyWords<'a>,
    out: &mut O,
) -> Result<Verdict, Failure<'a>>
    ensures checked { IfOk result (λ verdict. (told : PolicyVerdict) × (told.verdict ≡ verdict)
        × IsCheckedWithPolicies (host S.holds S.places source.now)
        store.entry.now verdicts.entry.now (seen_words query.now)
        (seen_policy_words policies.now) told
        × Appends (O.contents out.old) (O.contents out.new) told.lines.items) }
    ensures fails { IfErr result (FailsToCheckPolicies (host S.holds S.places source.now)
        store.entry.now verdicts.entry.now (seen_words query.now) (seen_policy_words policies.now)
        (O.contents out.old) (O.contents out.new)) }
    ensures quiet { IfErr result (λ failure. UnlessLate failure (out.new ≡ out.old)) }
{
    let told = check_policies_of_path(source, alloc, store, verdicts, query, policies)?;
    match write_front(told.lines.as_slice(), out) {
        Ok(()) => Ok(told.verdict),
        Err(_) => Err(Failure::Unwritable),
    }
}
