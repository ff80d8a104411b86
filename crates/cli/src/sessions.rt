//! Sessions over a store at a path.
ghost use Rattle.std.specs.Prelude.{◌≡◌, IfErr, IfOk, None, OnOk, Some};
ghost use Rattle.cli_failures.specs.Report.{UnlessLate};
ghost use Rattle.cli.specs.Host.{host};
ghost use Rattle.cli.specs.Listed.{given};
ghost use Rattle.cli.specs.Session.{BelievesAtFirst, IsFailureOfSession, IsFailureOnVerdicts, IsSession, IsWholeSession, cut_by};
ghost use Rattle.cli.specs.Streams.{streams};
ghost use Rattle.cli_store.specs.Standing.{IsFoundOrMade, IsOpenIfClean, seen_in};
ghost use Rattle.sqlite.specs.Files.{file_state};
ghost use Rattle.store_adoption.specs.Creates.{IsSettled};
ghost use Rattle.store_sql.specs.Statements.{IsDurable};

use cli_failures::{Failure, Source};
use cli_operands::read_fingerprints;
use cli_steps::{Believed, End, Party, serve};
use cli_store::{StoreKeeper, Stores};
use path_verifiers::ListVerifier;
use sqlite_disk::Disk;
use std::alloc::Global;
use std::io::{Read, Write};
use store::Store;

/// What `session` names.
#[derive(Clone, Copy, Debug, PartialEq, Eq)]
pub struct SessionWords<'a> {
    /// The file of the store.
    pub store: &'a str,
    /// The file of the fingerprints of good signatures, if there is one.
    pub verdicts: Option<&'a str>,
}

// The fingerprints that are believed in the beginning.
fn prints_of<'a, S: Source>(
    source: &S,
    alloc: Global,
    verdicts: Option<&'a str>,
) -> Result<Vec<[u8; 32]>, Failure<'a>>
    ensures begins { IfOk result (λ prints. BelievesAtFirst (S.holds source.now)
        (given verdicts.entry) prints.items) }
    ensures fails { IfErr result (IsFailureOnVerdicts (S.holds source.now)
        (given verdicts.entry)) }
{
    match verdicts {
        Some(file) => read_fingerprints(source, alloc, file),
        None => Ok(Vec::new(alloc)),
    }
}

// Whether a session that ended so was cut short, and by what.
fn outcome_of<'a>(end: End) -> Result<(), Failure<'a>>
    ensures whole { OnOk result (cut_by end ≡ None) }
    ensures cut { IfErr result (λ failure. cut_by end ≡ Some failure) }
{
    match end {
        End::Quit | End::Finished => Ok(()),
        End::Shut => Err(Failure::Shut),
        End::Unwritable => Err(Failure::Unwritable),
        End::Unreadable => Err(Failure::NoInput),
        End::NoMemory => Err(Failure::NoMemory),
    }
}

// Answers the lines over the store, which is closed in the end.
fn serve_over<D: Disk + Drop, S: Source + Stores<Store<D>>, R: Read, O: Write>(
    source: &S,
    alloc: Global,
    words: &SessionWords<'_>,
    prints: Vec<[u8; 32]>,
    store: Store<D>,
    input: &mut R,
    out: &mut O,
) -> End
    requires open { IsOpenIfClean (file_state store.conn) }
    requires settled { IsSettled (file_state store.conn) }
    requires durable { IsDurable (file_state store.conn) }
    ensures served { BelievesAtFirst (S.holds source.now) (given words.now.verdicts) prints.items
        → IsFoundOrMade (S.places source.now) words.now.store.now (seen_in store)
        → IsSession (host S.holds S.places source.now) words.now
        (streams R.remaining input.old input.new O.contents out.old out.new) result }
{
    let believed = Believed::new(alloc, ListVerifier::new(prints));
    let mut party = Party {
        believed,
        keeper: StoreKeeper { store },
    };
    let end = serve(input, &mut party, source, alloc, out);
    let Party {
        believed: _,
        keeper,
    } = party;
    source.close_store(words.store, keeper.into_store());
    end
}

/// Answers the lines of the input, one after the other, each before the next is read (`cli_steps::serve`), over the store at the path,
/// which is made if no file is there. The fingerprints of the file are believed, and those that come in requests.
pub fn session<'a, D: Disk + Drop, S: Source + Stores<Store<D>>, R: Read, O: Write>(
    source: &S,
    alloc: Global,
    words: SessionWords<'a>,
    input: &mut R,
    out: &mut O,
) -> Result<(), Failure<'a>>
    ensures done { OnOk result (IsWholeSession (host S.holds S.places source.now)
        words.entry (streams R.remaining input.old input.new O.contents out.old out.new)) }
    ensures fails { IfErr result (IsFailureOfSession (host S.holds S.places source.now)
        words.entry (streams R.remaining input.old input.new O.contents out.old out.new)) }
    ensures quiet { IfErr result (λ failure. UnlessLate failure (out.new ≡ out.old)) }
{
    let prints = match prints_of(source, alloc, words.verdicts) {
        Ok(prints) => prints,
        Err(failure) => return Err(failure),
    };
    let store = match source.open_or_make_store(words.store) {
        Ok(store) => store,
        Err(failure) => return Err(failure),
    };
    outcome_of(serve_over(source, alloc, &words, prints, store, input, out))
}
