//! Commands: deliveries and queries, with a verifier that accepts the signatures whose fingerprints a file lists.
ghost use Rattle.cli_words.specs.QueryTexts.{seen_words};
ghost use Rattle.cli_steps.specs.Commands.{AsksBelieving, DeliversBelieving};

use crate::checking::ask_on;
use crate::delivering::deliver_to;
use crate::receiver::{AnswerQuery, TakeFacts};
use cli_failures::{Failure, Source};
use cli_operands::{read_fingerprints, read_terms};
use cli_words::QueryWords;
use path_verifiers::ListVerifier;
use statements_facts::Counts;
use std::alloc::Global;

/// Reads the file of fingerprints, the issuer's certificate and the statement, in this order and each once, and passes the facts of the
/// statement to the receiver if it is genuine. The first that is wrong is reported; the receiver is called only if none is. Memory is
/// linear in the octets of the files.
pub fn deliver_believing<'a, R: TakeFacts<'a>, S: Source>(
    receiver: &mut R,
    source: &S,
    alloc: Global,
    verdicts: &'a str,
    issuer: &'a str,
    file: &'a str,
) -> Result<Counts, Failure<'a>>
    ensures { DeliversBelieving (S.holds source.now) verdicts.entry.now issuer.entry.now
        file.entry.now R.takes receiver.old receiver.new result }
{
    let prints = read_fingerprints(source, alloc, verdicts)?;
    let verifier = ListVerifier::new(prints);
    deliver_to(receiver, source, alloc, &verifier, issuer, file)
}

/// Reads the moment, the purpose, the file of fingerprints, the anchor's file and the files of the path, in this order and each once, and
/// passes the query to the receiver. The first that is wrong is reported; the receiver is called only if none is. Memory is linear in the
/// octets of the files.
pub fn ask_believing<'a, T, R: AnswerQuery<'a, T>, S: Source>(
    receiver: &mut R,
    source: &S,
    alloc: Global,
    verdicts: &'a str,
    words: &QueryWords<'a>,
) -> Result<T, Failure<'a>>
    ensures { AsksBelieving (S.holds source.now) verdicts.entry.now (seen_words words.now)
        R.answers receiver.old receiver.new result }
{
    let terms = read_terms(alloc, words.moment, words.purpose)?;
    let prints = read_fingerprints(source, alloc, verdicts)?;
    let verifier = ListVerifier::new(prints);
    ask_on(receiver, source, alloc, &verifier, &terms, words)
}
