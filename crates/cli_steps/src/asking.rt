//! What a verifier may be asked in a search, in print.
ghost use Rattle.std.specs.Prelude.{◌≡◌, IfErr, IfOk, map};
ghost use Rattle.std.specs.List.{flat_map};
ghost use Rattle.path_issuers.specs.View.{seen_search};
ghost use Rattle.cli_words.specs.SearchTexts.{seen_search_words};
ghost use Rattle.cli_failures.specs.declared.failure.Failure.TheVariants.{NoMemory};
ghost use Rattle.cli_printing.specs.Written.{Writes};
ghost use Rattle.cli_steps.specs.SearchPrints.{AreSearchLines, AreSearchPrints, IsFailureOfSearchPrints, files_asked, question_text};
ghost use Rattle.cli_steps.specs.Finding.{ArePrintsOf, IsNoPrintOf};

use cli_failures::{Failure, Source};
use cli_operands::{SearchOperands, Terms, read_search_operands};
use cli_printing::certificate_print_to;
use cli_words::SearchWords;
use path_issuers::{SearchQuestion, questions};
use path_search::Search;
use std::alloc::{AllocError, Global};
use std::io;
use std::io::Write;

fn write_question<W: Write>(
    search: &Search<'_, '_>,
    question: &SearchQuestion,
    with_parts: bool,
    writer: &mut W,
) -> io::Result<()>
    ensures { Writes W.contents writer.old writer.new result
        (question_text with_parts (seen_search search.now) question.now) }
{
    let issuer = search.issuer_at(question.issuer);
    let certificate = search.certificate_at(question.certificate);
    certificate_print_to(
        certificate,
        &issuer.subject_public_key_info,
        with_parts,
        writer,
    )
}

fn write_questions<W: Write>(
    search: &Search<'_, '_>,
    questions: &[SearchQuestion],
    with_parts: bool,
    writer: &mut W,
) -> io::Result<()>
    ensures { Writes W.contents writer.old writer.new result
        (flat_map (question_text with_parts (seen_search search.now)) questions.now) }
{
    'each: for question in questions {
        write_question(search, question, with_parts, writer)?;
    }
    Ok(())
}

// The lines of the questions of a search.
fn prints_in<'a>(
    alloc: Global,
    search: &Search<'_, '_>,
    with_parts: bool,
) -> Result<Vec<u8>, Failure<'a>>
    ensures prints { IfOk result (λ text.
        AreSearchLines (seen_search search.now) with_parts text.items) }
    ensures fails { IfErr result (λ failure. failure ≡ NoMemory) }
{
    let Ok(questions) = questions(alloc, search) else {
        return Err(Failure::NoMemory);
    };
    let mut text = Vec::new(alloc);
    match write_questions(search, questions.as_slice(), with_parts, &mut text) {
        Ok(()) => Ok(text),
        Err(_) => Err(Failure::NoMemory),
    }
}

// Those of the search among the certificates of the operands.
fn prints_of<'a>(
    alloc: Global,
    operands: &SearchOperands<'a>,
    with_parts: bool,
) -> Result<Vec<u8>, Failure<'a>>
    ensures prints { IfOk result (λ text. ArePrintsOf operands.now with_parts text.items) }
    ensures fails { IfErr result (IsNoPrintOf operands.now) }
{
    let certificates = operands.certificates(alloc)?;
    // (which questions there are depends neither on the moment nor on the purpose)
    let terms = Terms {
        moment: 0,
        purpose: None,
    };
    let search = certificates.search(&terms);
    prints_in(alloc, &search, with_parts)
}

// The words of a search among these files.
fn files_asked<'a>(
    alloc: Global,
    anchors: &[&'a str],
    among: &[&'a str],
    target: &'a str,
) -> Result<SearchWords<'a>, AllocError>
    ensures { IfOk result (λ words. seen_search_words words
        ≡ files_asked (map (λ file. file.now) anchors.now) (map (λ file. file.now) among.now)
        target.entry.now) }
{
    Ok(SearchWords {
        moment: "",
        purpose: None,
        name: None,
        anchors: Vec::from_slice(alloc, anchors)?,
        among: Vec::from_slice(alloc, among)?,
        target,
    })
}

/// A line for each question that a search for a path to the file's certificate may ask a verifier, in their order, with the four texts of
/// each if these are asked for. The first files hold the certificates of the anchors, the others those that may stand between.
/// Questions are found by names alone. Memory is linear in the octets of the files and of the lines.
pub fn search_prints<'a, S: Source>(
    source: &S,
    alloc: Global,
    anchors: &[&'a str],
    among: &[&'a str],
    with_parts: bool,
    file: &'a str,
) -> Result<Vec<u8>, Failure<'a>>
    ensures prints { IfOk result (λ text. AreSearchPrints (S.holds source.now)
        (map (λ file. file.now) anchors.now) (map (λ other. other.now) among.now)
        with_parts file.entry.now text.items) }
    ensures fails { IfErr result (IsFailureOfSearchPrints (S.holds source.now)
        (map (λ file. file.now) anchors.now) (map (λ other. other.now) among.now) file.entry.now) }
{
    let Ok(words) = files_asked(alloc, anchors, among, file) else {
        return Err(Failure::NoMemory);
    };
    let operands = read_search_operands(source, alloc, &words)?;
    prints_of(alloc, &operands, with_parts)
}
