//! Searches that a line asks for.
ghost use Rattle.std.specs.Prelude.{◌≡◌, IfErr, IfOk, None, Some, map, option_map, string_bytes};
ghost use Rattle.cli_words.specs.SearchTexts.{seen_search_words};
ghost use Rattle.cli_requests.specs.Operands.{text_in};
ghost use Rattle.cli_requests.specs.Requests.{IsNone, find_in, if_given, name_in, named_in, octets_of_words, search_files, search_for};
ghost use Rattle.cli_requests.specs.Requests.{search_in, search_operands, search_texts, seen_files, seen_request};

use crate::operand::text_in;
use crate::request::{Request, RequestFault, check_operands, purpose_in};
use cli_words::SearchWords;
use std::alloc::{AllocError, Global};

/// The operands of a search.
#[derive(Clone, Copy, Debug, PartialEq, Eq)]
pub struct SearchFiles<'a> {
    /// The certificates of trust anchors.
    pub anchors: &'a str,
    /// Those that may stand between an anchor and the target, if any are handed in.
    pub among: Option<&'a str>,
    /// The certificate that is asked about.
    pub target: &'a str,
}

fn search_files<'a>(words: &[&'a str]) -> Option<SearchFiles<'a>>
    ensures { option_map seen_files result ≡ search_files (octets_of_words words.now) }
{
    let [anchors, behind @ ..] = words else {
        return None;
    };
    let [second, others @ ..] = behind else {
        return None;
    };
    let Some(last) = others.first() else {
        return Some(SearchFiles {
            anchors,
            among: None,
            target: second,
        });
    };
    if others.len() > 1 {
        return None;
    }
    Some(SearchFiles {
        anchors,
        among: Some(second),
        target: last,
    })
}

/// The operands, `ANCHORS FILE` or `ANCHORS AMONG FILE`.
pub(crate) fn search_operands<'a>(
    alloc: Global,
    words: &[&'a str],
) -> Result<SearchFiles<'a>, RequestFault>
    ensures reads { IfOk result (λ files.
        search_operands (octets_of_words words.now) ≡ Some (seen_files files)) }
    ensures refuses { IfErr result (IsNone (search_operands (octets_of_words words.now))) }
{
    check_operands(alloc, words)?;
    search_files(words).ok_or(RequestFault::Malformed)
}

// One word, or none.
fn if_given<'a>(alloc: Global, word: Option<&'a str>) -> Result<Vec<&'a str>, AllocError>
    ensures { IfOk result (λ words. map (λ word. word.now) words.items
        ≡ if_given (option_map (λ text. text.now) word.entry)) }
{
    let mut words = Vec::new(alloc);
    if let Some(word) = word {
        words.push(word)?;
    }
    Ok(words)
}

// What is asked about the certificates in these operands.
fn search_words<'a>(
    alloc: Global,
    moment: &'a str,
    purpose: Option<&'a str>,
    files: SearchFiles<'a>,
) -> Result<SearchWords<'a>, AllocError>
    ensures { IfOk result (λ words. seen_search_words words
        ≡ search_texts moment.entry.now (option_map (λ text. text.now) purpose.entry)
        None (seen_files files.entry)) }
{
    Ok(SearchWords {
        moment,
        purpose,
        name: None,
        anchors: if_given(alloc, Some(files.anchors))?,
        among: if_given(alloc, files.among)?,
        target: files.target,
    })
}

#[tactic(auto, unfolding(crate::specs::Requests::search_in))]
fn search_in<'a>(
    alloc: Global,
    moment: &'a str,
    purpose: Option<&'a str>,
    name: Option<String>,
    words: &[&'a str],
) -> Result<Request<'a>, RequestFault>
    ensures reads { IfOk result (λ request.
        search_in moment.entry.now (option_map (λ text. text.now) purpose.entry)
        (option_map (λ text. string_bytes text) name) (octets_of_words words.now)
        ≡ Some (seen_request request)) }
    ensures refuses { IfErr result (IsNone
        (search_in moment.entry.now (option_map (λ text. text.now) purpose.entry)
        (option_map (λ text. string_bytes text) name) (octets_of_words words.now))) }
{
    let files = search_operands(alloc, words)?;
    let words = search_words(alloc, moment, purpose, files)?;
    Ok(Request::Find { words, name })
}

// The search for the name that the word writes.
fn search_for<'a>(
    alloc: Global,
    moment: &'a str,
    purpose: Option<&'a str>,
    name: &str,
    words: &[&'a str],
) -> Result<Request<'a>, RequestFault>
    ensures reads { IfOk result (λ request.
        search_for moment.entry.now (option_map (λ text. text.now) purpose.entry)
        (text_in name.now) (octets_of_words words.now)
        ≡ Some (seen_request request)) }
    ensures refuses { IfErr result (IsNone
        (search_for moment.entry.now (option_map (λ text. text.now) purpose.entry)
        (text_in name.now) (octets_of_words words.now))) }
{
    match text_in(alloc, name.as_bytes())? {
        Some(name) => search_in(alloc, moment, purpose, Some(name), words),
        None => Err(RequestFault::Malformed),
    }
}

// The name that the word says.
fn name_in(word: &str) -> Option<&str>
    ensures { option_map (λ text. text.now) result ≡ name_in word.now }
{
    word.strip_prefix("name=")
}

fn named_in<'a>(
    alloc: Global,
    moment: &'a str,
    purpose: Option<&'a str>,
    words: &[&'a str],
) -> Result<Request<'a>, RequestFault>
    ensures reads { IfOk result (λ request.
        named_in moment.entry.now (option_map (λ text. text.now) purpose.entry)
        (octets_of_words words.now)
        ≡ Some (seen_request request)) }
    ensures refuses { IfErr result (IsNone
        (named_in moment.entry.now (option_map (λ text. text.now) purpose.entry)
        (octets_of_words words.now))) }
{
    let [first, others @ ..] = words else {
        return Err(RequestFault::Malformed);
    };
    match name_in(first) {
        Some(name) => search_for(alloc, moment, purpose, name, others),
        None => search_in(alloc, moment, purpose, None, words),
    }
}

/// `find TIME [purpose=OID] [name=NAME] ANCHORS [AMONG] FILE`, behind its first word.
pub(crate) fn find_in<'a>(alloc: Global, words: &[&'a str]) -> Result<Request<'a>, RequestFault>
    ensures reads { IfOk result (λ request.
        find_in (octets_of_words words.now) ≡ Some (seen_request request)) }
    ensures refuses { IfErr result (IsNone (find_in (octets_of_words words.now))) }
{
    let [moment, behind @ ..] = words else {
        return Err(RequestFault::Malformed);
    };
    let [first, others @ ..] = behind else {
        return Err(RequestFault::Malformed);
    };
    match purpose_in(first) {
        Some(purpose) => named_in(alloc, moment, Some(purpose), others),
        None => named_in(alloc, moment, None, behind),
    }
}
