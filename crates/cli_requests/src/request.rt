//! What a line of a session asks for.
ghost use Rattle.std.specs.Prelude.{◌≡◌, IfErr, IfOk, OnOk, Some, map, option_map, true};
ghost use Rattle.cli_requests.specs.Requests.{IsFalse, IsNone, alone, are_operands, believe_in, check_in, deliver_in, is_passed_over};
ghost use Rattle.cli_requests.specs.Requests.{kind_named, list_in, print_in, prints_behind, prints_in, prints_of, purpose_in, request_in};
ghost use Rattle.cli_requests.specs.Requests.{request_named, request_on, search_prints_in, seen_request, octets_of_words, words_of};

use crate::operand::is_operand;
use crate::policies::asked_in;
use crate::searching::{SearchFiles, find_in, search_operands};
use cli_words::{Kind, PolicyWords, QueryWords, SearchWords};
use std::alloc::{AllocError, Global};
use std::str;
use thiserror::Error;

/// What a line asks for. Operands are as they stand in the line: `operand_of` reads them.
#[derive(Debug, Drop, PartialEq, Eq)]
pub enum Request<'a> {
    /// Nothing: the line is empty or a comment.
    Nothing,
    /// Believe a fingerprint more: a signature is good if its fingerprint is believed.
    Believe([u8; 32]),
    /// Deliver a statement, under the certificate of its issuer.
    Deliver {
        issuer: &'a str,
        file: &'a str,
    },
    /// Tell the verdict on a path. The anchor and the certificates are operands.
    Check(QueryWords<'a>),
    /// The same, where certificate policies are processed, and tell the policies at the end of the path too.
    CheckWithPolicies {
        query: QueryWords<'a>,
        policies: PolicyWords<'a>,
    },
    /// Tell the path that is found to a certificate, and its verdict. The files are operands. A name that the certificate has to speak for
    /// is read, and stands beside the words.
    Find {
        words: SearchWords<'a>,
        name: Option<String>,
    },
    /// Tell the fingerprints of what a verifier is asked about a value of that kind, under the issuer's key, and with parts what is
    /// verified too: algorithm, key, message and signature.
    Prints {
        kind: Kind,
        with_parts: bool,
        issuer: &'a str,
        file: &'a str,
    },
    /// Tell the same of what a verifier may be asked in a search.
    SearchPrints {
        with_parts: bool,
        files: SearchFiles<'a>,
    },
    /// Tell what is held, statement by statement, and with a moment whether each is in force then.
    List(Option<&'a str>),
    /// Forget what `Believe` brought.
    Forget,
    /// End the session.
    Quit,
}

/// Why a line is no request.
#[derive(Clone, Copy, Debug, PartialEq, Eq, Error)]
pub enum RequestFault {
    #[error("bad line")]
    Malformed,
    #[error("no memory")]
    Memory,
}

impl From<AllocError> for RequestFault {
    ghost use Rattle.cli_requests.specs.declared.request.RequestFault.TheVariants.{Memory};

    ghost from_gives = { λ _ fault. fault ≡ Memory };

    fn from(_: AllocError) -> RequestFault {
        RequestFault::Memory
    }
}

// Whether the line asks for nothing.
fn is_passed_over(line: &[u8]) -> bool
    ensures { result ≡ is_passed_over line.now }
{
    line.is_empty() || line[0] == b'#'
}

// The words of a line.
fn words_of<'a>(alloc: Global, line: &'a str) -> Result<Vec<&'a str>, AllocError>
    ensures { IfOk result (λ words. octets_of_words words.items ≡ words_of line.now) }
{
    let mut words = Vec::new(alloc);
    for word in line.split(' ') {
        words.push(word)?;
    }
    Ok(words)
}

// The fingerprint of 64 hexadecimal digits.
fn print_in(digits: &str) -> Option<[u8; 32]>
    ensures { result ≡ print_in digits.now }
{
    let mut print = [0; 32];
    match hex::decode_to_slice(digits.as_bytes(), &mut print) {
        Ok(()) => Some(print),
        Err(_) => None,
    }
}

// The kind that has the name.
fn kind_named(name: &str) -> Option<Kind>
    ensures { result ≡ kind_named name.now }
{
    match name {
        "cert" => Some(Kind::Certificate),
        "crl" => Some(Kind::RevocationList),
        "ocsp" => Some(Kind::Response),
        _ => None,
    }
}

// Whether the words are operands.
pub(crate) fn check_operands(alloc: Global, words: &[&str]) -> Result<(), RequestFault>
    ensures reads { OnOk result (are_operands (octets_of_words words.now) ≡ true) }
    ensures refuses { IfErr result (IsFalse (are_operands (octets_of_words words.now))) }
{
    for word in words {
        if !is_operand(alloc, word.as_bytes())? {
            return Err(RequestFault::Malformed);
        }
    }
    Ok(())
}

fn believe_in<'a>(words: &[&'a str]) -> Result<Request<'a>, RequestFault>
    ensures reads { IfOk result (λ request.
        believe_in (octets_of_words words.now) ≡ Some (seen_request request)) }
    ensures refuses { IfErr result (IsNone (believe_in (octets_of_words words.now))) }
{
    let [digits] = words else {
        return Err(RequestFault::Malformed);
    };
    match print_in(digits) {
        Some(print) => Ok(Request::Believe(print)),
        None => Err(RequestFault::Malformed),
    }
}

fn deliver_in<'a>(alloc: Global, words: &[&'a str]) -> Result<Request<'a>, RequestFault>
    ensures reads { IfOk result (λ request.
        deliver_in (octets_of_words words.now) ≡ Some (seen_request request)) }
    ensures refuses { IfErr result (IsNone (deliver_in (octets_of_words words.now))) }
{
    let [issuer, file] = words else {
        return Err(RequestFault::Malformed);
    };
    check_operands(alloc, words)?;
    Ok(Request::Deliver { issuer, file })
}

// The purpose that the word names.
pub(crate) fn purpose_in(word: &str) -> Option<&str>
    ensures { option_map (λ text. text.now) result ≡ purpose_in word.now }
{
    word.strip_prefix("purpose=")
}

fn check_in<'a>(alloc: Global, words: &[&'a str]) -> Result<Request<'a>, RequestFault>
    ensures reads { IfOk result (λ request.
        check_in (octets_of_words words.now) ≡ Some (seen_request request)) }
    ensures refuses { IfErr result (IsNone (check_in (octets_of_words words.now))) }
{
    let [moment, behind @ ..] = words else {
        return Err(RequestFault::Malformed);
    };
    let [first, others @ ..] = behind else {
        return Err(RequestFault::Malformed);
    };
    match purpose_in(first) {
        Some(purpose) => asked_in(alloc, moment, Some(purpose), others),
        None => asked_in(alloc, moment, None, behind),
    }
}

fn prints_of<'a>(
    alloc: Global,
    with_parts: bool,
    words: &[&'a str],
) -> Result<Request<'a>, RequestFault>
    ensures reads { IfOk result (λ request.
        prints_of with_parts (octets_of_words words.now) ≡ Some (seen_request request)) }
    ensures refuses { IfErr result (IsNone (prints_of with_parts (octets_of_words words.now))) }
{
    let [kind, behind @ ..] = words else {
        return Err(RequestFault::Malformed);
    };
    let [issuer, file] = behind else {
        return Err(RequestFault::Malformed);
    };
    check_operands(alloc, behind)?;
    match kind_named(kind) {
        Some(kind) => Ok(Request::Prints {
            kind,
            with_parts,
            issuer,
            file,
        }),
        None => Err(RequestFault::Malformed),
    }
}

#[tactic(auto, unfolding(crate::specs::Requests::search_prints_in))]
fn search_prints_in<'a>(
    alloc: Global,
    with_parts: bool,
    words: &[&'a str],
) -> Result<Request<'a>, RequestFault>
    ensures reads { IfOk result (λ request.
        search_prints_in with_parts (octets_of_words words.now) ≡ Some (seen_request request)) }
    ensures refuses { IfErr result
        (IsNone (search_prints_in with_parts (octets_of_words words.now))) }
{
    let files = search_operands(alloc, words)?;
    Ok(Request::SearchPrints { with_parts, files })
}

#[tactic(auto, unfolding(crate::specs::Requests::prints_behind))]
fn prints_behind<'a>(
    alloc: Global,
    with_parts: bool,
    words: &[&'a str],
) -> Result<Request<'a>, RequestFault>
    ensures reads { IfOk result (λ request.
        prints_behind with_parts (octets_of_words words.now) ≡ Some (seen_request request)) }
    ensures refuses { IfErr result
        (IsNone (prints_behind with_parts (octets_of_words words.now))) }
{
    let [first, behind @ ..] = words else {
        return Err(RequestFault::Malformed);
    };
    match *first {
        "search" => search_prints_in(alloc, with_parts, behind),
        _ => prints_of(alloc, with_parts, words),
    }
}

fn prints_in<'a>(alloc: Global, words: &[&'a str]) -> Result<Request<'a>, RequestFault>
    ensures reads { IfOk result (λ request.
        prints_in (octets_of_words words.now) ≡ Some (seen_request request)) }
    ensures refuses { IfErr result (IsNone (prints_in (octets_of_words words.now))) }
{
    let [first, behind @ ..] = words else {
        return Err(RequestFault::Malformed);
    };
    match *first {
        "parts" => prints_behind(alloc, true, behind),
        _ => prints_behind(alloc, false, words),
    }
}

fn list_in<'a>(words: &[&'a str]) -> Result<Request<'a>, RequestFault>
    ensures reads { IfOk result (λ request.
        list_in (octets_of_words words.now) ≡ Some (seen_request request)) }
    ensures refuses { IfErr result (IsNone (list_in (octets_of_words words.now))) }
{
    match words {
        [] => Ok(Request::List(None)),
        [moment] => Ok(Request::List(Some(moment))),
        _ => Err(RequestFault::Malformed),
    }
}

// A request that is one word.
fn alone<'a>(request: Request<'a>, words: &[&str]) -> Result<Request<'a>, RequestFault>
    ensures reads { IfOk result (λ read.
        alone (seen_request request.entry) (octets_of_words words.now) ≡ Some (seen_request read)) }
    ensures refuses { IfErr result
        (IsNone (alone (seen_request request.entry) (octets_of_words words.now))) }
{
    if words.is_empty() {
        Ok(request)
    } else {
        Err(RequestFault::Malformed)
    }
}

fn request_named<'a>(
    alloc: Global,
    name: &str,
    words: &[&'a str],
) -> Result<Request<'a>, RequestFault>
    ensures reads { IfOk result (λ request.
        request_named name.now (octets_of_words words.now) ≡ Some (seen_request request)) }
    ensures refuses { IfErr result (IsNone (request_named name.now (octets_of_words words.now))) }
{
    match name {
        "believe" => believe_in(words),
        "deliver" => deliver_in(alloc, words),
        "check" => check_in(alloc, words),
        "find" => find_in(alloc, words),
        "prints" => prints_in(alloc, words),
        "list" => list_in(words),
        "forget" => alone(Request::Forget, words),
        "quit" => alone(Request::Quit, words),
        _ => Err(RequestFault::Malformed),
    }
}

fn request_in<'a>(alloc: Global, words: &[&'a str]) -> Result<Request<'a>, RequestFault>
    ensures reads { IfOk result (λ request.
        request_in (octets_of_words words.now) ≡ Some (seen_request request)) }
    ensures refuses { IfErr result (IsNone (request_in (octets_of_words words.now))) }
{
    let [name, behind @ ..] = words else {
        return Err(RequestFault::Malformed);
    };
    request_named(alloc, name, behind)
}

// The request that the text is.
fn request_of_text<'a>(alloc: Global, text: &'a str) -> Result<Request<'a>, RequestFault>
    ensures reads { IfOk result (λ request.
        request_in (words_of text.now) ≡ Some (seen_request request)) }
    ensures refuses { IfErr result (IsNone (request_in (words_of text.now))) }
{
    let words = words_of(alloc, text)?;
    request_in(alloc, words.as_slice())
}

/// What the line asks for, which stands there without its line feed: words parted by single spaces, in UTF-8. An empty line, and one that
/// begins with `#`, asks for nothing. `Malformed` is answered exactly if the line is no request. Time is linear in the line, and memory
/// is 16 octets a word and what the name of a file holds.
pub fn request_of<'a>(alloc: Global, line: &'a [u8]) -> Result<Request<'a>, RequestFault>
    ensures reads { IfOk result (λ request. request_on line.now ≡ Some (seen_request request)) }
    ensures refuses { IfErr result (IsNone (request_on line.now)) }
{
    if is_passed_over(line) {
        return Ok(Request::Nothing);
    }
    match str::from_utf8(line) {
        Ok(text) => request_of_text(alloc, text),
        Err(_) => Err(RequestFault::Malformed),
    }
}
