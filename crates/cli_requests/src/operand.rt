//! Operands: names of files, and octets that stand in the line.
ghost use Rattle.std.specs.Prelude.{◌≡◌, ◌<◌, ◌⊎◌, None, Some, IfNone, IfOk, IfSome, is_some, length, option_map, string_bytes};
ghost use Rattle.std.specs.List.{list_all};
ghost use Rattle.hex.specs.Hex.{is_hex_digit};
ghost use Rattle.cli_requests.specs.Operands.{octet_of_digits, file_in, file_name, is_plain, name_in, operand_of_digits, operand_in};
ghost use Rattle.cli_requests.specs.Operands.{seen_operand, text_in, text_of, with_octet};

use hex::FromHexError;
use std::alloc::{AllocError, Global};
use std::str;

/// An operand of a request.
#[derive(Debug, Drop, PartialEq, Eq)]
pub enum Operand {
    /// The name of a file.
    File(String),
    /// The octets themselves.
    Octets(Vec<u8>),
}

const ESCAPE: u8 = b'\\';

const ESCAPE_LEN: usize = 3;

// Whether the octet stands for itself in the name of a file.
fn is_plain(octet: u8) -> bool
    ensures { result ≡ is_plain octet }
{
    octet > b' ' && octet <= b'~' && octet != ESCAPE
}

// The octet of two hexadecimal digits.
fn escaped(high: u8, low: u8) -> Option<u8>
    ensures { result ≡ octet_of_digits high low }
{
    let mut octet = [0];
    match hex::decode_to_slice(&[high, low], &mut octet) {
        Ok(()) => Some(octet[0]),
        Err(_) => None,
    }
}

// The octet that a word begins with, and the rest of the word; `None` if it begins with none.
fn first_octet(word: &[u8]) -> Option<(u8, &[u8])>
    ensures reads { IfSome result (λ read.
        name_in word.now ≡ with_octet (Some read.0) (name_in read.1.now)) }
    ensures fewer { IfSome result (λ read. length read.1.now < length word.now) }
    ensures none { IfNone result ((length word.now ≡ 0) ⊎ (name_in word.now ≡ None)) }
{
    if word.is_empty() {
        return None;
    }
    if is_plain(word[0]) {
        let (_, rest) = word.split_at(1);
        return Some((word[0], rest));
    }
    if word.len() < ESCAPE_LEN {
        return None;
    }
    if word[0] != ESCAPE {
        return None;
    }
    let octet = escaped(word[1], word[2])?;
    let (_, rest) = word.split_at(ESCAPE_LEN);
    Some((octet, rest))
}

// The octets of the name that the word writes.
fn name_in(alloc: Global, word: &[u8]) -> Result<Option<Vec<u8>>, AllocError>
    ensures { IfOk result (λ name. option_map (λ octets. octets.items) name ≡ name_in word.now) }
{
    let mut name = Vec::new(alloc);
    let mut rest = word;
    while let Some((octet, behind)) = first_octet(rest) {
        name.push(octet)?;
        rest = behind;
    }
    if rest.is_empty() {
        Ok(Some(name))
    } else {
        Ok(None)
    }
}

// The text that these octets are.
fn text_of(alloc: Global, octets: &[u8]) -> Result<Option<String>, AllocError>
    ensures { IfOk result (λ text. option_map (λ read. string_bytes read) text
        ≡ text_of octets.now) }
{
    match str::from_utf8(octets) {
        Ok(text) => Ok(Some(String::from_str(alloc, text)?)),
        Err(_) => Ok(None),
    }
}

// The name that these octets are.
fn file_of(alloc: Global, octets: &[u8]) -> Result<Option<String>, AllocError>
    ensures { IfOk result (λ name. option_map (λ text. string_bytes text) name
        ≡ file_name octets.now) }
{
    if octets.is_empty() {
        return Ok(None);
    }
    text_of(alloc, octets)
}

// The name of a file that the word writes.
fn file_in(alloc: Global, word: &[u8]) -> Result<Option<Operand>, AllocError>
    ensures { IfOk result (λ found. option_map seen_operand found ≡ file_in word.now) }
{
    let Some(octets) = name_in(alloc, word)? else {
        return Ok(None);
    };
    match file_of(alloc, octets.as_slice())? {
        Some(name) => Ok(Some(Operand::File(name))),
        None => Ok(None),
    }
}

/// The text that the word writes, as it writes the name of a file; `None` if it writes none.
pub(crate) fn text_in(alloc: Global, word: &[u8]) -> Result<Option<String>, AllocError>
    ensures { IfOk result (λ text. option_map (λ read. string_bytes read) text ≡ text_in word.now) }
{
    match name_in(alloc, word)? {
        Some(octets) => text_of(alloc, octets.as_slice()),
        None => Ok(None),
    }
}

// The octets that the digits are.
fn octets_in(alloc: Global, digits: &[u8]) -> Result<Option<Operand>, AllocError>
    ensures { IfOk result (λ found. option_map seen_operand found ≡ operand_of_digits digits.now) }
{
    match hex::decode(alloc, digits) {
        Ok(octets) => Ok(Some(Operand::Octets(octets))),
        Err(FromHexError::OutOfMemory) => Err(AllocError),
        Err(_) => Ok(None),
    }
}

fn is_digit(octet: u8) -> bool
    ensures { result ≡ is_hex_digit octet }
{
    match octet {
        b'0'..=b'9' | b'A'..=b'F' | b'a'..=b'f' => true,
        _ => false,
    }
}

fn are_digits(digits: &[u8]) -> bool
    ensures { result ≡ list_all is_hex_digit digits.now }
{
    digits.iter().all(|octet| is_digit(*octet))
}

// Whether these are the digits of octets.
fn are_octets(digits: &[u8]) -> bool
    ensures { result ≡ is_some (operand_of_digits digits.now) }
{
    digits.len() % 2 == 0 && are_digits(digits)
}

/// Whether the word writes an operand. Octets take no memory.
pub(crate) fn is_operand(alloc: Global, word: &[u8]) -> Result<bool, AllocError>
    ensures { IfOk result (λ is. is ≡ is_some (operand_in word.now)) }
{
    match word.strip_prefix(b"hex:") {
        Some(digits) => Ok(are_octets(digits)),
        None => Ok(file_in(alloc, word)?.is_some()),
    }
}

/// The operand that the word writes; `None` if it writes none. Octets are `hex:` and two hexadecimal digits each; in the name of a file,
/// a backslash and two hexadecimal digits are an octet. Time and memory are linear in the word.
pub fn operand_of(alloc: Global, word: &[u8]) -> Result<Option<Operand>, AllocError>
    ensures { IfOk result (λ found. option_map seen_operand found ≡ operand_in word.now) }
{
    match word.strip_prefix(b"hex:") {
        Some(digits) => octets_in(alloc, digits),
        None => file_in(alloc, word),
    }
}
