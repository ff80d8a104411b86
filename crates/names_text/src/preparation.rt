//! Texts of attribute values, prepared for comparison (RFC 5280, 7.1).

ghost use Rattle.std.specs.Prelude.{◌≡◌, ◌≤◌, ◌↔◌, [], IsTrue, IfOk, MatchOption, length};
ghost use Rattle.std.specs.List.{position, position_or_len};
ghost use Rattle.names_text.specs.Preparation.{words, prepared, is_space, not_space, IsFirstWord, PreparationIsIdempotent, CaseIsIgnored, EndSpacesAreDropped, SpaceRunsAreOneSpace, InnerSpacesStay, WordsStay};

use std::alloc::{AllocError, Global};

/// The index of the first octet that is no space.
fn first_other(text: &[u8]) -> Option<usize>
    ensures { result ≡ position not_space text.now }
{
    text.iter().position(|octet| *octet != b' ')
}

/// The index of the first space.
fn first_space(text: &[u8]) -> Option<usize>
    ensures { result ≡ position is_space text.now }
{
    text.iter().position(|octet| *octet == b' ')
}

/// How many spaces `text` begins with.
fn spaces_before(text: &[u8]) -> usize
    ensures bound { result ≤ length text.now }
    ensures value { result ≡ position_or_len not_space text.now }
{
    match first_other(text) {
        Some(index) => index,
        None => text.len(),
    }
}

/// How many octets stand before the first space.
fn word_len(text: &[u8]) -> usize
    ensures bound { result ≤ length text.now }
    ensures value { result ≡ position_or_len is_space text.now }
{
    match first_space(text) {
        Some(index) => index,
        None => text.len(),
    }
}

/// The first word of `text`, and what stands after it.
fn next_word(text: &[u8]) -> Option<(&[u8], &[u8])>
    ensures { MatchOption result (words text.now ≡ []) (IsFirstWord text.now) }
{
    let (_, rest) = text.split_at(spaces_before(text));
    if rest.is_empty() {
        return None;
    }
    Some(rest.split_at(word_len(rest)))
}

/// Whether two texts are equal after preparation (RFC 5280, 7.1). It walks both once, in place.
pub fn same_prepared(left: &[u8], right: &[u8]) -> bool
    ensures { IsTrue result ↔ (prepared left.now ≡ prepared right.now) }
{
    let mut left_rest = left;
    let mut right_rest = right;
    loop {
        match (next_word(left_rest), next_word(right_rest)) {
            (None, None) => return true,
            (Some((left_word, left_after)), Some((right_word, right_after))) => {
                if !left_word.eq_ignore_ascii_case(right_word) {
                    return false;
                }
                left_rest = left_after;
                right_rest = right_after;
            }
            _ => return false,
        }
    }
}

/// The text in lower case, without spaces at its ends and with each run of spaces as one. Time is linear.
pub fn prepared_text(alloc: Global, text: &[u8]) -> Result<Vec<u8>, AllocError>
    ensures { IfOk result (λ out. out.items ≡ prepared text.now) }
{
    let mut out = Vec::with_capacity(alloc, text.len())?;
    let Some((first, after)) = next_word(text) else {
        return Ok(out);
    };
    out.extend_from_slice(first)?;
    let mut rest = after;
    while let Some((word, after)) = next_word(rest) {
        out.push(b' ')?;
        out.extend_from_slice(word)?;
        rest = after;
    }
    out.as_mut_slice().make_ascii_lowercase();
    Ok(out)
}

/// What preparation keeps and what it drops. Together the laws fix the prepared text of each text.
pub fn preparation_laws()
    ensures idempotent { PreparationIsIdempotent }
    ensures case { CaseIsIgnored }
    ensures ends { EndSpacesAreDropped }
    ensures runs { SpaceRunsAreOneSpace }
    ensures inner { InnerSpacesStay }
    ensures words { WordsStay }
{}
