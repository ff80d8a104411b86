//! Entries about a topic.
ghost use Rattle.std.specs.Prelude.{◌≡◌, OnErr, OnOk, map};
ghost use Rattle.std.specs.List.{list_any, position};
ghost use Rattle.std.specs.Str.{bytes_eq};
ghost use Rattle.std.specs.Io.KnownBytes.{Appends};
ghost use Rattle.cli_answers.specs.Fronts.{TakesFront};
ghost use Rattle.cli_failures.specs.Topics.{about_all, explanation, entry_head, is_on_topic, is_colon, is_known, line_if_about, head_words};

use cli_answers::write_front;
use std::io;
use std::io::Write;

/// The place of the first colon.
fn first_colon(entry: &[u8]) -> Option<usize>
    ensures { result ≡ position is_colon entry.now }
{
    entry.iter().position(|octet| *octet == b':')
}

/// What stands before the colon of an entry.
fn head_of(entry: &[u8]) -> &[u8]
    ensures { result.now ≡ entry_head entry.now }
{
    match first_colon(entry) {
        Some(at) => entry.split_at(at).0,
        None => entry,
    }
}

/// Whether the head has the word.
fn has_word(head: &[u8], word: &[u8]) -> bool
    ensures { result ≡ list_any (λ piece. bytes_eq piece word.now) (head_words head.now) }
{
    head.split(|octet| *octet == b' ')
        .any(|piece| piece == word)
}

/// Whether the head has all of the words.
fn is_about(head: &[u8], words: &[&str]) -> bool
    ensures { result ≡ about_all head.now (map (λ w. w.now) words.now) }
{
    words.iter().all(|word| has_word(head, word.as_bytes()))
}

/// Whether the entry is about the topic.
fn entry_is_about(entry: &[u8], words: &[&str]) -> bool
    ensures { result ≡ is_on_topic (map (λ w. w.now) words.now) entry.now }
{
    is_about(head_of(entry), words)
}

/// Whether one of the entries is about the topic.
fn has_entry(entries: &[u8], words: &[&str]) -> bool
    ensures { result ≡ is_known entries.now (map (λ w. w.now) words.now) }
{
    entries
        .split(|octet| *octet == b'\n')
        .any(|entry| entry_is_about(entry, words))
}

/// Whether one of the entries is about the topic. Entries are lines; a topic is words, and an entry is about it if its head, which ends at
/// a colon, has all of them: every entry is about no words.
pub fn is_known(entries: &str, words: &[&str]) -> bool
    ensures { result ≡ is_known entries.now (map (λ w. w.now) words.now) }
{
    has_entry(entries.as_bytes(), words)
}

/// Writes the entry, if it is about the topic, or a front of it.
fn write_if_about<W: Write>(entry: &[u8], words: &[&str], writer: &mut W) -> io::Result<()>
    ensures written { OnOk result (Appends (W.contents writer.old) (W.contents writer.new)
        (line_if_about (map (λ w. w.now) words.now) entry.now)) }
    ensures front { OnErr result (TakesFront (W.contents writer.old) (W.contents writer.new)
        (line_if_about (map (λ w. w.now) words.now) entry.now)) }
{
    if !entry_is_about(entry, words) {
        return Ok(());
    }
    match write_front(entry, writer) {
        Ok(()) => write_front(b"\n", writer),
        Err(error) => Err(error),
    }
}

/// Writes the entries that are about the topic, a line each, in their order; if the writer fails, it has taken a front of them, which may be
/// nothing. It takes no memory.
pub fn explain_to<W: Write>(entries: &str, words: &[&str], writer: &mut W) -> io::Result<()>
    ensures written { OnOk result (Appends (W.contents writer.old) (W.contents writer.new)
        (explanation entries.now (map (λ w. w.now) words.now))) }
    ensures front { OnErr result (TakesFront (W.contents writer.old) (W.contents writer.new)
        (explanation entries.now (map (λ w. w.now) words.now))) }
{
    for entry in entries.split('\n') {
        if let Err(error) = write_if_about(entry.as_bytes(), words, writer) {
            return Err(error);
        }
    }
    Ok(())
}
