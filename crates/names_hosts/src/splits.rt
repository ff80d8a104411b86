//! What stands before and behind the last octet of one value, and what stands between two.

ghost use Rattle.std.specs.Prelude.{◌≡◌, option_map, option_copied};
ghost use Rattle.names_hosts.specs.Splits.{last_split, before_end, between};

/// What stands before and behind the last of these octets.
pub(crate) fn last_split(text: &[u8], mark: u8) -> Option<(&[u8], &[u8])>
    ensures { option_map (λ parts. (parts.0.now, parts.1.now)) result ≡ last_split mark text.now }
{
    match text.iter().rposition(|octet| *octet == mark) {
        Some(at) => Some((&text[..at], &text[at + 1..])),
        None => None,
    }
}

/// What stands before this octet at the end.
fn before_end(text: &[u8], close: u8) -> Option<&[u8]>
    ensures { option_copied result ≡ before_end close text.now }
{
    match text.split_last() {
        Some((last, front)) => (*last == close).then_some(front),
        None => None,
    }
}

/// What stands between this octet at the front and the other at the end.
pub(crate) fn between(text: &[u8], start: u8, close: u8) -> Option<&[u8]>
    ensures { option_copied result ≡ between start close text.now }
{
    match text.split_first() {
        Some((first, rest)) if *first == start => before_end(rest, close),
        _ => None,
    }
}
