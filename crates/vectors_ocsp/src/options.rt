//! Options of a text: each in braces, one after the other.

use vectors::{NotationFault, NotationPart};

/// What stands between the braces of a text that stands there.
pub(crate) fn option_in<'a>(
    place: NotationPart<'a>,
    braced: &'a str,
) -> Result<NotationPart<'a>, NotationFault> {
    let inside = braced
        .strip_prefix('{')
        .and_then(|behind| behind.strip_suffix('}'))
        .ok_or(place.fault())?;
    Ok(place.behind(1, inside))
}

/// The word of an option, and its value, which is empty if there is none.
pub(crate) fn word_and_value<'a>(option: NotationPart<'a>) -> (NotationPart<'a>, NotationPart<'a>) {
    match option.split_at_first(' ') {
        None => (option, option.behind(option.text.len(), "")),
        Some(both) => both,
    }
}
