//! Where certificates stand among those of files.
ghost use Rattle.std.specs.Prelude.{◌≡◌, ◌≤◌, ◌++◌, ◌∷◌, [], IfErr, MatchOption, OnOk, map, reverse};
ghost use Rattle.cli_answers.specs.SearchText.{seen_place};
ghost use Rattle.cli_failures.specs.declared.failure.Failure.TheVariants.{NoMemory};
ghost use Rattle.cli_operands.specs.FilePlaces.{GrowsByPlaces, StandsAmong, StandsIfThere, values_in};

use crate::path_file::PathFile;
use cli_answers::FilePlace;
use cli_failures::Failure;

/// The place of the value of that number among those that were read of the files, counted from 0; `None` if there are not so many.
fn place_among<'a>(files: &[PathFile<'a>], index: usize) -> Option<FilePlace<'a>>
    ensures { MatchOption result (values_in files.now ≤ index)
        (λ place. StandsAmong files.now index (seen_place place)) }
{
    let mut left = index;
    for it in files {
        if left < it.values.len() {
            return Some(FilePlace {
                file: it.file,
                number: left + 1,
            });
        }
        left -= it.values.len();
    }
    None
}

/// The same; the other place if there are not so many.
pub(crate) fn place_or<'a>(
    files: &[PathFile<'a>],
    index: usize,
    other: FilePlace<'a>,
) -> FilePlace<'a>
    ensures { StandsIfThere files.now index (seen_place result) }
{
    place_among(files, index).unwrap_or(other)
}

/// Adds a place.
pub(crate) fn push_place<'a>(
    places: &mut Vec<FilePlace<'a>>,
    place: FilePlace<'a>,
) -> Result<(), Failure<'a>>
    ensures pushed { OnOk result (places.new.items ≡ places.old.items ++ place.entry ∷ []) }
    ensures memory { IfErr result (λ failure. failure ≡ NoMemory) }
{
    match places.push(place) {
        Ok(()) => Ok(()),
        Err(_) => Err(Failure::NoMemory),
    }
}

/// Adds the places of the values of these numbers, the last one first.
pub(crate) fn push_places<'a>(
    places: &mut Vec<FilePlace<'a>>,
    files: &[PathFile<'a>],
    indexes: &[usize],
    other: FilePlace<'a>,
) -> Result<(), Failure<'a>>
    ensures pushed { OnOk result (GrowsByPlaces files.now (reverse indexes.now)
        (map seen_place places.old.items) (map seen_place places.new.items)) }
    ensures memory { IfErr result (λ failure. failure ≡ NoMemory) }
{
    for index in indexes.iter().rev() {
        push_place(places, place_or(files, *index, other))?;
    }
    Ok(())
}
