//! RDNs of so many short runs that their attributes are sorted in batches.

use super::*;

/// An RDN of a hundred sizes with five types each, behind a run of one size; each size begins with lesser types than the one
/// before, or greater ones where `turned`. Values are spaces, so that all are equal as they are compared.
#[derive(Clone, Copy)]
struct Large {
    front: u32,
    turned: bool,
    /// The last attribute of the size has this type.
    replaced: Option<(u32, u32)>,
    /// The last attribute of the size has another value.
    marked: Option<u32>,
}

impl Large {
    fn base_of(&self, size: u32) -> u32 {
        if self.turned {
            size.saturating_sub(1)
        } else {
            100_u32.saturating_sub(size)
        }
    }

    fn kind_of(&self, size: u32, place: u32) -> u32 {
        match self.replaced {
            Some((replaced, kind)) if replaced == size && place == 4 => kind,
            _ => self.base_of(size).saturating_add(100 * (place % 8)),
        }
    }

    fn first_octet(&self, size: u32, place: u32) -> u8 {
        match self.marked {
            Some(marked) if marked == size && place == 4 => b'x',
            _ => b' ',
        }
    }

    fn attributes(&self, alloc: Global) -> Result<Vec<u8>, Fail> {
        let mut out = Vec::new(alloc);
        for i in 0..self.front {
            push_attribute(&mut out, 600 + i % 1024, 0, b' ')?;
        }
        for i in 0..500_u32 {
            let size = i / 5 + 1;
            let first = self.first_octet(size, i % 5);
            push_attribute(&mut out, self.kind_of(size, i % 5), size, first)?;
        }
        Ok(out)
    }

    fn name(&self, alloc: Global) -> Result<Vec<u8>, Fail> {
        let rdn = long_value_of(alloc, 0x31, &self.attributes(alloc)?)?;
        long_value_of(alloc, 0x30, &rdn)
    }
}

/// Adds an attribute with a type of three octets and a value of so many.
fn push_attribute(out: &mut Vec<u8>, kind: u32, size: u32, first: u8) -> Result<(), Fail> {
    let size = (size % 113) as u8;
    out.extend_from_slice(&[0x30, 7 + size, 0x06, 3, 0x55])?;
    out.extend_from_slice(&[(kind / 128 % 128) as u8, (kind % 128) as u8, UTF8, size])?;
    for i in 0..size {
        out.push(if i == 0 { first } else { b' ' })?;
    }
    Ok(())
}

/// A value with these contents, of more than 255 octets.
fn long_value_of(alloc: Global, tag: u8, contents: &[u8]) -> Result<Vec<u8>, Fail> {
    let mut out = vec![in alloc; tag; 1]?;
    out.push(0x82)?;
    out.extend_from_slice(&u16::try_from(contents.len())?.to_be_bytes())?;
    out.extend_from_slice(contents)?;
    Ok(out)
}

/// The length of the run in front; the size whose last attribute is of this type; the place of the repetition.
const REPETITIONS: &[(&str, u32, (u32, u32), Option<usize>)] = &[
    ("none", 0, (1, 499), None),
    ("none, behind a long run", 300, (1, 499), None),
    (
        "of an attribute before the first batch",
        0,
        (40, 498),
        Some(5_859),
    ),
    ("of the size before, in a batch", 0, (60, 441), Some(11_789)),
    (
        "of a much earlier one in the batch",
        0,
        (60, 480),
        Some(11_789),
    ),
    ("of one in the batch before", 0, (80, 470), Some(19_719)),
    (
        "of the first size, by the last attribute",
        0,
        (100, 499),
        Some(29_649),
    ),
    (
        "of a long run, early in a batch",
        300,
        (10, 650),
        Some(3_414),
    ),
    (
        "of a long run, by the last attribute",
        300,
        (100, 899),
        Some(32_349),
    ),
    (
        "at the end of a batch, of its beginning",
        300,
        (51, 499),
        Some(11_573),
    ),
    (
        "at the beginning of a batch, of the end of the one before",
        300,
        (52, 449),
        Some(11_877),
    ),
    ("none, of another type", 300, (52, 1023), None),
];

#[test]
fn repeats_are_found_in_batches(rt: HostRuntime) -> Result<(), Fail> {
    for (what, front, replaced, place) in REPETITIONS.iter() {
        let large = Large {
            front: *front,
            turned: false,
            replaced: Some(*replaced),
            marked: None,
        };
        let octets = large.name(rt.alloc())?;
        let want = place.map(|at| (NameRule::RdnRepeat, at));
        assert!(rt; Name::read(whole(&octets)?).err() == want, "{what}");
    }
    Ok(())
}

/// What is other in the second RDN: a type, a value; whether the names match.
const PAIRS: &[(&str, u32, Option<(u32, u32)>, Option<u32>, bool)] = &[
    ("the same in another order", 0, None, None, true),
    ("the same behind a long run", 300, None, None, true),
    (
        "another type in the first size",
        0,
        Some((1, 520)),
        None,
        false,
    ),
    (
        "another type in the last size",
        300,
        Some((100, 520)),
        None,
        false,
    ),
    ("another value in the first size", 0, None, Some(1), false),
    ("another value in a batch", 300, None, Some(57), false),
    ("another value in the last size", 0, None, Some(100), false),
];

#[test]
fn batches_are_matched(rt: HostRuntime) -> Result<(), Fail> {
    for (what, front, replaced, marked, want) in PAIRS.iter() {
        let plain = Large {
            front: *front,
            turned: true,
            replaced: None,
            marked: None,
        };
        let other = Large {
            front: *front,
            turned: false,
            replaced: *replaced,
            marked: *marked,
        };
        let left_octets = plain.name(rt.alloc())?;
        let right_octets = other.name(rt.alloc())?;
        let left = read(&left_octets)?;
        let right = read(&right_octets)?;
        let is_so = left.matches(&right) == *want && right.matches(&left) == *want;
        assert!(rt; is_so, "{what}");
    }
    Ok(())
}
