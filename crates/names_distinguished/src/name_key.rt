//! The key of a name: octets that two names share exactly if they match.

ghost use Rattle.std.specs.Prelude.{◌≡◌, ◌↔◌, ◌<◌, ◌^◌, ◌++◌, ◌∷◌, IsTrue, OnOk, IfOk, map, length};
ghost use Rattle.std.specs.FinMap.{entries};
ghost use Rattle.names_distinguished.specs.AttributeOrder.{AscendsByKind, HasSameValues, EndsInKind, AreFirstOfEach};
ghost use Rattle.names_distinguished.specs.NameKey.{four_octets, counted, entry_key, rdn_key, name_key, rdns_key, EntryFits, RdnFits, KeyIsExact, KeyTellsItsEnd, WithinIsByKeys};
ghost use Rattle.names_distinguished.specs.NameOctets.{KeysDecideMatching, KeysDecideWithin, KeysTellTheirEnd};
ghost use Rattle.names_distinguished.specs.NameView.{entry_of, entries_of, map_of, maps_of};

use crate::attribute::{Attribute, is_text};
use crate::rdn::Rdn;
use crate::rdn_sequence::RdnSequence;
use names_text::prepared_text;
use std::alloc::{AllocError, Global};

/// Adds a number in four octets, the highest first.
fn push_number(out: &mut Vec<u8>, value: usize) -> Result<(), AllocError>
    requires { value < 2 ^ 32 }
    ensures { OnOk result (out.new.items ≡ out.old.items ++ four_octets value) }
{
    out.extend_from_slice(&(value as u32).to_be_bytes())
}

/// Adds octets after their number.
fn push_counted(out: &mut Vec<u8>, octets: &[u8]) -> Result<(), AllocError>
    requires { length octets.now < 2 ^ 32 }
    ensures { OnOk result (out.new.items ≡ out.old.items ++ counted octets.now) }
{
    push_number(out, octets.len())?;
    out.extend_from_slice(octets)
}

/// Adds an identifier octet and contents after their number.
fn push_tagged(out: &mut Vec<u8>, tag: u8, contents: &[u8]) -> Result<(), AllocError>
    requires { length (tag ∷ contents.now) < 2 ^ 32 }
    ensures { OnOk result (out.new.items ≡ out.old.items ++ counted (tag ∷ contents.now)) }
{
    push_number(out, contents.len() + 1)?;
    out.push(tag)?;
    out.extend_from_slice(contents)
}

/// Adds the key of an attribute.
fn push_attribute(
    alloc: Global,
    out: &mut Vec<u8>,
    attribute: &Attribute<'_>,
) -> Result<(), AllocError>
    requires { EntryFits (entry_of attribute.now) }
    ensures { OnOk result (out.new.items ≡ out.old.items ++ entry_key (entry_of attribute.now)) }
{
    push_counted(out, attribute.kind)?;
    if is_text(attribute.tag) {
        let text = prepared_text(alloc, attribute.contents)?;
        out.push(1)?;
        push_counted(out, &text)
    } else {
        out.push(0)?;
        push_tagged(out, attribute.tag, attribute.contents)
    }
}

/// The attributes of the set, in their order.
fn attributes_of<'a>(alloc: Global, rdn: &Rdn<'a>) -> Result<Vec<Attribute<'a>>, AllocError>
    ensures { IfOk result (λ list. map entry_of list.items ≡ entries_of rdn.now) }
{
    let mut list = Vec::new(alloc);
    let mut rest = *rdn;
    while let Some((attribute, after)) = rest.split_first() {
        list.push(attribute)?;
        rest = after;
    }
    Ok(list)
}

/// Sorts by type. Attributes of one type keep their order.
fn sort_by_kind(attributes: &mut Vec<Attribute<'_>>) -> Result<(), AllocError>
    ensures ascending { OnOk result (AscendsByKind attributes.new.items) }
    ensures values { HasSameValues attributes.old.items attributes.new.items }
{
    attributes.sort_by(|left, right| left.kind.cmp(right.kind))
}

/// Whether the last of the attributes has the type.
fn ends_in_kind(attributes: &[Attribute<'_>], kind: &[u8]) -> bool
    ensures { IsTrue result ↔ EndsInKind attributes.now kind.now }
{
    match attributes.last() {
        Some(last) => last.kind == kind,
        None => false,
    }
}

/// Of the attributes of each type the first.
fn first_of_each<'a>(
    alloc: Global,
    sorted: &[Attribute<'a>],
) -> Result<Vec<Attribute<'a>>, AllocError>
    requires { AscendsByKind sorted.now }
    ensures { IfOk result (λ list. AreFirstOfEach sorted.now list.items) }
{
    let mut list = Vec::new(alloc);
    for (i, attribute) in sorted.iter().enumerate() {
        if !ends_in_kind(&sorted[..i], attribute.kind) {
            list.push(*attribute)?;
        }
    }
    Ok(list)
}

/// The set as a map: its attributes, ascending by type.
fn ascending<'a>(alloc: Global, rdn: &Rdn<'a>) -> Result<Vec<Attribute<'a>>, AllocError>
    ensures { IfOk result (λ list. map entry_of list.items ≡ entries (map_of rdn.now)) }
{
    let mut attributes = attributes_of(alloc, rdn)?;
    sort_by_kind(&mut attributes)?;
    first_of_each(alloc, &attributes)
}

/// Adds the key of a set.
fn push_rdn(alloc: Global, out: &mut Vec<u8>, rdn: &Rdn<'_>) -> Result<(), AllocError>
    requires { RdnFits (map_of rdn.now) }
    ensures { OnOk result (out.new.items ≡ out.old.items ++ rdn_key (map_of rdn.now)) }
{
    let attributes = ascending(alloc, rdn)?;
    push_number(out, attributes.len())?;
    for attribute in &attributes {
        push_attribute(alloc, out, attribute)?;
    }
    Ok(())
}

/// How many sets the name has.
fn count_of(name: &RdnSequence<'_>) -> usize
    ensures { result ≡ length (maps_of name.now) }
{
    let mut count = 0;
    let mut rest = *name;
    while let Some((_, after)) = rest.split_first() {
        count += 1;
        rest = after;
    }
    count
}

/// Adds the keys of the sets.
#[tactic(auto, unfolding(crate::specs::NameKey::rdns_key))]
fn push_rdns(alloc: Global, out: &mut Vec<u8>, name: &RdnSequence<'_>) -> Result<(), AllocError>
    ensures { OnOk result (out.new.items ≡ out.old.items ++ rdns_key (maps_of name.now)) }
{
    let mut rest = *name;
    while let Some((rdn, after)) = rest.split_first() {
        push_rdn(alloc, out, &rdn)?;
        rest = after;
    }
    Ok(())
}

impl RdnSequence<'_> {
    /// The key: the number of sets; for each set the number of its attributes; for each attribute, ascending by type, the
    /// contents of the type's object identifier after their number, and either `01` and the prepared text after its number,
    /// or `00` and the identifier and contents of the value after their number. Numbers have four octets, the highest first.
    #[tactic(auto, unfolding(crate::specs::NameKey::name_key, crate::specs::NameKey::rdns_key))]
    pub(crate) fn key(&self, alloc: Global) -> Result<Vec<u8>, AllocError>
        ensures { IfOk result (λ key. key.items ≡ name_key (maps_of self.now)) }
    {
        let mut key = Vec::new(alloc);
        push_number(&mut key, count_of(self))?;
        push_rdns(alloc, &mut key, self)?;
        Ok(key)
    }

    /// The key without the number of sets.
    pub(crate) fn rdns_key(&self, alloc: Global) -> Result<Vec<u8>, AllocError>
        ensures { IfOk result (λ key. key.items ≡ rdns_key (maps_of self.now)) }
    {
        let mut sets = Vec::new(alloc);
        push_rdns(alloc, &mut sets, self)?;
        Ok(sets)
    }
}

/// Two names have one key exactly if they match; a key tells where it ends; and one name lies within another exactly if its key of sets
/// begins with the other's: any two that were read, and all lists of sets whose numbers fit in four octets.
pub fn key_laws()
    ensures names { KeysDecideMatching }
    ensures lists { KeyIsExact }
    ensures ends { KeysTellTheirEnd }
    ensures lists_end { KeyTellsItsEnd }
    ensures names_within { KeysDecideWithin }
    ensures lists_within { WithinIsByKeys }
{}
