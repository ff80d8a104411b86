//! The encoding of a tree.

ghost use Rattle.std.specs.Prelude.{◌≡◌, ◌↔◌, ◌+◌, ◌<◌, ◌≤◌, ◌++◌, ◌∷◌, IsTrue, IfOk, IfSome, IfNone, OnOk};
ghost use Rattle.der.specs.Value.{primitive};
ghost use Rattle.der.specs.Encoding.{Encodes};
ghost use Rattle.der.specs.Length.{contents_limit, length_octets};
ghost use Rattle.asn.specs.Size.{size_around, IsHolder, octets_of, octets_of_all, IsEncodableAt, AreEncodableAt};
ghost use Rattle.der_tree.specs.Fault.{encode_fault_number, encode_fault_name};
ghost use Rattle.der_tree.specs.Tree.{value_of, values_of_trees, HasSizeAt, HaveSizeAt, HaveNoSizeAt, GivesEncoding, HasNoEncoding};

use crate::tree::Tree;
use der::{MAX_DEPTH, is_constructed_form, is_contents, is_refused_identifier};
use std::alloc::{AllocError, Global};
use thiserror::Error;

/// Why a tree was not encoded.
#[derive(Clone, Copy, Debug, PartialEq, Eq, Error)]
pub enum EncodeFault {
    #[error("no memory")]
    Memory,
    /// No octets encode the tree: it has an identifier octet that is not served or has the wrong form, contents that the type does not
    /// allow, 2^28 contents octets or more, or a value at depth 33.
    #[error("no octets encode the tree")]
    NotSpellable,
}

impl EncodeFault {
    /// The number of the fault: 8 or 9.
    pub fn number(self) -> u8
        ensures { result ≡ encode_fault_number self }
    {
        match self {
            EncodeFault::Memory => 8,
            EncodeFault::NotSpellable => 9,
        }
    }

    /// The name of the fault, printed beside the number.
    pub fn name(self) -> &'static str
        ensures { result.now ≡ encode_fault_name self }
    {
        match self {
            EncodeFault::Memory => "Memory",
            EncodeFault::NotSpellable => "NotSpellable",
        }
    }
}

/// Contents have fewer octets than this.
const CONTENTS_LIMIT: usize = 1 << 28;

/// How many octets an encoding with so many contents octets has.
fn with_header(contents: usize) -> usize
    requires { contents < contents_limit }
    ensures { result ≡ size_around contents }
{
    match contents {
        0..=127 => contents + 2,
        128..=255 => contents + 3,
        256..=65535 => contents + 4,
        65536..=16777215 => contents + 5,
        _ => contents + 6,
    }
}

/// How many octets the encoding of a primitive value has; `None` if it has none at this depth.
fn primitive_size(identifier: u8, contents: &[u8], depth: u32) -> Option<usize>
    ensures some { IfSome result (HasSizeAt depth (primitive identifier contents.now)) }
    ensures none { IfNone result (IsEncodableAt depth (primitive identifier contents.now) → ⊥) }
{
    if depth > MAX_DEPTH
        || is_refused_identifier(identifier)
        || is_constructed_form(identifier)
        || contents.len() >= CONTENTS_LIMIT
        || !is_contents(identifier, contents)
    {
        return None;
    }
    Some(with_header(contents.len()))
}

/// Whether a constructed value at this depth may have this identifier octet.
fn may_hold_values(identifier: u8, depth: u32) -> bool
    ensures { IsTrue result ↔ IsHolder depth identifier }
{
    depth <= MAX_DEPTH && !is_refused_identifier(identifier) && is_constructed_form(identifier)
}

/// How many octets the encoding of the tree has; `None` if it has none at this depth.
#[cycle(size)]
fn size_at(tree: &Tree, depth: u32) -> Option<usize>
    requires { depth ≤ 33 }
    ensures some { IfSome result (HasSizeAt depth (value_of tree.now)) }
    ensures bound { IfSome result (λ size. size < contents_limit + 6) }
    ensures none { IfNone result (IsEncodableAt depth (value_of tree.now) → ⊥) }
{
    match tree {
        Tree::Primitive(identifier, contents) => primitive_size(*identifier, contents, depth),
        Tree::Constructed(identifier, inner) => {
            if !may_hold_values(*identifier, depth) {
                return None;
            }
            let contents = sizes_at(inner, depth + 1)?;
            Some(with_header(contents))
        }
    }
}

/// How many octets the encodings of the trees have, one after the other; `None` if one has none at this depth, or if
/// they are too many for one value.
#[cycle(size)]
fn sizes_at(trees: &[Tree], depth: u32) -> Option<usize>
    requires { depth ≤ 33 }
    ensures some { IfSome result (HaveSizeAt depth (values_of_trees trees.now)) }
    ensures none { IfNone result (HaveNoSizeAt depth (values_of_trees trees.now)) }
{
    let mut size = 0;
    for tree in trees {
        size += size_at(tree, depth)?;
        if size >= CONTENTS_LIMIT {
            return None;
        }
    }
    Some(size)
}

/// Adds identifier and length octets.
fn push_header(out: &mut Vec<u8>, identifier: u8, contents: usize) -> Result<(), AllocError>
    requires { contents < contents_limit }
    ensures { OnOk result (out.new.items ≡ out.old.items ++ identifier ∷ length_octets contents) }
{
    let [highest, high, middle, low] = (contents as u32).to_be_bytes();
    match contents {
        0..=127 => out.extend_from_slice(&[identifier, low]),
        128..=255 => out.extend_from_slice(&[identifier, 0x81, low]),
        256..=65535 => out.extend_from_slice(&[identifier, 0x82, middle, low]),
        65536..=16777215 => out.extend_from_slice(&[identifier, 0x83, high, middle, low]),
        _ => out.extend_from_slice(&[identifier, 0x84, highest, high, middle, low]),
    }
}

/// Adds the encoding of the tree.
#[cycle(push)]
fn push_value(out: &mut Vec<u8>, tree: &Tree, depth: u32) -> Result<(), AllocError>
    requires depth { depth ≤ 32 }
    requires encodable { IsEncodableAt depth (value_of tree.now) }
    ensures { OnOk result (out.new.items ≡ out.old.items ++ octets_of (value_of tree.now)) }
{
    match tree {
        Tree::Primitive(identifier, contents) => {
            push_header(out, *identifier, contents.len())?;
            out.extend_from_slice(contents)
        }
        Tree::Constructed(identifier, inner) => {
            let Some(contents) = sizes_at(inner, depth + 1) else {
                unreachable!()
            };
            push_header(out, *identifier, contents)?;
            push_values(out, inner, depth + 1)
        }
    }
}

/// Adds the encodings of the trees, one after the other.
#[cycle(push)]
fn push_values(out: &mut Vec<u8>, trees: &[Tree], depth: u32) -> Result<(), AllocError>
    requires { AreEncodableAt depth (values_of_trees trees.now) }
    ensures { OnOk result (out.new.items ≡ out.old.items ++ octets_of_all
        (values_of_trees trees.now)) }
{
    for tree in trees {
        push_value(out, tree, depth)?;
    }
    Ok(())
}

/// The octets of a tree that has an encoding, of so many octets.
fn octets_of_tree(alloc: Global, tree: &Tree, size: usize) -> Result<Vec<u8>, AllocError>
    requires { IsEncodableAt 1 (value_of tree.now) }
    ensures { IfOk result (λ octets. octets.items ≡ octets_of (value_of tree.now)) }
{
    let mut octets = Vec::with_capacity(alloc, size)?;
    push_value(&mut octets, tree, 1)?;
    Ok(octets)
}

/// The one encoding of the tree (X.690, 10.1). Whether there is one is checked before memory is taken, so `NotSpellable` is exact, and
/// `Memory` comes only if a growth was refused. Time is linear in the octets and in the nodes times their depth, which is at most 32; the
/// octets are allocated once.
pub fn encode(alloc: Global, tree: &Tree) -> Result<Vec<u8>, EncodeFault>
    ensures found { IfOk result (λ octets. Encodes octets.items (value_of tree.now)) }
    ensures only { GivesEncoding (value_of tree.now) result }
    ensures refused { (result ≡ Err EncodeFault.NotSpellable) ↔ HasNoEncoding (value_of tree.now) }
{
    let Some(size) = size_at(tree, 1) else {
        return Err(EncodeFault::NotSpellable);
    };
    match octets_of_tree(alloc, tree, size) {
        Ok(octets) => Ok(octets),
        Err(_) => Err(EncodeFault::Memory),
    }
}
