//! Values as trees.

ghost use Rattle.std.specs.Prelude.{◌≡◌, ◌⊎◌, IfOk, IfErr};
ghost use Rattle.der.specs.Encoding.{Encodes};
ghost use Rattle.der.specs.FirstFault.{IsFirstFault};
ghost use Rattle.der.specs.declared.fault.Fault.TheVariants.{Memory};
ghost use Rattle.der_tree.specs.Tree.{value_of, IsTreeOf, AreTreesIn, GivesTree};

use asn::{Cursor, Fault, Tlv, whole};
use std::alloc::{AllocError, Global};

/// A DER value: an identifier octet with its contents octets, or with the values inside.
#[derive(Drop)]
pub enum Tree {
    Primitive(u8, Vec<u8>),
    Constructed(u8, Vec<Tree>),
}

#[cycle(build)]
fn tree_of(alloc: Global, tlv: Tlv<'_>) -> Result<Tree, AllocError>
    ensures { IfOk result (IsTreeOf tlv.entry) }
{
    match tlv.inside() {
        None => Ok(Tree::Primitive(tlv.tag, Vec::from_slice(alloc, tlv.body)?)),
        Some(members) => Ok(Tree::Constructed(tlv.tag, trees_of(alloc, members)?)),
    }
}

#[cycle(build)]
fn trees_of(alloc: Global, members: Cursor<'_>) -> Result<Vec<Tree>, AllocError>
    ensures { IfOk result (λ trees. AreTreesIn members.entry trees.items) }
{
    let mut members = members;
    let mut trees = Vec::new(alloc);
    while let Some(tlv) = members.next() {
        trees.push(tree_of(alloc, tlv)?)?;
    }
    Ok(trees)
}

/// The tree of the one value that the octets encode, or the first fault, as `check` answers it; `Fault::Memory` only if a growth was
/// refused. Time is linear in the octets; the memory is that of the contents and of a node for each value.
pub fn parse_tree(alloc: Global, octets: &[u8]) -> Result<Tree, Fault>
    ensures found { IfOk result (λ tree. Encodes octets.now (value_of tree)) }
    ensures only { GivesTree octets.now result }
    ensures refused { IfErr result (λ fault. (fault ≡ Memory) ⊎ IsFirstFault octets.now fault) }
{
    let tlv = whole(octets)?;
    match tree_of(alloc, tlv) {
        Ok(tree) => Ok(tree),
        Err(_) => Err(Fault::Memory),
    }
}
