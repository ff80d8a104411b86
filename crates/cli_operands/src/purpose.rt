//! Purposes.
ghost use Rattle.std.specs.Prelude.{◌≡◌, ◌↔◌, ◌≢◌, ◌<◌, ◌+◌, ◌*◌, ◌^◌, ◌++◌, ℕ, List, IsTrue, IfNone, IfOk, IfSome, OnOk};
ghost use Rattle.std.specs.List.{All, flat_map};
ghost use Rattle.std.specs.Fmt.{decimal};
ghost use Rattle.cli_operands.specs.Purpose.{AreOidNumbers, IsDotted, IsPlain, NamesPurpose, IsServedArc, MayBegin, contents_of_arcs, leading_octets, subidentifier_octets};

use std::alloc::{AllocError, Global};

// The numbers in an OBJECT IDENTIFIER are below this: they have 63 bits.
const LIMIT: u64 = 1 << 63;

// Whether digits may stand so: no sign in front, and no zero before another digit.
fn is_plain(digits: &[u8]) -> bool
    ensures { IsTrue result ↔ IsPlain digits.now }
{
    !digits.is_empty() && digits[0] != b'+' && (digits[0] != b'0' || digits.len() == 1)
}

// The number that the text is in decimal, with no zero in front.
fn arc_of(text: &str) -> Option<u64>
    ensures arc { IfSome result (λ arc. IsServedArc arc × (text.now ≡ decimal arc)) }
    ensures none { IfNone result ((arc : ℕ) → IsServedArc arc → text.now ≢ decimal arc) }
{
    if !is_plain(text.as_bytes()) {
        return None;
    }
    let Ok(arc) = text.parse::<u64>() else {
        return None;
    };
    if arc < LIMIT { Some(arc) } else { None }
}

// The numbers of which the text is the dotted decimal.
fn arcs_of(alloc: Global, text: &str) -> Result<Option<Vec<u64>>, AllocError>
    ensures arcs { IfOk result (λ found. IfSome found (λ arcs.
        All IsServedArc arcs.items × IsDotted text.now arcs.items)) }
    ensures none { IfOk result (λ found. IfNone found
        ((arcs : List ℕ) → All IsServedArc arcs → IsDotted text.now arcs → ⊥)) }
{
    let mut arcs = Vec::new(alloc);
    for part in text.split('.') {
        let Some(arc) = arc_of(part) else {
            return Ok(None);
        };
        arcs.push(arc)?;
    }
    Ok(Some(arcs))
}

// The first subidentifier (X.690, 8.19.4).
fn first_subidentifier(first: u64, second: u64) -> Option<u64>
    requires { IsServedArc second }
    ensures number { IfSome result (λ number.
        MayBegin first second × (number ≡ first * 40 + second)) }
    ensures none { IfNone result (MayBegin first second → ⊥) }
{
    if first > 2 || (first < 2 && second >= 40) {
        return None;
    }
    let number = first * 40 + second;
    if number < LIMIT { Some(number) } else { None }
}

// Seven bits in each octet, the highest first, and bit 8 one; nothing for 0.
fn push_leading(contents: &mut Vec<u8>, number: u64) -> Result<(), AllocError>
    ensures { OnOk result (contents.new.items ≡ contents.old.items ++ leading_octets number) }
{
    if number == 0 {
        return Ok(());
    }
    push_leading(contents, number / 128)?;
    contents.push(128 + (number % 128) as u8)?;
    Ok(())
}

fn push_subidentifier(contents: &mut Vec<u8>, number: u64) -> Result<(), AllocError>
    ensures { OnOk result (contents.new.items ≡ contents.old.items ++ subidentifier_octets number) }
{
    push_leading(contents, number / 128)?;
    contents.push((number % 128) as u8)?;
    Ok(())
}

// The contents of these subidentifiers.
fn octets_of(alloc: Global, first: u64, others: &[u64]) -> Result<Vec<u8>, AllocError>
    ensures { IfOk result (λ contents.
        contents.items ≡ subidentifier_octets first ++ flat_map subidentifier_octets others.now) }
{
    let mut contents = Vec::new(alloc);
    push_subidentifier(&mut contents, first)?;
    for number in others {
        push_subidentifier(&mut contents, *number)?;
    }
    Ok(contents)
}

// The contents of the OBJECT IDENTIFIER that has these numbers.
fn purpose_in(alloc: Global, arcs: &[u64]) -> Result<Option<Vec<u8>>, AllocError>
    requires { All IsServedArc arcs.now }
    ensures contents { IfOk result (λ purpose. IfSome purpose (λ contents.
        AreOidNumbers arcs.now × (contents.items ≡ contents_of_arcs arcs.now))) }
    ensures none { IfOk result (λ purpose. IfNone purpose (AreOidNumbers arcs.now → ⊥)) }
{
    if arcs.len() < 2 {
        return Ok(None);
    }
    let Some(number) = first_subidentifier(arcs[0], arcs[1]) else {
        return Ok(None);
    };
    Ok(Some(octets_of(alloc, number, &arcs[2..])?))
}

/// The contents octets of the OBJECT IDENTIFIER that is the text in dotted decimal; `None` if it is none of those that the
/// program prints so: at least two numbers, none with a zero in front, each below 2^63, and those with which one may begin.
pub fn purpose_of(alloc: Global, text: &str) -> Result<Option<Vec<u8>>, AllocError>
    ensures purpose { IfOk result (λ purpose. IfSome purpose (λ contents.
        NamesPurpose text.now contents.items)) }
    ensures none { IfOk result (λ purpose. IfNone purpose
        ((contents : List ℕ) → NamesPurpose text.now contents → ⊥)) }
{
    let Some(arcs) = arcs_of(alloc, text)? else {
        return Ok(None);
    };
    purpose_in(alloc, arcs.as_slice())
}
