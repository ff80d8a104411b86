//! What is asked of a path beside its certificates.
ghost use Rattle.std.specs.Prelude.{IfErr, IfOk, option_map};
ghost use Rattle.cli_operands.specs.Asked.{AreBadTerms, AreTerms, IsBadPurpose, IsPurposeOf};

use crate::{moment_of, purpose_of};
use cli_failures::Failure;
use std::alloc::Global;

/// The moment and the purpose of a query.
#[derive(Drop)]
pub struct Terms {
    /// In seconds from 1970-01-01T00:00:00Z.
    pub moment: i64,
    /// The contents of an OBJECT IDENTIFIER, if the path has to serve a purpose.
    pub purpose: Option<Vec<u8>>,
}

/// The contents of the purpose that is asked for, if one is.
fn read_purpose<'a>(alloc: Global, text: Option<&'a str>) -> Result<Option<Vec<u8>>, Failure<'a>>
    ensures reads { IfOk result (λ purpose. IsPurposeOf (option_map (λ s. s.now) text.entry)
        (option_map (λ contents. contents.items) purpose)) }
    ensures fails { IfErr result (IsBadPurpose (option_map (λ s. s.now) text.entry)) }
{
    let Some(text) = text else {
        return Ok(None);
    };
    match purpose_of(alloc, text) {
        Ok(Some(contents)) => Ok(Some(contents)),
        Ok(None) => Err(Failure::BadPurpose),
        Err(_) => Err(Failure::NoMemory),
    }
}

/// Reads the moment and then the purpose; the first that is wrong is reported (`BadTime`, `BadPurpose`), or `NoMemory`. No file is
/// read. Time and memory are linear in the text of the purpose.
pub fn read_terms<'a>(
    alloc: Global,
    moment: &'a str,
    purpose: Option<&'a str>,
) -> Result<Terms, Failure<'a>>
    ensures reads { IfOk result
        (AreTerms moment.entry.now (option_map (λ s. s.now) purpose.entry)) }
    ensures fails { IfErr result
        (AreBadTerms moment.entry.now (option_map (λ s. s.now) purpose.entry)) }
{
    let Some(moment) = moment_of(moment) else {
        return Err(Failure::BadTime);
    };
    let purpose = read_purpose(alloc, purpose)?;
    Ok(Terms { moment, purpose })
}
