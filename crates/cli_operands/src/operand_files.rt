//! The certificates that are asked about: those of the anchor and of the path.
ghost use Rattle.std.specs.Prelude.{IfErr, IfOk};
ghost use Rattle.path.specs.Reading.{seen_query};
ghost use Rattle.cli_words.specs.QueryTexts.{seen_words};
ghost use Rattle.cli_operands.specs.Asked.{IsFailureOfCertificates};
ghost use Rattle.cli_operands.specs.Operands.{AreOperands, IsQueryOf, IsRefusalIn};

use crate::path_file::PathFiles;
use crate::path_files::{certificates_of, read_files};
use crate::terms::Terms;
use cli_failures::{Extent, Failure, Source, read_certificate};
use cli_words::QueryWords;
use path::{Options, Query};
use std::alloc::Global;

// One more than a path may have, so that a path that is too long is reported as such.
const MOST_OF_PATH: u32 = 129;

/// The octets of the files that the words of a query name.
#[derive(Drop)]
pub struct Operands<'a> {
    options: Options,
    anchor_file: &'a str,
    anchor: Vec<u8>,
    pub(crate) path: PathFiles<'a>,
}

/// Reads the anchor's file and then the files of the path, in order. Only an anchor that cannot be read is reported here:
/// `Operands::query` reports a file of the path that cannot be read, since a certificate before it may be refused. Memory is linear in
/// the octets of the files, of which no more are read than 129 values each.
pub fn read_operands<'a, S: Source>(
    source: &S,
    alloc: Global,
    words: &QueryWords<'a>,
) -> Result<Operands<'a>, Failure<'a>>
    ensures reads { IfOk result (AreOperands (S.holds source.now) (seen_words words.now)) }
    ensures fails { IfErr result
        (IsFailureOfCertificates (S.holds source.now) (seen_words words.now)) }
{
    let profile = source.profile();
    let anchor = source.octets_of(words.anchor, Extent::Value)?;
    let path = read_files(source, alloc, profile, words.files.as_slice(), MOST_OF_PATH);
    Ok(Operands {
        options: Options { profile },
        anchor_file: words.anchor,
        anchor,
        path,
    })
}

impl<'a> Operands<'a> {
    /// The query on these terms about the certificates of the anchor and of the path, each read once. The first that is refused is
    /// reported, the anchor first, and a file that could not be read after those before it.
    pub fn query<'q>(&'q self, alloc: Global, terms: &'q Terms) -> Result<Query<'q>, Failure<'a>>
        ensures asks { IfOk result (λ query. IsQueryOf self.now terms.now (seen_query query)) }
        ensures fails { IfErr result (IsRefusalIn self.now) }
    {
        let anchor = read_certificate(alloc, self.anchor_file, self.anchor.as_slice())?;
        let path = certificates_of(alloc, &self.path)?;
        Ok(Query {
            anchor,
            path,
            moment: terms.moment,
            purpose: terms.purpose.as_deref(),
            options: self.options,
        })
    }
}
