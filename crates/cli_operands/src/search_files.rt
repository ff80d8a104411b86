//! The certificates of a search: the one that is asked about, those of the anchors, and those that may stand between.
ghost use Rattle.std.specs.Prelude.{◌≡◌, IfErr, IfOk, map};
ghost use Rattle.path_issuers.specs.View.{seen_search};
ghost use Rattle.path_search.specs.Answer.{seen_candidate};
ghost use Rattle.cli_answers.specs.SearchText.{seen_place};
ghost use Rattle.cli_failures.specs.declared.failure.Failure.TheVariants.{NoMemory};
ghost use Rattle.cli_words.specs.SearchTexts.{seen_search_words};
ghost use Rattle.cli_operands.specs.Searching.{AreCertificatesOfSearch, ArePlacesIn, AreSearchOperands, IsFailureOfSearched, IsRefusalInSearch, IsSearchFor};

use crate::file_places::{place_or, push_place, push_places};
use crate::path_file::PathFiles;
use crate::path_files::{certificates_of, read_files};
use crate::terms::Terms;
use cert::Certificate;
use cli_answers::FilePlace;
use cli_failures::{Extent, Failure, Source, read_certificate_in};
use cli_words::SearchWords;
use path::Options;
use path_issuers::Search;
use path_search::Candidate;
use statements_facts::Profile;
use std::alloc::Global;

/// The octets of the files that the words of a search name.
#[derive(Drop)]
pub struct SearchOperands<'a> {
    /// In which the target is read, and those that may stand between. Of anchors points do not count.
    profile: Profile,
    target_file: &'a str,
    target: Vec<u8>,
    anchors: PathFiles<'a>,
    among: PathFiles<'a>,
}

/// The certificates of a search.
#[derive(Drop)]
pub struct SearchCertificates<'q> {
    /// Those of the anchors.
    pub anchors: Vec<Certificate<'q>>,
    /// Those that may stand between an anchor and the target.
    pub bag: Vec<Certificate<'q>>,
    /// The one that is asked about.
    pub target: Certificate<'q>,
    /// What is asked for besides.
    pub options: Options,
}

/// Reads the target's file, the files of the anchors, and those of the certificates that may stand between, in this order. Only a target
/// that cannot be read is reported here: `SearchOperands::certificates` reports another file that cannot be read, since a certificate
/// before it may be refused. Memory is linear in the octets of the files.
pub fn read_search_operands<'a, S: Source>(
    source: &S,
    alloc: Global,
    words: &SearchWords<'a>,
) -> Result<SearchOperands<'a>, Failure<'a>>
    ensures reads { IfOk result
        (AreSearchOperands (S.holds source.now) (seen_search_words words.now)) }
    ensures fails { IfErr result
        (IsFailureOfSearched (S.holds source.now) (seen_search_words words.now)) }
{
    let profile = source.profile();
    let target = source.octets_of(words.target, Extent::Value)?;
    let anchors = read_files(
        source,
        alloc,
        Profile::Stated,
        words.anchors.as_slice(),
        u32::MAX,
    );
    let among = read_files(source, alloc, profile, words.among.as_slice(), u32::MAX);
    Ok(SearchOperands {
        profile,
        target_file: words.target,
        target,
        anchors,
        among,
    })
}

impl<'a> SearchOperands<'a> {
    /// Their certificates, each read once. The first that is refused is reported: the target, then those of the anchors, then the others;
    /// and a file that could not be read after those before it.
    pub fn certificates<'q>(&'q self, alloc: Global) -> Result<SearchCertificates<'q>, Failure<'a>>
        ensures reads { IfOk result (AreCertificatesOfSearch self.now) }
        ensures fails { IfErr result (IsRefusalInSearch self.now) }
    {
        let octets = self.target.as_slice();
        let target = read_certificate_in(alloc, self.profile, self.target_file, octets)?;
        let anchors = certificates_of(alloc, &self.anchors)?;
        let bag = certificates_of(alloc, &self.among)?;
        Ok(SearchCertificates {
            anchors,
            bag,
            target,
            options: Options {
                profile: self.profile,
            },
        })
    }

    /// Where the certificates of the candidate's path stand, from the anchor down to the target. If one is not there, any place is
    /// answered in its stead. `NoMemory` if there is no room for the list.
    pub fn places(
        &self,
        alloc: Global,
        candidate: &Candidate,
    ) -> Result<Vec<FilePlace<'a>>, Failure<'a>>
        ensures places { IfOk result (λ places. ArePlacesIn self.now (seen_candidate candidate.now)
            (map seen_place places.items)) }
        ensures memory { IfErr result (λ failure. failure ≡ NoMemory) }
    {
        let target = FilePlace {
            file: self.target_file,
            number: 1,
        };
        let mut places = Vec::new(alloc);
        let anchor = place_or(&self.anchors.files, candidate.anchor, target);
        push_place(&mut places, anchor)?;
        push_places(&mut places, &self.among.files, &candidate.above, target)?;
        push_place(&mut places, target)?;
        Ok(places)
    }
}

impl<'q> SearchCertificates<'q> {
    /// The search on these terms.
    pub fn search<'p>(&'p self, terms: &'p Terms) -> Search<'p, 'q>
        ensures { IsSearchFor self.now terms.now (seen_search result) }
    {
        Search {
            anchors: self.anchors.as_slice(),
            bag: self.bag.as_slice(),
            target: &self.target,
            moment: terms.moment,
            purpose: terms.purpose.as_deref(),
            options: self.options,
        }
    }
}
