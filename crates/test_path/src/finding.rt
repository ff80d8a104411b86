//! Searches from texts in the notation of `vectors`.

use crate::building::MIDDLE;
use cert::{CertFault, Certificate};
use path_search::{
    Answer, Budget, Issuer, Options, Search, SearchQuestion, Stuck, WhyNot, find, questions,
    why_not,
};
use path_verifiers::{ListVerifier, Verifier, fingerprint};
use std::alloc::{AllocError, AllocFailed, Global};
use std::fmt::Write;
use vectors::{NotationFault, ToyVerifier, certificate};

/// Why a search of texts has no answer.
#[derive(Clone, Copy, Debug, PartialEq, Eq)]
pub enum SearchFault {
    Memory,
    /// A text gives no certificate.
    Text,
}

impl From<AllocError> for SearchFault {
    fn from(_: AllocError) -> SearchFault {
        SearchFault::Memory
    }
}

impl<T: Drop> From<AllocFailed<T>> for SearchFault {
    fn from(_: AllocFailed<T>) -> SearchFault {
        SearchFault::Memory
    }
}

impl From<NotationFault> for SearchFault {
    fn from(fault: NotationFault) -> SearchFault {
        match fault {
            NotationFault::Memory => SearchFault::Memory,
            _ => SearchFault::Text,
        }
    }
}

impl From<CertFault> for SearchFault {
    fn from(fault: CertFault) -> SearchFault {
        match fault {
            CertFault::Memory => SearchFault::Memory,
            CertFault::Refused(_, _) => SearchFault::Text,
        }
    }
}

/// The octets of the certificates that the texts ask for, between which semicolons stand.
pub fn octets_of(alloc: Global, texts: &str) -> Result<Vec<Vec<u8>>, SearchFault> {
    let mut all = Vec::new(alloc);
    for text in texts.split(';') {
        let text = text.trim();
        if !text.is_empty() {
            all.push(certificate(alloc, text)?)?;
        }
    }
    Ok(all)
}

/// The certificates that the octets are.
fn certificates_of(alloc: Global, all: &[Vec<u8>]) -> Result<Vec<Certificate<'_>>, SearchFault> {
    let mut read = Vec::new(alloc);
    for octets in all {
        read.push(Certificate::read(alloc, octets)?)?;
    }
    Ok(read)
}

/// The answer as a row has it.
fn text_of(alloc: Global, answer: &Answer) -> Result<String, SearchFault> {
    match answer {
        Answer::NotFound => Ok(format!(in alloc; "none")?),
        Answer::GaveUp => Ok(format!(in alloc; "gave up")?),
        Answer::Found(found) => {
            let mut text = format!(in alloc; "{} :", found.anchor)?;
            for place in &found.above {
                text.push_str(&format!(in alloc; " {place}")?)?;
            }
            Ok(text)
        }
    }
}

/// The places as a row has them.
fn push_places(alloc: Global, text: &mut String, places: &[usize]) -> Result<(), SearchFault> {
    for place in places {
        text.push_str(&format!(in alloc; " {place}")?)?;
    }
    Ok(())
}

/// Where paths end, as a row has it.
fn text_of_stuck(alloc: Global, stuck: &Stuck) -> Result<String, SearchFault> {
    let mut text = format!(in alloc; "above")?;
    push_places(alloc, &mut text, &stuck.above)?;
    text.push_str(" :")?;
    push_places(alloc, &mut text, &stuck.anchors)?;
    text.push_str(" :")?;
    for obstacle in &stuck.bag {
        let reason = obstacle.reason.name();
        text.push_str(&format!(in alloc; " {} {reason}", obstacle.place)?)?;
    }
    Ok(text)
}

/// Why nothing is found, as a row has it.
fn text_of_why(alloc: Global, why: &Option<WhyNot>) -> Result<String, SearchFault> {
    match why {
        None => Ok(format!(in alloc; "gave up")?),
        Some(WhyNot::Target(reason)) => Ok(format!(in alloc; "target {}", reason.name())?),
        Some(WhyNot::Stuck(stuck)) => text_of_stuck(alloc, stuck),
    }
}

/// The search among certificates, of which the first are the anchors, so many, and the last is the target.
fn search_of<'p, 'c>(
    all: &'p [Certificate<'c>],
    anchors: usize,
    purpose: Option<&'p [u8]>,
) -> Result<Search<'p, 'c>, SearchFault> {
    let Some((anchors, behind)) = all.split_at_checked(anchors) else {
        return Err(SearchFault::Text);
    };
    let Some((target, bag)) = behind.split_last() else {
        return Err(SearchFault::Text);
    };
    Ok(Search {
        anchors,
        bag,
        target,
        moment: MIDDLE,
        purpose,
        options: Options::stated(),
    })
}

/// What is found among such certificates.
fn found_over(
    alloc: Global,
    all: &[Certificate<'_>],
    anchors: usize,
    budget: Budget,
) -> Result<String, SearchFault> {
    let search = search_of(all, anchors, None)?;
    let answer = find(alloc, &ToyVerifier, &search, budget)?;
    text_of(alloc, &answer)
}

/// Why nothing is found among them.
fn explained_over(
    alloc: Global,
    all: &[Certificate<'_>],
    anchors: usize,
    purpose: Option<&[u8]>,
    budget: Budget,
) -> Result<String, SearchFault> {
    let search = search_of(all, anchors, purpose)?;
    let why = why_not(alloc, &ToyVerifier, &search, budget)?;
    text_of_why(alloc, &why)
}

/// The octets of anchors, a bag and a target in one list: what a search is made of is lent by one owner.
fn joined(
    anchors: Vec<Vec<u8>>,
    bag: Vec<Vec<u8>>,
    target: Vec<u8>,
) -> Result<Vec<Vec<u8>>, SearchFault> {
    let mut all = anchors;
    for octets in bag {
        all.push(octets)?;
    }
    all.push(target)?;
    Ok(all)
}

/// What is found among certificates that were built, as a row has it.
pub fn found_among(
    alloc: Global,
    anchors: Vec<Vec<u8>>,
    bag: Vec<Vec<u8>>,
    target: Vec<u8>,
    budget: Budget,
) -> Result<String, SearchFault> {
    let count = anchors.len();
    let all = joined(anchors, bag, target)?;
    let read = certificates_of(alloc, &all)?;
    found_over(alloc, &read, count, budget)
}

/// The questions as a row has them.
fn text_of_questions(alloc: Global, asked: &[SearchQuestion]) -> Result<String, SearchFault> {
    let mut text = String::new(alloc);
    for question in asked {
        let below = question.certificate;
        match question.issuer {
            Issuer::Anchor(place) => {
                text.push_str(&format!(in alloc; " anchor {place} of {below}")?)?;
            }
            Issuer::Bag(place) => text.push_str(&format!(in alloc; " {place} of {below}")?)?,
        }
    }
    Ok(text)
}

/// The verifier that believes the questions that are answered with yes, and nothing else.
fn believing(
    alloc: Global,
    search: &Search<'_, '_>,
    asked: &[SearchQuestion],
) -> Result<ListVerifier, SearchFault> {
    let mut prints = Vec::new(alloc);
    for question in asked {
        let certificate = search.certificate_at(question.certificate);
        let key = search
            .issuer_at(question.issuer)
            .subject_public_key_info
            .value
            .whole;
        let algorithm = certificate.algorithm.value.whole;
        let signature = certificate.signature.octets();
        if ToyVerifier.judge(algorithm, key, certificate.tbs.whole, signature) {
            prints.push(fingerprint(algorithm, key, certificate.tbs.whole, signature))?;
        }
    }
    Ok(ListVerifier::new(prints))
}

/// What a search may ask, and what is found by the answers alone.
fn asked_over(
    alloc: Global,
    all: &[Certificate<'_>],
    anchors: usize,
    budget: Budget,
) -> Result<(String, String), SearchFault> {
    let search = search_of(all, anchors, None)?;
    let asked = questions(alloc, &search)?;
    let listed = believing(alloc, &search, &asked)?;
    let answer = find(alloc, &listed, &search, budget)?;
    Ok((text_of_questions(alloc, &asked)?, text_of(alloc, &answer)?))
}

/// What is asked about certificates that were built, and what is found by the answers alone, as rows have them.
pub fn asked_among(
    alloc: Global,
    anchors: Vec<Vec<u8>>,
    bag: Vec<Vec<u8>>,
    target: Vec<u8>,
    budget: Budget,
) -> Result<(String, String), SearchFault> {
    let count = anchors.len();
    let all = joined(anchors, bag, target)?;
    let read = certificates_of(alloc, &all)?;
    asked_over(alloc, &read, count, budget)
}

/// Why nothing is found among certificates that were built, as a row has it.
pub fn explained_among(
    alloc: Global,
    anchors: Vec<Vec<u8>>,
    bag: Vec<Vec<u8>>,
    target: Vec<u8>,
    purpose: Option<&[u8]>,
    budget: Budget,
) -> Result<String, SearchFault> {
    let count = anchors.len();
    let all = joined(anchors, bag, target)?;
    let read = certificates_of(alloc, &all)?;
    explained_over(alloc, &read, count, purpose, budget)
}
