//! What is handed in: texts, and a query about a path in texts.

ghost use Rattle.std.specs.Prelude.{◌≡◌, ◌++◌, IfErr, IfOk, OnOk};
ghost use Rattle.std.specs.Option.{option_copied};
ghost use Rattle.path.specs.Reading.{seen_query, texts_of};
ghost use Rattle.capi_values.specs.Refusal.{TellsBadCertificate};
ghost use Rattle.asn.specs.DerLaws.{AreOctets};
ghost use Rattle.capi_values.specs.Texts.{AreAllOctets, IsQueryRead, certificate_texts, octets_of_texts, options_of, profile_of, purpose_if_any, query_certificates};

use crate::refusal::Refusal;
use path::{Options, Query};
use statements_facts::Profile;
use std::alloc::{AllocError, Global};

/// Octets of the caller.
#[derive(Clone, Copy, Debug)]
#[repr(C)]
pub struct Text<'a> {
    pub octets: &'a [u8],
}

/// A query about a path, as `path::Query`, in texts. If the purpose has no octets, no purpose is asked for. It is read in the stated profile,
/// and so are the statements that come with it; any number but 0 in `wide` asks for the wide one.
#[derive(Clone, Copy, Debug)]
#[repr(C)]
pub struct QueryOfTexts<'a> {
    pub anchor: Text<'a>,
    pub path: &'a [Text<'a>],
    pub moment: i64,
    pub purpose: Text<'a>,
    pub wide: u32,
}

/// No octet is greater than 255. The prover knows this of octets that are handed in alone.
fn have_octets(octets: &[u8])
    ensures { AreOctets octets.now }
{}

impl<'a> Text<'a> {
    pub(crate) fn octets(&self) -> &'a [u8]
        ensures same { result ≡ self.now.octets }
        ensures fit { AreOctets result.now }
    {
        have_octets(self.octets);
        self.octets
    }
}

/// Adds the octets of each text.
fn add_octets<'a>(octets: &mut Vec<&'a [u8]>, texts: &[Text<'a>]) -> Result<(), AllocError>
    ensures texts { OnOk result (texts_of octets.new.items
        ≡ texts_of octets.old.items ++ octets_of_texts texts.now) }
    ensures fit { OnOk result (AreAllOctets (texts_of octets.old.items)
        → AreAllOctets (texts_of octets.new.items)) }
{
    for text in texts {
        octets.push(text.octets())?;
    }
    Ok(())
}

/// The octets of each text.
pub(crate) fn octets_of<'a>(alloc: Global, texts: &[Text<'a>]) -> Result<Vec<&'a [u8]>, AllocError>
    ensures texts { IfOk result (λ octets. texts_of octets.items ≡ octets_of_texts texts.now) }
    ensures fit { IfOk result (λ octets. AreAllOctets (texts_of octets.items)) }
{
    let mut octets = Vec::new(alloc);
    add_octets(&mut octets, texts)?;
    Ok(octets)
}

/// The purpose that is asked for, if there are octets of one.
pub(crate) fn purpose_of(octets: &[u8]) -> Option<&[u8]>
    ensures { option_copied result ≡ purpose_if_any octets.now }
{
    if octets.is_empty() {
        None
    } else {
        Some(octets)
    }
}

/// The profile that the number asks for.
pub(crate) fn profile_of(wide: u32) -> Profile
    ensures { result ≡ profile_of wide }
{
    if wide == 0 {
        Profile::Stated
    } else {
        Profile::Wide
    }
}

/// What the number asks for besides.
pub(crate) fn options_of(wide: u32) -> Options
    ensures { result ≡ options_of wide }
{
    Options {
        profile: profile_of(wide),
    }
}

impl<'a> QueryOfTexts<'a> {
    /// Reads the certificates, the anchor first, with the options that are asked for.
    pub(crate) fn read(&self, alloc: Global) -> Result<Query<'a>, Refusal>
        ensures reads { IfOk result (λ query. IsQueryRead self.now (seen_query query)) }
        ensures fit { IfOk result (λ _. AreAllOctets (certificate_texts self.now)) }
        ensures refuses { IfErr result (TellsBadCertificate (query_certificates self.now)) }
    {
        let path = octets_of(alloc, self.path)?;
        let options = options_of(self.wide);
        let purpose = purpose_of(self.purpose.octets);
        let anchor = self.anchor.octets();
        match Query::read_with(
            alloc,
            anchor,
            path.as_slice(),
            self.moment,
            purpose,
            options,
        ) {
            Ok(query) => Ok(query),
            Err(refusal) => Err(Refusal::of_certificate(refusal)),
        }
    }
}
