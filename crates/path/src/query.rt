//! Questions about paths.

ghost use Rattle.std.specs.Prelude.{◌≡◌, ◌∷◌, Ok, IfOk, IfErr, map};
ghost use Rattle.std.specs.Option.{option_copied};
ghost use Rattle.cert.specs.Certificate.{certificate, seen_certificate};
ghost use Rattle.path.specs.Validity.{IsOutcome};
ghost use Rattle.path.specs.Options.{stated_options};
ghost use Rattle.path.specs.Reading.{IsFirstRefused, seen_query, texts_of};
ghost use Rattle.path.specs.ProfileReading.{AreReadIn, IsPathRefused, IsQueryRead, IsFirstRefusedIn};

use crate::in_profile::read_certificate;
use crate::options::Options;
use crate::reason::Outcome;
use crate::validation::validate_with;
use cert::{CertFault, Certificate};
use path_verifiers::Verifier;
use statements_facts::Profile;
use std::alloc::{AllocError, Global};
use thiserror::Error;

/// A question about a path (RFC 5280, 6.1.1): an anchor, of which only the name and the key are used, the certificates 1 to n below it, a
/// moment, a purpose if one is asked for, and what is asked for besides.
#[derive(Drop)]
pub struct Query<'a> {
    pub anchor: Certificate<'a>,
    pub path: Vec<Certificate<'a>>,
    /// In seconds from 1970-01-01T00:00:00Z.
    pub moment: i64,
    /// The contents of an OBJECT IDENTIFIER.
    pub purpose: Option<&'a [u8]>,
    pub options: Options,
}

/// Which certificate of a question is refused, 0 being the anchor, and why.
#[derive(Clone, Copy, Debug, PartialEq, Eq, Error)]
#[error("certificate {certificate} of the path is refused: {fault}")]
pub struct QueryFault {
    pub certificate: usize,
    pub fault: CertFault,
}

/// The certificates that the texts are, in order; else the place of the first that is refused, from 0 on, and why.
fn read_path<'a>(
    alloc: Global,
    profile: Profile,
    path: &[&'a [u8]],
) -> Result<Vec<Certificate<'a>>, (usize, CertFault)>
    ensures read { IfOk result (λ read. AreReadIn profile (texts_of path.now)
        (map seen_certificate read.items)) }
    ensures refused { IfErr result (λ refusal.
        IsPathRefused profile (texts_of path.now) refusal.0 refusal.1) }
{
    let mut certificates = Vec::new(alloc);
    for (index, text) in path.iter().enumerate() {
        let certificate = match read_certificate(alloc, profile, text) {
            Ok(certificate) => certificate,
            Err(fault) => return Err((index, fault)),
        };
        if certificates.push(certificate).is_err() {
            return Err((index, CertFault::Memory));
        }
    }
    Ok(certificates)
}

impl<'a> Query<'a> {
    /// Reads the certificates from DER, from below the anchor down, and asks about them in the stated profile. The first text that is refused
    /// is reported, the anchor being 0. If there is no room for the list of certificates, the one being read is, with `CertFault::Memory`.
    pub fn read(
        alloc: Global,
        anchor: &'a [u8],
        path: &[&'a [u8]],
        moment: i64,
        purpose: Option<&'a [u8]>,
    ) -> Result<Query<'a>, QueryFault>
        ensures anchor { IfOk result (λ query.
            certificate anchor.now ≡ Ok (seen_query query).anchor) }
        ensures path { IfOk result (λ query.
            map certificate (texts_of path.now) ≡ map Ok (seen_query query).certificates) }
        ensures moment { IfOk result (λ query. (seen_query query).moment ≡ moment) }
        ensures purpose { IfOk result (λ query.
            (seen_query query).purpose ≡ option_copied purpose.entry) }
        ensures options { IfOk result (λ query. query.options ≡ stated_options) }
        ensures refused { IfErr result (λ refusal.
            IsFirstRefused (anchor.now ∷ texts_of path.now) refusal.certificate refusal.fault) }
    {
        Query::read_with(alloc, anchor, path, moment, purpose, Options::stated())
    }

    /// Reads the certificates from DER, from below the anchor down, and asks about them with these options. In the wide profile each
    /// certificate of the path also has the names of its points, at which a verdict then looks for lists, and its mail addresses and hosts,
    /// whose constraints are then processed. The anchor is read without them: only its name and its key count.
    ///
    /// The first certificate that is refused is reported, the anchor being 0: with the fault of reading it, else with that of its points, else
    /// with that of its mail addresses and hosts. If there is no room for the list of certificates, the one being read is, with
    /// `CertFault::Memory`.
    ///
    /// Time and memory are those of `read_certificate` for each certificate, and of the list of them.
    pub fn read_with(
        alloc: Global,
        anchor: &'a [u8],
        path: &[&'a [u8]],
        moment: i64,
        purpose: Option<&'a [u8]>,
        options: Options,
    ) -> Result<Query<'a>, QueryFault>
        ensures read { IfOk result (λ query. IsQueryRead options anchor.now (texts_of path.now)
            moment (option_copied purpose.entry) (seen_query query)) }
        ensures refused { IfErr result (λ refusal. IsFirstRefusedIn options.profile anchor.now
            (texts_of path.now) refusal.certificate refusal.fault) }
    {
        let anchor = match Certificate::read(alloc, anchor) {
            Ok(anchor) => anchor,
            Err(fault) => {
                return Err(QueryFault {
                    certificate: 0,
                    fault,
                });
            }
        };
        match read_path(alloc, options.profile, path) {
            Ok(path) => Ok(Query {
                anchor,
                path,
                moment,
                purpose,
                options,
            }),
            Err((index, fault)) => Err(QueryFault {
                certificate: index + 1,
                fault,
            }),
        }
    }

    /// Validates the path with the options of the question, as `validate_with` does.
    pub fn validate<V: Verifier>(&self, alloc: Global, verifier: &V) -> Result<Outcome, AllocError>
        ensures ok { IfOk result (IsOutcome (V.accepts verifier.now) (seen_query self.now)) }
    {
        let (anchor, path) = (&self.anchor, self.path.as_slice());
        validate_with(
            alloc,
            verifier,
            anchor,
            path,
            self.moment,
            self.purpose,
            self.options,
        )
    }
}
