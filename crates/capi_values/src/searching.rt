//! What is searched, in texts; and a search and statements that are read from texts.

ghost use Rattle.std.specs.Prelude.{◌≡◌, ◌++◌, IfErr, IfOk, OnOk, length, map};
ghost use Rattle.cert.specs.Certificate.{seen_certificate};
ghost use Rattle.path_issuers.specs.View.{seen_search};
ghost use Rattle.statements.specs.Statement.{seen_statement};
ghost use Rattle.relying_questions.specs.Places.{certificates_of};
ghost use Rattle.relying_texts.specs.Reading.{AreStatementsReadUnder};
ghost use Rattle.capi_values.specs.Refusal.{TellsBadCertificate, TellsRefusal, TellsRefusedOf};
ghost use Rattle.capi_values.specs.Searching.{budget_of, search_certificates, search_texts};
ghost use Rattle.capi_values.specs.Texts.{AddReadings, AreAllOctets, AreCertificates, all_seen, octets_of_texts, options_of, profile_of, purpose_if_any, readings, readings_under};

use crate::case::read_each;
use crate::refusal::Refusal;
use crate::texts::{Text, options_of, profile_of, purpose_of};
use cert::Certificate;
use path::{QueryFault, read_certificate};
use path_search::{Budget, Search};
use relying_search::FindingBudget;
use statements::Statement;
use statements_facts::Profile;
use std::alloc::Global;

/// What a search may spend, as `relying_search::FindingBudget`.
#[derive(Clone, Copy, Debug, PartialEq, Eq, Default)]
#[repr(C)]
pub struct Limits {
    /// How often a judge may be asked whether one certificate issued another.
    pub signatures: usize,
    /// How many ends of paths may be looked at.
    pub steps: usize,
    /// How many valid paths may be asked about.
    pub verdicts: usize,
}

/// Certificates that come in any order, and what is asked about one of them, as `path_search::Search`, in texts. If the purpose has no
/// octets, no purpose is asked for. The certificates are numbered: the anchors from 0 on, then the target, then the bag. They are read in the
/// stated profile, and so are the statements that come with them; any number but 0 in `wide` asks for the wide one.
#[derive(Clone, Copy, Debug)]
#[repr(C)]
pub struct SearchOfTexts<'a> {
    pub anchors: &'a [Text<'a>],
    pub target: Text<'a>,
    pub bag: &'a [Text<'a>],
    pub moment: i64,
    pub purpose: Text<'a>,
    pub limits: Limits,
    pub wide: u32,
}

/// The certificates and statements of a search that were read.
#[derive(Drop)]
pub(crate) struct SearchCase<'a> {
    /// By their numbers.
    pub(crate) certificates: Vec<Certificate<'a>>,
    pub(crate) statements: Vec<Statement<'a>>,
}

impl Limits {
    pub(crate) fn budget(&self) -> FindingBudget
        ensures { result ≡ budget_of self.now }
    {
        FindingBudget {
            search: Budget {
                signatures: self.signatures,
                steps: self.steps,
            },
            verdicts: self.verdicts,
        }
    }
}

/// Adds the certificates that the texts are in a profile. The first that is refused is told by how many stand before it.
fn add_certificates<'a>(
    alloc: Global,
    profile: Profile,
    certificates: &mut Vec<Certificate<'a>>,
    texts: &[Text<'a>],
) -> Result<(), Refusal>
    ensures reads { OnOk result (AddReadings certificates.old.items certificates.new.items
        (readings_under profile (octets_of_texts texts.now))) }
    ensures fit { OnOk result (AreAllOctets (octets_of_texts texts.now)) }
    ensures refuses { IfErr result (TellsRefusedOf (all_seen certificates.old.items
        ++ readings_under profile (octets_of_texts texts.now))) }
{
    for text in texts {
        let certificate = match read_certificate(alloc, profile, text.octets()) {
            Ok(certificate) => certificate,
            Err(fault) => {
                return Err(Refusal::of_certificate(QueryFault {
                    certificate: certificates.len(),
                    fault,
                }));
            }
        };
        match certificates.push(certificate) {
            Ok(()) => {}
            Err(_) => return Err(Refusal::no_memory()),
        }
    }
    Ok(())
}

impl<'a> SearchOfTexts<'a> {
    /// Adds its certificates, by their numbers.
    fn add_to(&self, alloc: Global, certificates: &mut Vec<Certificate<'a>>) -> Result<(), Refusal>
        ensures reads { OnOk result (AddReadings certificates.old.items certificates.new.items
            (readings (search_certificates self.now))) }
        ensures fit { OnOk result (AreAllOctets (search_texts self.now)) }
        ensures refuses { IfErr result (TellsRefusedOf (all_seen certificates.old.items
            ++ readings (search_certificates self.now))) }
    {
        let profile = profile_of(self.wide);
        add_certificates(alloc, Profile::Stated, certificates, self.anchors)?;
        add_certificates(alloc, profile, certificates, &[self.target])?;
        add_certificates(alloc, profile, certificates, self.bag)
    }

    /// Reads the certificates, by their numbers: the anchors in the stated profile, and the others in the one that is asked for.
    pub(crate) fn read(&self, alloc: Global) -> Result<Vec<Certificate<'a>>, Refusal>
        ensures reads { IfOk result (λ read.
            AreCertificates (search_certificates self.now) (map seen_certificate read.items)) }
        ensures fit { IfOk result (λ _. AreAllOctets (search_texts self.now)) }
        ensures refuses { IfErr result (TellsBadCertificate (search_certificates self.now)) }
    {
        let mut certificates = Vec::new(alloc);
        match self.add_to(alloc, &mut certificates) {
            Ok(()) => Ok(certificates),
            Err(refusal) => Err(refusal),
        }
    }

    /// The search among its certificates, which were read.
    pub(crate) fn among<'p>(&self, certificates: &'p [Certificate<'a>]) -> Search<'p, 'a>
        requires { length certificates.now ≡ length (search_texts self.now) }
        ensures certificates { certificates_of (seen_search result)
            ≡ map seen_certificate certificates.now }
        ensures anchors { length (seen_search result).anchors ≡ length self.now.anchors.now }
        ensures moment { (seen_search result).moment ≡ self.now.moment }
        ensures purpose { (seen_search result).purpose
            ≡ purpose_if_any self.now.purpose.octets.now }
        ensures options { (seen_search result).options ≡ options_of self.now.wide }
    {
        let (anchors, others) = certificates.split_at(self.anchors.len());
        Search {
            anchors,
            target: &others[0],
            bag: &others[1..],
            moment: self.moment,
            purpose: purpose_of(self.purpose.octets),
            options: options_of(self.wide),
        }
    }
}

impl<'a> SearchCase<'a> {
    /// Reads the certificates, and then the statements, each once, in the profile that the search asks for.
    pub(crate) fn read(
        alloc: Global,
        search: &SearchOfTexts<'a>,
        statements: &[Text<'a>],
    ) -> Result<SearchCase<'a>, Refusal>
        ensures certificates { IfOk result (λ case. AreCertificates
            (search_certificates search.now) (map seen_certificate case.certificates.items)) }
        ensures statements { IfOk result (λ case. AreStatementsReadUnder
            (profile_of search.now.wide) (octets_of_texts statements.now)
            (map seen_statement case.statements.items)) }
        ensures fit { IfOk result (λ _.
            AreAllOctets (search_texts search.now)
            × AreAllOctets (octets_of_texts statements.now)) }
        ensures refuses { IfErr result
            (TellsRefusal (search_certificates search.now) statements.now) }
    {
        let certificates = search.read(alloc)?;
        match read_each(alloc, profile_of(search.wide), statements) {
            Ok(statements) => Ok(SearchCase {
                certificates,
                statements,
            }),
            Err(refusal) => Err(refusal),
        }
    }
}
