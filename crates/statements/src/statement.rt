//! Statements of both kinds.

ghost use Rattle.std.specs.Prelude.{◌≡◌};
ghost use Rattle.asn.specs.Reading.{seen_tlv};
ghost use Rattle.cert.specs.Certificate.{seen_certificate};
ghost use Rattle.statements_facts.specs.Fact.{facts_in};
ghost use Rattle.statements_parts.specs.Fault.{StatementGivesUnlessFull};
ghost use Rattle.statements.specs.Genuine.{AnswersUnlessFull};
ghost use Rattle.statements.specs.Statement.{genuine_statement, genuine_statement_under, seen_statement, statement, statement_at, statement_at_under, statement_said, statement_under};

use crate::genuine_list::list_facts;
use crate::genuine_response::response_facts;
use asn::Tlv;
use cert::Certificate;
use path_verifiers::Verifier;
use statements_crl::Crl;
use statements_facts::{Facts, Profile};
use statements_ocsp::{Response, is_response};
use statements_parts::{ReadingFault, StatementFault, outermost};
use std::alloc::Global;

/// A statement about revocation that was read.
#[derive(Clone, Copy)]
pub enum Statement<'a> {
    /// A certificate revocation list (RFC 5280, 5.1).
    List(Crl<'a>),
    /// An OCSP response (RFC 6960, 4.2.1), with the profile in which it was read, which says by which hashes it may name an issuer.
    Response(Profile, Response<'a>),
}

impl<'a> Statement<'a> {
    /// Reads a statement from DER: a response if the first value inside the outermost is an ENUMERATED, else a list; or answers the first
    /// fault. Time and memory are those of `Crl::read` and `Response::read`.
    pub fn read(alloc: Global, octets: &'a [u8]) -> Result<Statement<'a>, ReadingFault>
        ensures { StatementGivesUnlessFull seen_statement result (statement octets.now) }
    {
        Statement::read_under(alloc, Profile::Stated, octets)
    }

    /// As `read`, of a value in the text handed to `asn::whole`, with offsets in that text.
    pub fn at(alloc: Global, value: Tlv<'a>) -> Result<Statement<'a>, ReadingFault>
        ensures { StatementGivesUnlessFull seen_statement result
            (statement_at (seen_tlv value.entry)) }
    {
        Statement::at_under(alloc, Profile::Stated, value)
    }

    /// As `read`, in a profile: that of `Crl::read_under`. Responses are read alike in both, and have the profile.
    #[tactic(auto, unfolding(crate::specs::Statement::statement_under))]
    pub fn read_under(
        alloc: Global,
        profile: Profile,
        octets: &'a [u8],
    ) -> Result<Statement<'a>, ReadingFault>
        ensures { StatementGivesUnlessFull seen_statement result
            (statement_under profile octets.now) }
    {
        let value = outermost(octets)?;
        Statement::at_under(alloc, profile, value)
    }

    /// As `read_under`, of a value in the text handed to `asn::whole`, with offsets in that text.
    #[tactic(auto, unfolding(crate::specs::Statement::statement_at_under))]
    pub fn at_under(
        alloc: Global,
        profile: Profile,
        value: Tlv<'a>,
    ) -> Result<Statement<'a>, ReadingFault>
        ensures { StatementGivesUnlessFull seen_statement result
            (statement_at_under profile (seen_tlv value.entry)) }
    {
        if is_response(value) {
            Ok(Statement::Response(profile, Response::at(alloc, value)?))
        } else {
            Ok(Statement::List(Crl::at_under(alloc, profile, value)?))
        }
    }

    /// The facts of a statement of the issuer (RFC 5280, 6.3.3 (f), (g); RFC 6960, 3.2). The first fault is reported: of a list, that it
    /// is one of another issuer, or that its signature is not accepted under the issuer's key; of a response, as of `response_singles`.
    /// Whether the statement is current is not checked. Time is n log n in the octets, and memory is taken for the entries of a list.
    #[tactic(auto, using(crate::proofs::Answering::response_fails, crate::proofs::Answering::response_is))]
    pub fn facts<V: Verifier>(
        &self,
        alloc: Global,
        verifier: &V,
        issuer: &Certificate<'a>,
    ) -> Result<Facts<'a>, StatementFault>
        ensures { AnswersUnlessFull facts_in result (statement_said (V.accepts verifier.now)
            (seen_certificate issuer.now) (seen_statement self.now)) }
    {
        match self {
            Statement::List(list) => Ok(Facts::Crl(list_facts(alloc, verifier, issuer, list)?)),
            Statement::Response(profile, response) => Ok(Facts::Ocsp(response_facts(
                alloc, *profile, verifier, issuer, response,
            )?)),
        }
    }
}

/// The facts of a statement of the issuer: `Statement::read`, and then `facts`.
pub fn genuine<'a, V: Verifier>(
    alloc: Global,
    verifier: &V,
    issuer: &Certificate<'a>,
    octets: &'a [u8],
) -> Result<Facts<'a>, StatementFault>
    ensures { AnswersUnlessFull facts_in result
        (genuine_statement (V.accepts verifier.now) (seen_certificate issuer.now) octets.now) }
{
    genuine_under(alloc, Profile::Stated, verifier, issuer, octets)
}

/// The same in a profile: `Statement::read_under`, and then `facts`.
#[tactic(auto, using(crate::proofs::Answering::not_read_fails, crate::proofs::Answering::read_says))]
pub fn genuine_under<'a, V: Verifier>(
    alloc: Global,
    profile: Profile,
    verifier: &V,
    issuer: &Certificate<'a>,
    octets: &'a [u8],
) -> Result<Facts<'a>, StatementFault>
    ensures { AnswersUnlessFull facts_in result (genuine_statement_under profile
        (V.accepts verifier.now) (seen_certificate issuer.now) octets.now) }
{
    let statement = Statement::read_under(alloc, profile, octets)?;
    statement.facts(alloc, verifier, issuer)
}
