//! What genuine statements say.

ghost use Rattle.std.specs.Prelude.{◌≡◌, ◌≢◌, IfOk};
ghost use Rattle.cert.specs.Certificate.{seen_certificate};
ghost use Rattle.statements_crl.specs.CertificateList.{seen_list};
ghost use Rattle.statements_ocsp.specs.OcspResponse.{seen_response};
ghost use Rattle.statements.specs.Statement.{seen_statement};
ghost use Rattle.statements_parts.specs.declared.fault.StatementFault.TheVariants.{Memory};
ghost use Rattle.relying_texts.specs.Texts.{facts_of, facts_of_list, facts_of_response};
ghost use Rattle.relying_texts.specs.View.{facts_if_some, identity_seen};

use cert::Certificate;
use path_verifiers::Verifier;
use statements::{Statement, check_crl_issuer, response_singles};
use statements_crl::Crl;
use statements_facts::{Profile, Singles};
use statements_ocsp::Response;
use statements_parts::StatementFault;
use std::alloc::{AllocError, Global};

/// What a genuine statement says of its issuer's certificates. The entries of a list stay where they are.
#[derive(Drop)]
pub(crate) enum Contents<'a> {
    List(Crl<'a>),
    Singles(Singles<'a>),
}

/// What a statement says that is genuine for an issuer.
#[derive(Drop)]
pub(crate) struct GenuineStatement<'p, 'c, 'a> {
    pub(crate) issuer: &'p Certificate<'c>,
    pub(crate) contents: Contents<'a>,
}

/// Passes on that memory was refused, and no other fault.
fn check_memory(fault: StatementFault) -> Result<(), AllocError>
    ensures { IfOk result (λ _. fault ≢ Memory) }
{
    if fault == StatementFault::Memory {
        return Err(AllocError);
    }
    Ok(())
}

/// The list, if the issuer issued it.
fn list_under<'a, V: Verifier>(
    verifier: &V,
    issuer: &Certificate<'_>,
    list: &Crl<'a>,
) -> Option<Contents<'a>>
    ensures { facts_if_some (identity_seen issuer.now) result
        ≡ facts_of_list (V.accepts verifier.now) (seen_certificate issuer.now)
        (seen_list list.now) }
{
    match check_crl_issuer(verifier, issuer, list) {
        Ok(()) => Some(Contents::List(*list)),
        Err(_) => None,
    }
}

/// The single responses of the issuer's certificates, if the issuer or a delegate signed the response.
fn singles_under<'a, V: Verifier>(
    alloc: Global,
    profile: Profile,
    verifier: &V,
    issuer: &Certificate<'_>,
    response: &Response<'a>,
) -> Result<Option<Contents<'a>>, AllocError>
    ensures { IfOk result (λ contents. facts_if_some (identity_seen issuer.now) contents
        ≡ facts_of_response profile (V.accepts verifier.now) (seen_certificate issuer.now)
        (seen_response response.now)) }
{
    match response_singles(alloc, profile, verifier, issuer, response) {
        Ok(singles) => Ok(Some(Contents::Singles(singles))),
        Err(fault) => {
            check_memory(fault)?;
            Ok(None)
        }
    }
}

/// What a statement says, if it is genuine for the issuer.
pub(crate) fn contents_under<'a, V: Verifier>(
    alloc: Global,
    verifier: &V,
    issuer: &Certificate<'_>,
    statement: &Statement<'a>,
) -> Result<Option<Contents<'a>>, AllocError>
    ensures { IfOk result (λ contents. facts_if_some (identity_seen issuer.now) contents
        ≡ facts_of (V.accepts verifier.now) (seen_certificate issuer.now)
        (seen_statement statement.now)) }
{
    match statement {
        Statement::List(list) => Ok(list_under(verifier, issuer, list)),
        Statement::Response(profile, response) => {
            singles_under(alloc, *profile, verifier, issuer, response)
        }
    }
}
