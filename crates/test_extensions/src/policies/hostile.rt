//! Policies of which each is mapped to each, certificate after certificate: a tree of them has more nodes than any memory.

use crate::building::RowFault;
use asn::Oid;
use cert_policies::{PolicyExtensions, PolicyMapping};
use path_policies::{PolicyCertificate, PolicyOutcome, PolicyQuery, process_policies};
use std::alloc::Global;
use std::test::Fail;

/// The policies 1.2.65 to 1.2.122, two octets each: 2A, an asterisk, and a letter.
const POLICIES: &[u8] =
    b"*A*B*C*D*E*F*G*H*I*J*K*L*M*N*O*P*Q*R*S*T*U*V*W*X*Y*Z*a*b*c*d*e*f*g*h*i*j*k*l*m*n*o*p*q*r*s*t*u*v*w*x*y*z";

/// A certificate that states all of them, and maps each to each.
fn certificate(alloc: Global) -> Result<PolicyCertificate<'static>, RowFault> {
    let mut policies = Vec::new(alloc);
    let mut mappings = Vec::new(alloc);
    for issuer in POLICIES.chunks(2) {
        policies.push(Oid::new(issuer))?;
        for subject in POLICIES.chunks(2) {
            mappings.push(PolicyMapping {
                issuer_domain_policy: Oid::new(issuer),
                subject_domain_policy: Oid::new(subject),
            })?;
        }
    }
    Ok(PolicyCertificate {
        self_issued: false,
        extensions: PolicyExtensions {
            policies: Some(policies),
            mappings,
            require_explicit_policy: Some(0),
            inhibit_policy_mapping: None,
            inhibit_any_policy: None,
        },
    })
}

/// How many policies the authorities and the user have at the end of a path of so many such certificates, if the user takes one.
fn counts(alloc: Global, depth: usize) -> Result<Option<(usize, usize)>, RowFault> {
    let mut certificates = Vec::new(alloc);
    for _ in 0..depth {
        certificates.push(certificate(alloc)?)?;
    }
    let query = PolicyQuery {
        certificates: &certificates,
        initial_policies: &[Oid::new(b"*x")],
        inhibit_policy_mapping: false,
        require_explicit_policy: true,
        inhibit_any_policy: false,
    };
    Ok(match process_policies(alloc, &query)? {
        PolicyOutcome::Good(sets) => {
            let authority = sets.authority_constrained.len();
            Some((authority, sets.user_constrained.len()))
        }
        PolicyOutcome::Bad(_, _) => None,
    })
}

#[test]
fn each_policy_is_mapped_to_each(rt: HostRuntime) -> Result<(), Fail> {
    let counted = counts(rt.alloc(), 32).map_err(|_| "an outcome")?;
    assert_eq!(rt; counted, Some((52, 1)));
    Ok(())
}
