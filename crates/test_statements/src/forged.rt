//! Forged statements, when memory runs out.

use cert::Certificate;
use statements::genuine;
use statements_parts::StatementFault;
use std::alloc::Global;
use vectors::{NotationFault, ToyVerifier, certificate, revocation_list};
use vectors_ocsp::ocsp_response;

/// Why the statement is refused under the issuer; `None` if there is no memory to build it, or it is believed.
fn refusal_of(alloc: Global, issuer: &str, statement: &[u8]) -> Option<StatementFault> {
    let octets = certificate(alloc, issuer).ok()?;
    let issuer = Certificate::read(alloc, &octets).ok()?;
    let facts = genuine(alloc, &ToyVerifier, &issuer, statement);
    facts.err()
}

/// Whether a statement that was built, if there was memory for it, is refused so.
fn is_refused_so(
    alloc: Global,
    statement: Result<Vec<u8>, NotationFault>,
    wanted: StatementFault,
) -> bool {
    let Ok(statement) = statement else {
        return true;
    };
    let refusal = refusal_of(alloc, "ca(R,R)", &statement);
    refusal.is_none() || refusal == Some(wanted)
}

/// A forged statement with few extensions costs no memory: once it is built it is refused as what it is, whatever memory there is.
#[test]
fn forged_statements_want_no_memory(rt: HostRuntime) {
    let alloc = rt.alloc();
    let lists: [(&str, StatementFault); 3] = [
        (
            "crl(R,5,[05 1][06 4]){signed X}",
            StatementFault::BadSignature,
        ),
        ("crl(X,5,[05 1])", StatementFault::OtherIssuer),
        ("crl(X,5){signed R}", StatementFault::OtherIssuer),
    ];
    for (list, wanted) in lists {
        assert!(rt;
            is_refused_so(alloc, revocation_list(alloc, list), wanted),
            "{list}"
        );
    }
    let responses: [&str; 3] = [
        "ocsp(R,05 good,06 revoked 1){signed X}",
        "ocsp(R,05 good){by X}",
        "ocsp(R,05 good){bykey X}{signed R}",
    ];
    for response in responses {
        let built = ocsp_response(alloc, response, &[]);
        assert!(rt;
            is_refused_so(alloc, built, StatementFault::NoSigner),
            "{response}"
        );
    }
}
