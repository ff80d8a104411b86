//! The validation of a whole path (RFC 5280, 6.1).

ghost use Rattle.std.specs.Prelude.{◌≡◌, ◌<◌, ◌≤◌, ◌+◌, IsOk};
ghost use Rattle.path.specs.Options.{stated_options};
ghost use Rattle.path.specs.Validity.{OutcomeIsOne};
ghost use Rattle.path.specs.State.{CarryNoSubtrees, HasOutcome, NeedsRoom};

use crate::options::Options;
use crate::reason::{Outcome, Step};
use crate::state::{MOST_CERTIFICATES, State};
use cert::Certificate;
use path_verifiers::Verifier;
use std::alloc::{AllocError, Global};

/// The number of the certificate that fails behind so many, or 0 if the path itself is not served.
fn failed_at(count: usize, done: usize) -> usize
    requires { done ≤ count }
    ensures none { count ≡ 0 → result ≡ 0 }
    ensures many { 128 < count → result ≡ 0 }
    ensures served { 1 ≤ count → count ≤ 128 → result ≡ done + 1 }
{
    if count == 0 || count > MOST_CERTIFICATES {
        0
    } else {
        done + 1
    }
}

/// Validates the path under the anchor, at a moment (in seconds from 1970-01-01T00:00:00Z) and for a purpose (the contents of an OBJECT
/// IDENTIFIER), if one is asked for (RFC 5280, 6.1). If it is not valid, the first certificate that is refused is answered, with its
/// reason of the least rank. Only the subject and the key of the anchor are used.
///
/// Each certificate is looked at once. Names are looked for among the subtrees held by halving, subtrees too; a certificate that carries
/// subtrees costs a walk over those held. A certificate is compared with those before it as long as the octets are the same. Memory is taken
/// only if a certificate that passes carries a subtree of a directory name, a DNS name or an IP address.
pub fn validate_with<V: Verifier>(
    alloc: Global,
    verifier: &V,
    anchor: &Certificate<'_>,
    path: &[Certificate<'_>],
    moment: i64,
    purpose: Option<&[u8]>,
    options: Options,
) -> Result<Outcome, AllocError>
    ensures ok { HasOutcome V.accepts verifier.now anchor.now path.now moment purpose.entry
        options result }
    // Memory is asked for only if a certificate that is not refused carries a subtree of a processed form.
    ensures err { NeedsRoom V.accepts verifier.now anchor.now path.now moment purpose.entry
        options result }
    ensures calm { CarryNoSubtrees anchor.now path.now moment purpose.entry options → IsOk result }
{
    let mut state = State::start_with(alloc, verifier, anchor, path, moment, purpose, options);
    loop {
        match state.next()? {
            Step::Passed => {}
            Step::Ended => return Ok(Outcome::Good),
            Step::Failed(reason) => {
                return Ok(Outcome::Bad(failed_at(path.len(), state.done()), reason));
            }
        }
    }
}

/// Validates the path under the anchor in the stated profile, as `validate_with`.
pub fn validate<V: Verifier>(
    alloc: Global,
    verifier: &V,
    anchor: &Certificate<'_>,
    path: &[Certificate<'_>],
    moment: i64,
    purpose: Option<&[u8]>,
) -> Result<Outcome, AllocError>
    ensures ok { HasOutcome V.accepts verifier.now anchor.now path.now moment purpose.entry
        stated_options result }
    // Memory is asked for only if a certificate that is not refused carries a subtree of a processed form.
    ensures err { NeedsRoom V.accepts verifier.now anchor.now path.now moment purpose.entry
        stated_options result }
    ensures calm { CarryNoSubtrees anchor.now path.now moment purpose.entry stated_options
        → IsOk result }
{
    let options = Options::stated();
    validate_with(alloc, verifier, anchor, path, moment, purpose, options)
}

/// A path has one outcome.
pub fn outcome_laws()
    ensures { OutcomeIsOne }
{}
