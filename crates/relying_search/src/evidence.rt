//! What bears on a certificate of a path, and what it says (RFC 5280, 6.3.3; RFC 6960, 2.2).

ghost use Rattle.std.specs.Prelude.{◌≡◌, ◌&&◌, ◌++◌, is_some, option_map};
ghost use Rattle.std.specs.List.{list_any};
ghost use Rattle.relying_agreement.specs.Status.{crl_reason, crl_that_counts, deciding_reason, has_good_response, is_covered_by, is_current, is_good, kept_if, listed_reason, ocsp_reason, ocsp_that_counts, reason_of_status};
ghost use Rattle.relying_search.specs.View.{seen_evidence, seen_lists};
ghost use Rattle.statements_facts.specs.Answer.{seen_crl, seen_ocsp};

use statements_facts::{CrlAnswer, OcspAnswer, Status};

/// What bears on a certificate of a path.
#[derive(Drop)]
pub struct Evidence {
    /// Its number on the path, from 1 on.
    pub number: usize,
    /// Whether its issuer may sign lists.
    pub may_sign_crls: bool,
    /// What the newest lists that speak of it say, in the order in which they decide: of whole lists that of all certificates and that of its
    /// kind, and then the same at each of its complete points.
    pub lists: Vec<Option<CrlAnswer>>,
    /// The same at each of its limited points: such a list may revoke it, but does not say that it is not revoked (RFC 5280, 4.2.1.13).
    pub limited: Vec<Option<CrlAnswer>>,
    /// What the newest response says.
    pub ocsp: Option<OcspAnswer>,
}

/// Whether a list counts: it is current, and its issuer may sign lists (RFC 5280, 6.3.3 (a) and (f)).
fn is_list_counted(crl: &CrlAnswer, may_sign: bool, moment: i64) -> bool
    ensures { result ≡ (may_sign && is_current (seen_crl crl.now).window moment) }
{
    may_sign && (crl.from <= moment && moment <= crl.until)
}

/// Whether there is a list that counts.
fn has_list(crl: Option<CrlAnswer>, may_sign: bool, moment: i64) -> bool
    ensures { result ≡ is_some (crl_that_counts moment may_sign (option_map seen_crl crl)) }
{
    match crl {
        None => false,
        Some(crl) => is_list_counted(&crl, may_sign, moment),
    }
}

/// The number of the reason that a list gives, if it counts and lists the certificate.
fn crl_reason(crl: Option<CrlAnswer>, may_sign: bool, moment: i64) -> Option<u8>
    ensures { result ≡ crl_reason moment may_sign (option_map seen_crl crl) }
{
    let crl = crl?;
    if is_list_counted(&crl, may_sign, moment) {
        crl.reason
    } else {
        None
    }
}

/// Whether one of the lists counts.
fn has_list_among(lists: &[Option<CrlAnswer>], may_sign: bool, moment: i64) -> bool
    ensures { result ≡ list_any (λ crl. is_some (crl_that_counts moment may_sign crl))
        (seen_lists lists.now) }
{
    for crl in lists {
        if has_list(*crl, may_sign, moment) {
            return true;
        }
    }
    false
}

/// The reason of the first list that gives one.
fn listed_reason(lists: &[Option<CrlAnswer>], may_sign: bool, moment: i64) -> Option<u8>
    ensures { result ≡ listed_reason moment may_sign (seen_lists lists.now) }
{
    for crl in lists {
        if let Some(reason) = crl_reason(*crl, may_sign, moment) {
            return Some(reason);
        }
    }
    None
}

/// Whether a response counts: it is current (RFC 6960, 3.2).
fn is_response_counted(said: &OcspAnswer, moment: i64) -> bool
    ensures { result ≡ is_current (seen_ocsp said.now).window moment }
{
    said.from <= moment && moment <= said.until
}

fn reason_of(status: Status) -> Option<u8>
    ensures { result ≡ reason_of_status status }
{
    match status {
        Status::Revoked(reason) => Some(reason),
        Status::Good => None,
        Status::Unknown => None,
    }
}

/// The number of the reason that a response gives, if it counts and says that the certificate is revoked.
fn ocsp_reason(said: Option<OcspAnswer>, moment: i64) -> Option<u8>
    ensures { result ≡ ocsp_reason moment (option_map seen_ocsp said) }
{
    let said = said?;
    if is_response_counted(&said, moment) {
        reason_of(said.status)
    } else {
        None
    }
}

fn is_good(status: Status) -> bool
    ensures { result ≡ is_good status }
{
    match status {
        Status::Good => true,
        Status::Revoked(_) => false,
        Status::Unknown => false,
    }
}

/// Whether there is a response that counts and says good.
fn has_good_response(said: Option<OcspAnswer>, moment: i64) -> bool
    ensures { result ≡ has_good_response moment (option_map seen_ocsp said) }
{
    match said {
        None => false,
        Some(said) => is_response_counted(&said, moment) && is_good(said.status),
    }
}

impl Evidence {
    /// The reason of the first list that gives one, those at limited points last.
    fn reason_of_lists(&self, moment: i64) -> Option<u8>
        ensures { result ≡ listed_reason moment self.now.may_sign_crls
            (seen_lists self.now.lists.items ++ seen_lists self.now.limited.items) }
    {
        let limited = listed_reason(&self.limited, self.may_sign_crls, moment);
        listed_reason(&self.lists, self.may_sign_crls, moment).or(limited)
    }

    /// Why the certificate is revoked at the moment, if it is: the reason of the first list that gives one, else that of the response.
    pub fn reason(&self, moment: i64) -> Option<u8>
        ensures { result ≡ deciding_reason moment (seen_evidence self.now) }
    {
        let told = ocsp_reason(self.ocsp, moment);
        self.reason_of_lists(moment).or(told)
    }

    /// Whether a statement speaks of the certificate: a whole list or one at a complete point that counts, or a response that says good.
    pub fn is_covered(&self, moment: i64) -> bool
        ensures { result ≡ is_covered_by moment (seen_evidence self.now) }
    {
        has_list_among(&self.lists, self.may_sign_crls, moment)
            || has_good_response(self.ocsp, moment)
    }
}
