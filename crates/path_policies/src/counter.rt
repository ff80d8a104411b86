//! The counters explicit_policy, policy_mapping and inhibit_anyPolicy (RFC 5280, 6.1.2 (d) to (f), 6.1.4 (h) to (j)).

ghost use Rattle.std.specs.Prelude.{◌≡◌, None};
ghost use Rattle.path_policies.specs.Steps.{counted, is_within, lesser};

/// How many more certificates that are not self-issued may come before a counter is 0; `None` if no certificate has set it.
#[derive(Clone, Copy)]
pub(crate) struct Counter {
    pub(crate) left: Option<u32>,
}

/// The lesser of two numbers.
fn lesser_of(left: Option<u32>, number: Option<u32>) -> Option<u32>
    ensures { result ≡ lesser left number }
{
    match (left, number) {
        (None, number) => number,
        (Some(left), None) => Some(left),
        (Some(left), Some(number)) => Some(left.min(number)),
    }
}

/// What is left behind one more certificate.
fn count(left: Option<u32>, self_issued: bool) -> Option<u32>
    ensures { result ≡ counted left self_issued }
{
    match left {
        None => None,
        Some(left) if self_issued => Some(left),
        Some(left) => Some(left.saturating_sub(1)),
    }
}

/// Whether a number is there and is no more than this.
pub(crate) fn is_at_most(number: Option<u32>, most: u32) -> bool
    ensures { result ≡ is_within number most }
{
    match number {
        None => false,
        Some(number) => number <= most,
    }
}

impl Counter {
    /// A counter that no certificate has set.
    pub(crate) fn new() -> Counter
        ensures { result.left ≡ None }
    {
        Counter { left: None }
    }

    /// The counter behind a certificate that says this number.
    pub(crate) fn pass(self, self_issued: bool, number: Option<u32>) -> Counter
        ensures { result.left ≡ lesser (counted self.left self_issued) number }
    {
        Counter {
            left: lesser_of(count(self.left, self_issued), number),
        }
    }
}
