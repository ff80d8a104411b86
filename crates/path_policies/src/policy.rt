//! Policies by the contents octets of their OBJECT IDENTIFIERs.

ghost use Rattle.std.specs.Prelude.{◌≡◌};
ghost use Rattle.std.specs.Str.{bytes_eq};
ghost use Rattle.path_policies.specs.Query.{any_policy};

/// anyPolicy (RFC 5280, 4.2.1.4): 2.5.29.32.0
pub const ANY_POLICY: &[u8] = &[0x55, 0x1D, 0x20, 0x00];

/// Whether it is anyPolicy.
pub(crate) fn is_any(policy: &[u8]) -> bool
    ensures { result ≡ bytes_eq policy.now any_policy }
{
    policy == ANY_POLICY
}
