//! The contents octets of an INTEGER (0..MAX) (X.690, 8.3).

ghost use Rattle.std.specs.Prelude.{◌≡◌};
ghost use Rattle.cert_policies.specs.Number.{is_shortest};

/// Whether the octets are the contents of an INTEGER, with no octet more than the number needs (X.690, 8.3.1, 8.3.2).
pub(crate) fn is_shortest_number(contents: &[u8]) -> bool
    ensures { result ≡ is_shortest contents.now }
{
    match contents {
        [] => false,
        [_] => true,
        [first, second, ..] => {
            !(*first == 0 && *second < 128) && !(*first == 255 && *second >= 128)
        }
    }
}
