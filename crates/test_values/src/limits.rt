//! Limits of the profile.
ghost use Rattle.std.specs.Prelude.{◌≡◌, ◌^◌};

use cert::MOST_NAMES;
use cli_answers::LINE_MOST;
use der::MAX_DEPTH;
use statements_ocsp::MOST_SINGLES;

/// How deep values may be nested.
pub fn depth() -> u32
    ensures { result ≡ 32 }
{
    MAX_DEPTH
}

/// How many names or subtrees a certificate may have.
pub fn names() -> usize
    ensures { result ≡ 4096 }
{
    MOST_NAMES
}

/// How many single responses a response may have.
pub fn singles() -> usize
    ensures { result ≡ 256 }
{
    MOST_SINGLES
}

/// How many octets the line of a session may have.
pub fn line() -> usize
    ensures { result ≡ 2 ^ 20 }
{
    LINE_MOST
}
