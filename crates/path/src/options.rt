//! What a question asks for besides.

ghost use Rattle.std.specs.Prelude.{◌≡◌};
ghost use Rattle.path.specs.Options.{stated_options};

use statements_facts::Profile;

/// What a question about a path, or a search, asks for besides (RFC 5280, 6.1.1).
#[derive(Clone, Copy, Debug, PartialEq, Eq)]
pub struct Options {
    /// How much of RFC 5280 is processed.
    pub profile: Profile,
}

impl Options {
    /// The stated profile, and nothing besides.
    pub fn stated() -> Options
        ensures { result ≡ stated_options }
    {
        Options {
            profile: Profile::Stated,
        }
    }
}
