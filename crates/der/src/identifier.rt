//! Identifier octets (X.690, 8.1.2).

ghost use Rattle.std.specs.Prelude.{◌≡◌};
ghost use Rattle.der.specs.Identifier.{is_constructed, is_refused};

/// Whether the constructed flag, bit 6, is set.
#[inline(always)]
pub fn is_constructed_form(identifier: u8) -> bool
    ensures { result ≡ is_constructed identifier }
{
    identifier / 32 % 2 == 1
}

// A row for the identifier octets of each class and form, the universal class first, in which primitive ones stand before constructed
// ones: a dot where no value may have the octet.
static SERVED: [u8; 256] = *b"\
    .ppppppppppppppp..ppppppppppppp.\
    .......ccc.c.cccccc..c...ccc.c..\
    ppppppppppppppppppppppppppppppp.\
    ccccccccccccccccccccccccccccccc.\
    ppppppppppppppppppppppppppppppp.\
    ccccccccccccccccccccccccccccccc.\
    ppppppppppppppppppppppppppppppp.\
    ccccccccccccccccccccccccccccccc.";

/// Whether no value may have this identifier octet.
#[inline(always)]
pub fn is_refused_identifier(identifier: u8) -> bool
    ensures { result ≡ is_refused identifier }
{
    SERVED[identifier as usize] == b'.'
}
