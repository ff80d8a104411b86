//! What a response says of one certificate.

ghost use Rattle.std.specs.Prelude.{◌≡◌, ◌≢◌, [], map};
ghost use Rattle.statements_facts.specs.Single.{seen_single, some_singles};

use std::marker::Model;

/// Whether a certificate is revoked (RFC 6960, 2.2).
#[derive(Clone, Copy, Debug, PartialEq, Eq)]
pub enum Status {
    Good,
    /// The number of the reason (RFC 5280, 5.3.1).
    Revoked(u8),
    Unknown,
}

/// What a response says of one certificate of its issuer (RFC 6960, 4.2.1). Times are in seconds from 1970-01-01T00:00:00Z.
#[derive(Clone, Copy)]
pub struct Single<'a> {
    /// The SHA-1 hash of the issuer's name, as the certificate spells it.
    pub name_hash: [u8; 20],
    /// The contents octets of the certificate's serial number.
    pub serial: &'a [u8],
    pub this_update: i64,
    pub produced_at: i64,
    /// From when the statement counts.
    pub from: i64,
    /// Until when it counts.
    pub until: i64,
    pub status: Status,
}

/// What a response says, certificate by certificate: at least of one.
#[derive(Drop)]
pub struct Singles<'a> {
    singles: Vec<Single<'a>>,
}

impl<'a> Model for Singles<'a> {
    ghost use Rattle.std.specs.Prelude.{◌≢◌, List, [], map};
    ghost use Rattle.statements_facts.specs.Single.{SingleFact, seen_single};

    ghost Value = { List SingleFact };

    ghost view = { λ all. map seen_single all.singles.items };

    ghost invariant = { λ all. all.singles.items ≢ [] };
}

impl<'a> Singles<'a> {
    /// These single responses; `None` if there is none.
    pub fn from_list(singles: Vec<Single<'a>>) -> Option<Singles<'a>>
        ensures { result ≡ some_singles (map seen_single singles.entry.items) }
    {
        if singles.is_empty() {
            None
        } else {
            Some(Singles { singles })
        }
    }

    /// The single responses, in order.
    pub fn as_slice(&self) -> &[Single<'a>]
        ensures singles { map seen_single result.now ≡ self.now }
        ensures some { result.now ≢ [] }
    {
        self.singles.as_slice()
    }
}
