//! Issuers, found by their ids.

ghost use Rattle.std.specs.Prelude.{◌≡◌, ◌++◌, map};
ghost use Rattle.cli_printing.specs.Written.{Writes};
ghost use Rattle.store_listing.specs.Listing.{seen_held_issuer};
ghost use Rattle.cli_listing.specs.Found.{found_issuer};
ghost use Rattle.cli_listing.specs.ListingText.{issuer_text, issuer_under, IdsRise};

use cli_printing::write_hex;
use sha2::{Digest, Sha256};
use std::io;
use std::io::Write;
use store_listing::HeldIssuer;

/// The issuer with this id, found by halving.
pub(crate) fn issuer_under(issuers: &[HeldIssuer], id: u32) -> Option<&HeldIssuer>
    ensures { IdsRise (map seen_held_issuer issuers.now)
        → found_issuer result ≡ issuer_under (map seen_held_issuer issuers.now) id }
{
    let at = issuers.partition_point(|issuer| issuer.id < id);
    match issuers.get(at) {
        Some(issuer) if issuer.id == id => Some(issuer),
        _ => None,
    }
}

/// Writes the SHA-256 of its subjectPublicKeyInfo behind a word, or a dash.
pub(crate) fn write_issuer<W: Write>(
    word: &str,
    issuer: Option<&HeldIssuer>,
    writer: &mut W,
) -> io::Result<()>
    ensures { Writes W.contents writer.old writer.new result
        (word.now ++ issuer_text (found_issuer issuer.entry)) }
{
    writer.write_all(word.as_bytes())?;
    match issuer {
        None => writer.write_all(b"-"),
        Some(issuer) => write_hex(&Sha256::digest(issuer.key_info.as_slice()), writer),
    }
}
