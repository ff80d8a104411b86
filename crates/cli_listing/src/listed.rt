//! All lines of a listing.

ghost use Rattle.std.specs.Prelude.{map};
ghost use Rattle.std.specs.List.{flat_map};
ghost use Rattle.cli_printing.specs.Written.{Writes};
ghost use Rattle.store_listing.specs.Listing.{seen_held_issuer, seen_held_list, seen_held_single, seen_listing};
ghost use Rattle.cli_listing.specs.ListingText.{list_line_of, single_line_of, listing_text, IdsRise};

use crate::issuer::issuer_under;
use crate::line::{write_list, write_single};
use std::io;
use std::io::Write;
use store_listing::{HeldIssuer, HeldList, HeldSingle, Listing};

fn write_lists<W: Write>(
    issuers: &[HeldIssuer],
    lists: &[HeldList],
    at: Option<i64>,
    writer: &mut W,
) -> io::Result<()>
    ensures { IdsRise (map seen_held_issuer issuers.now)
        → Writes W.contents writer.old writer.new result
        (flat_map (list_line_of (map seen_held_issuer issuers.now) at)
        (map seen_held_list lists.now)) }
{
    'each: for list in lists {
        write_list(issuer_under(issuers, list.issuer), list, at, writer)?;
    }
    Ok(())
}

fn write_singles<W: Write>(
    issuers: &[HeldIssuer],
    singles: &[HeldSingle],
    at: Option<i64>,
    writer: &mut W,
) -> io::Result<()>
    ensures { IdsRise (map seen_held_issuer issuers.now)
        → Writes W.contents writer.old writer.new result
        (flat_map (single_line_of (map seen_held_issuer issuers.now) at)
        (map seen_held_single singles.now)) }
{
    'each: for single in singles {
        write_single(issuer_under(issuers, single.issuer), single, at, writer)?;
    }
    Ok(())
}

/// Writes a line for each list and then one for each response. With a moment, each line ends in whether the statement is in force then.
/// An issuer is found by halving, and its key hashed for each line.
pub fn listing_to<W: Write>(all: &Listing, at: Option<i64>, writer: &mut W) -> io::Result<()>
    ensures { IdsRise (map seen_held_issuer all.now.issuers.items)
        → Writes W.contents writer.old writer.new result
        (listing_text at (seen_listing all.now)) }
{
    let issuers = all.issuers.as_slice();
    write_lists(issuers, all.lists.as_slice(), at, writer)?;
    write_singles(issuers, all.singles.as_slice(), at, writer)
}
