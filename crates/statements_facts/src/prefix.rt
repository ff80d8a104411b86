//! The first octets of a text, as a number that is compared before the text is.

ghost use Rattle.std.specs.Prelude.{◌≡◌, ◌<◌, slice_index};
ghost use Rattle.std.specs.Ordering.{nat_cmp};
ghost use Rattle.std.specs.declared.cmp.Ordering.TheVariants.{Less};
ghost use Rattle.std.specs.Cmp.Lexicographic.{slice_cmp};
ghost use Rattle.statements_facts.specs.Prefix.{prefix_value};

/// The octet in a place, or zero behind the text.
fn octet_at(octets: &[u8], place: usize) -> u8
    ensures { result ≡ slice_index octets.now place }
{
    if place < octets.len() {
        octets[place]
    } else {
        0
    }
}

fn short_prefix(octets: &[u8]) -> u64
    ensures { result ≡ prefix_value 8 octets.now }
{
    u64::from_be_bytes([
        octet_at(octets, 0),
        octet_at(octets, 1),
        octet_at(octets, 2),
        octet_at(octets, 3),
        octet_at(octets, 4),
        octet_at(octets, 5),
        octet_at(octets, 6),
        octet_at(octets, 7),
    ])
}

/// The first eight octets as a number, as if zeros stood behind a shorter text.
pub(crate) fn prefix_of(octets: &[u8]) -> u64
    ensures { result ≡ prefix_value 8 octets.now }
{
    match octets.first_chunk::<8>() {
        Some(first) => u64::from_be_bytes(*first),
        None => short_prefix(octets),
    }
}

/// The text with the lesser prefix is less.
pub(crate) fn prefix_laws(one: &[u8], other: &[u8])
    requires { prefix_value 8 one.now < prefix_value 8 other.now }
    ensures { slice_cmp nat_cmp one.now other.now ≡ Less }
{}
