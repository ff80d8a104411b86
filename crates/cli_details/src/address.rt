//! IP addresses.

use cli_printing::write_hex;
use std::io;
use std::io::Write;
use std::net::Ipv6Addr;

fn write_ipv6(octets: &[u8], text: &mut Vec<u8>) -> io::Result<()> {
    match <[u8; 16]>::try_from(octets) {
        Ok(octets) => {
            let address = Ipv6Addr::from_octets(octets);
            write!(text, "{address}")
        }
        Err(_) => write_hex(octets, text),
    }
}

/// Writes an address of 4 octets as in 192.0.2.1, one of 16 as in 2001:db8::1 (RFC 5952), and other octets in hexadecimal.
pub(crate) fn write_address(octets: &[u8], text: &mut Vec<u8>) -> io::Result<()> {
    match octets {
        [a, b, c, d] => write!(text, "{a}.{b}.{c}.{d}"),
        _ => write_ipv6(octets, text),
    }
}
