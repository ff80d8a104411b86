use crate::source::{Cut, is_value};
use asn::check;
use der_stream::read_one;
use std::alloc::{AllocError, Global};
use std::test::Fail;

/// The octets, and zeros behind them until there are so many.
fn behind(alloc: Global, front: &[u8], size: usize) -> Result<Vec<u8>, AllocError> {
    let mut octets = Vec::from_slice(alloc, front)?;
    octets.resize(size, 0)?;
    Ok(octets)
}

/// An OCTET STRING of 2^24 octets, whose length has four octets, is accepted, and read from a source.
#[test]
fn accepts_contents_of_four_length_octets(rt: HostRuntime) -> Result<(), Fail> {
    let octets = behind(
        rt.alloc(),
        &[0x04, 0x84, 0x01, 0x00, 0x00, 0x00],
        16_777_222,
    )?;
    assert!(rt; check(&octets).is_ok());
    let mut cut = Cut {
        octets: &octets,
        most: 65_536,
    };
    let read = read_one(rt.alloc(), &mut cut, 16_777_222)?;
    assert!(rt; is_value(&read, &octets));
    assert!(rt; cut.octets.is_empty());
    Ok(())
}
