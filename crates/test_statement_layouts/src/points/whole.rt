//! Whole lists that OpenSSL 3.0.19 made, with `openssl ca -gencrl` and the key `ed25519` of an issuer I.

use crate::points::building::RowFault;
use crate::points::reading::said;
use statements_crl::{Crl, Profile, ReadingFault, StatementRule};
use std::alloc::Global;
use std::test::Fail;

/// A list with number 5 and no entries, and its scope and names: `fullname=URI:http://a/c`, and the same with `onlyuser=TRUE`.
const LISTS: &[(&str, &str)] = &[
    (
        "3081B03064020101300506032B6570300C310A300806035504030C0149170D3236313132393037353631375A170D3236313232393037353631375AA02C302A301C0603551D1C0101FF04123010A00EA00C860A687474703A2F2F612F63300A0603551D140403020105300506032B657003410006C2DE21EC1EE26BC6C91C2420E048689006D8301B926D9EE71E78D07B2DF0BFB681197620D6B7B9CEB35B9CF80B7CA63A93F550B6818CC8714D58A29CD8D70E",
        "all 860A687474703A2F2F612F63",
    ),
    (
        "3081B33067020101300506032B6570300C310A300806035504030C0149170D3236313132393037353631395A170D3236313232393037353631395AA02F302D301F0603551D1C0101FF04153013A00EA00C860A687474703A2F2F612F638101FF300A0603551D140403020105300506032B6570034100FE7FA44DD5BE7BF2228C1298667153C40FAD43852283E63FDA46BF83C8B9165A571A8842690D7F5B19F558CC768C3878A8ED4D87ABF442E09B6B322F1DB8480F",
        "user 860A687474703A2F2F612F63",
    ),
];

/// The extension begins at this octet of both.
const PLACE: usize = 63;

fn is_refused(read: Result<Crl<'_>, ReadingFault>) -> bool {
    read.err() == Some(ReadingFault::Refused(StatementRule::Scope, PLACE))
}

/// What is read in the wide profile, of a list that the stated one refuses.
fn wide_alone(alloc: Global, text: &str) -> Result<String, RowFault> {
    let octets = hex::decode(alloc, text).map_err(|_| RowFault::Other)?;
    if !is_refused(Crl::read(alloc, &octets)) {
        return Err(RowFault::Other);
    }
    let list = Crl::read_under(alloc, Profile::Wide, &octets).map_err(|_| RowFault::Other)?;
    said(alloc, &list)
}

#[test]
fn lists_of_another_tool(rt: HostRuntime) -> Result<(), Fail> {
    for (text, wanted) in LISTS {
        let read = wide_alone(rt.alloc(), text).map_err(|_| "a list")?;
        assert_eq!(rt; read.as_str(), *wanted);
    }
    Ok(())
}
