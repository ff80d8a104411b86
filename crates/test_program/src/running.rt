//! Runs over a shelf: two stores that hold a list each, of which one is newer, and paths where no store stands.

use crate::shelf::{Kept, Medium, Shelf, Text};
use crate::walking::{Runs, octets_of, texts};
use cert::Certificate;
use statements::genuine;
use std::alloc::Global;
use std::test::Fail;
use vectors::ToyVerifier;

// Each run has its words, what it prints, and its status.
const STEPS: &str = "
$ deliver --store none --verdicts good --issuer r.der c.crl
stored 1 kept 0 contradicted 0
status 0
$ deliver --store old --verdicts good --issuer r.der c.crl
stored 0 kept 1 contradicted 0
status 0
$ deliver --store old --verdicts good --issuer r.der e.crl
stored 0 kept 0 contradicted 1
status 0
$ deliver --store old --verdicts good --issuer r.der d.crl
stored 1 kept 0 contradicted 0
status 0
$ deliver --store new --verdicts good --issuer r.der c.crl
stored 0 kept 1 contradicted 0
status 0
$ deliver --store old --verdicts good --issuer r.der l.der
x509check: l.der: refused 43 NotV2 at 5
status 4
$ check --store old --verdicts good --at 20250615000000Z --anchor r.der m.der
valid
status 0
$ check --store new --verdicts good --at 20250615000000Z --anchor r.der m.der
revoked 1 1
status 2
$ check --store new --verdicts good --at 20250615000000Z --anchor r.der l.der
valid
status 0
$ check --store new --verdicts good --at 20250801000000Z --anchor r.der l.der
unknown 1
status 3
$ check --store none --verdicts good --at 20250615000000Z --anchor r.der l.der
x509check: cannot read none
status 6
$ check --store new --verdicts good --at 20250615000000Z --anchor r.der x.der
x509check: cannot read x.der
status 6
$ compare --store old --verdicts good --at 20250615000000Z --anchor r.der --other new m.der
differ 1: valid; revoked 1 1
status 7
$ session --store old --verdicts good
0 valid
0 stored 1 kept 0 contradicted 0
2 revoked 1 1
0 ended
status 0
";

// What the session reads.
const REQUESTS: &[u8] =
    b"check 20250615000000Z r.der m.der\ndeliver r.der d.crl\ncheck 20250615000000Z r.der m.der\nquit\n";

// The store at the path, into which the list was put.
fn kept<'t>(
    alloc: Global,
    path: &'t str,
    issuer: &Certificate<'t>,
    list: &'t [u8],
) -> Result<Kept<'t>, Fail> {
    let said = genuine(alloc, &ToyVerifier, issuer, list)
        .ok()
        .ok_or("a list")?;
    let mut statements = Vec::new(alloc);
    statements.push(said)?;
    Ok(Kept { path, statements })
}

fn runs_over<'s, 't>(shelf: &'s Shelf<'t>) -> Runs<'s, Shelf<'t>> {
    Runs {
        source: shelf,
        alloc: shelf.medium.alloc,
        input: REQUESTS,
    }
}

// The steps, over the shelf, with the verdicts that it prints.
fn walk_on(shelf: &mut Shelf<'_>) -> Result<(), Fail> {
    let octets = runs_over(shelf).verdicts()?;
    shelf.texts.push(Text {
        name: "good",
        octets,
    })?;
    runs_over(shelf).walk(STEPS)
}

// What is put into stores: a list, a newer one, and the certificate of their issuer.
#[derive(Drop)]
struct Lists {
    issuer: Vec<u8>,
    old: Vec<u8>,
    new: Vec<u8>,
}

// A store that holds the list, and one that holds the newer one.
fn stores(alloc: Global, lists: &Lists) -> Result<Vec<Kept<'_>>, Fail> {
    let issuer = Certificate::read(alloc, lists.issuer.as_slice())
        .ok()
        .ok_or("an issuer")?;
    let mut stores = Vec::new(alloc);
    stores.push(kept(alloc, "old", &issuer, lists.old.as_slice())?)?;
    stores.push(kept(alloc, "new", &issuer, lists.new.as_slice())?)?;
    Ok(stores)
}

// The steps, over a shelf that has both.
fn walk_over(alloc: Global, lists: &Lists) -> Result<(), Fail> {
    let mut shelf = Shelf {
        medium: Medium {
            alloc,
            calls: u64::MAX,
        },
        texts: texts(alloc)?,
        stores: stores(alloc, lists)?,
    };
    walk_on(&mut shelf)
}

#[test]
fn runs_over_a_shelf(rt: HostRuntime) -> Result<(), Fail> {
    let alloc = rt.alloc();
    let lists = Lists {
        issuer: octets_of(alloc, "ca(R,R)")?,
        old: octets_of(alloc, "crl(R,5)")?,
        new: octets_of(alloc, "crl(R,6,[0102 1])")?,
    };
    walk_over(alloc, &lists)
}
