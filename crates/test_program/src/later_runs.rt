//! Runs over one store: what one leaves the next finds.

use crate::lasting::LastingStore;
use crate::shelf::Text;
use crate::walking::{Runs, texts};
use std::alloc::Global;
use std::cell::RefCell;
use std::test::Fail;

// In the beginning there is no store. Only a delivery makes one, and only if its statement is read and believed. A delivery that is refused
// changes nothing.
const STEPS: &str = "
$ check --store s --verdicts good --at 20250615000000Z --anchor r.der m.der
x509check: cannot read s
status 6
$ compare --store s --verdicts good --at 20250615000000Z --anchor r.der --other s m.der
x509check: cannot read s
status 6
$ list --store s
x509check: cannot read s
status 6
$ deliver --store s --verdicts good --issuer r.der l.der
x509check: l.der: refused 43 NotV2 at 5
status 4
$ deliver --store s --verdicts none --issuer r.der c.crl
x509check: cannot read none
status 6
$ check --store s --verdicts good --at 20250615000000Z --anchor r.der m.der
x509check: cannot read s
status 6
$ deliver --store s --verdicts good --issuer r.der c.crl
stored 1 kept 0 contradicted 0
status 0
$ check --store s --verdicts good --at 20250615000000Z --anchor r.der m.der
valid
status 0
$ deliver --store s --verdicts good --issuer r.der l.der
x509check: l.der: refused 43 NotV2 at 5
status 4
$ deliver --store s --verdicts good --issuer r.der e.crl
stored 0 kept 0 contradicted 1
status 0
$ check --store s --verdicts good --at 20250615000000Z --anchor r.der m.der
valid
status 0
$ session --store s --verdicts good
0 valid
0 stored 1 kept 0 contradicted 0
2 revoked 1 1
0 ended
status 0
$ check --store s --verdicts good --at 20250615000000Z --anchor r.der m.der
revoked 1 1
status 2
$ deliver --store s --verdicts good --issuer r.der l.der
x509check: l.der: refused 43 NotV2 at 5
status 4
$ check --store s --verdicts good --at 20250615000000Z --anchor r.der m.der
revoked 1 1
status 2
$ deliver --store s --verdicts good --issuer r.der c.crl
stored 0 kept 1 contradicted 0
status 0
$ check --store s --verdicts good --at 20250615000000Z --anchor r.der m.der
revoked 1 1
status 2
$ deliver --store s --verdicts good --issuer r.der d.crl
stored 0 kept 1 contradicted 0
status 0
";

// What the session reads.
const REQUESTS: &[u8] =
    b"check 20250615000000Z r.der m.der\ndeliver r.der d.crl\ncheck 20250615000000Z r.der m.der\nquit\n";

fn runs_over<'s, 't>(store: &'s LastingStore<'t>) -> Runs<'s, LastingStore<'t>> {
    Runs {
        source: store,
        alloc: store.alloc,
        input: REQUESTS,
    }
}

/// The texts with their verdicts, and no store.
pub fn begun(alloc: Global) -> Result<LastingStore<'static>, Fail> {
    let mut store = LastingStore {
        alloc,
        texts: texts(alloc)?,
        files: RefCell::new(None),
    };
    let octets = runs_over(&store).verdicts()?;
    store.texts.push(Text {
        name: "good",
        octets,
    })?;
    Ok(store)
}

#[test]
fn later_runs_find_what_earlier_ones_left(rt: HostRuntime) -> Result<(), Fail> {
    let store = begun(rt.alloc())?;
    runs_over(&store).walk(STEPS)
}
