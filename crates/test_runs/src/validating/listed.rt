//! What stores hold, listed. The SHA-256 of the keys, the hash of the name and the dates are what OpenSSL and Python's hashlib give.

use super::files::{write_files, write_verdicts};
use super::quick_start;
use crate::walking::walk;
use std::fs;
use std::test::Fail;

// Statements under the signature for tests.
const FILES: &str = "
held_r.der = ca(R,R)
held_c.der = crl(R,5,[05 1])
held_u.der = crl(R,200){scope user}
held_o.der = ocsp(R,05 good)
held_p.der = ocsp(R,06 revoked 4)
";

const PRINTS: &str = "
prints --issuer held_r.der --as crl held_c.der
prints --issuer held_r.der --as crl held_u.der
prints --issuer held_r.der --as ocsp held_o.der
prints --issuer held_r.der --as ocsp held_p.der
";

const STEPS: &str = "
$ list --store held.db
x509check: cannot read held.db
status 6
$ list --store held.db --at 20250230000000Z
x509check: bad time
status 5
$ deliver --store held.db --verdicts held.prints --issuer held_r.der held_c.der
stored 1 kept 0 contradicted 0
status 0
$ deliver --store held.db --verdicts held.prints --issuer held_r.der held_u.der
stored 1 kept 0 contradicted 0
status 0
$ deliver --store held.db --verdicts held.prints --issuer held_r.der held_o.der
stored 1 kept 0 contradicted 0
status 0
$ deliver --store held.db --verdicts held.prints --issuer held_r.der held_p.der
stored 1 kept 0 contradicted 0
status 0
$ list --store held.db
crl a992e6ed972ee00cdb657dbb2045d4963d353b98a5bf41613e3845db01f050a3 all number 05 from 20250601000000Z until 20250701000000Z entries 1
crl a992e6ed972ee00cdb657dbb2045d4963d353b98a5bf41613e3845db01f050a3 user number 00c8 from 20250601000000Z until 20250701000000Z entries 0
ocsp a992e6ed972ee00cdb657dbb2045d4963d353b98a5bf41613e3845db01f050a3 8bf669e5210589581d1572ea6afb7a1bbca5e49b serial 05 this 20250601000000Z produced 20250601000000Z from 20250601000000Z until 20250701000000Z good
ocsp a992e6ed972ee00cdb657dbb2045d4963d353b98a5bf41613e3845db01f050a3 8bf669e5210589581d1572ea6afb7a1bbca5e49b serial 06 this 20250601000000Z produced 20250601000000Z from 20250601000000Z until 20250701000000Z revoked 4
status 0
$ list --at 20250531235959Z --store held.db
crl a992e6ed972ee00cdb657dbb2045d4963d353b98a5bf41613e3845db01f050a3 all number 05 from 20250601000000Z until 20250701000000Z entries 1 not-yet
crl a992e6ed972ee00cdb657dbb2045d4963d353b98a5bf41613e3845db01f050a3 user number 00c8 from 20250601000000Z until 20250701000000Z entries 0 not-yet
ocsp a992e6ed972ee00cdb657dbb2045d4963d353b98a5bf41613e3845db01f050a3 8bf669e5210589581d1572ea6afb7a1bbca5e49b serial 05 this 20250601000000Z produced 20250601000000Z from 20250601000000Z until 20250701000000Z good not-yet
ocsp a992e6ed972ee00cdb657dbb2045d4963d353b98a5bf41613e3845db01f050a3 8bf669e5210589581d1572ea6afb7a1bbca5e49b serial 06 this 20250601000000Z produced 20250601000000Z from 20250601000000Z until 20250701000000Z revoked 4 not-yet
status 0
$ list --store held_r.der
x509check: store fault 71
status 6
";

// The same of OpenSSL's lists, before the newer one comes and after.
const BY_OPENSSL: &str = "
$ deliver --store made.db --verdicts made.prints --issuer root.der root.crl
stored 1 kept 0 contradicted 0
status 0
$ deliver --store made.db --verdicts made.prints --issuer middle.der middle.crl
stored 1 kept 0 contradicted 0
status 0
$ list --store made.db --at 20261223182708Z
crl 23d4dac632d0cdc3a4810d7dd54b5ee93f5bfa45f207667f54e99af01503f50a all number 01 from 20261123182708Z until 20261223182708Z entries 0 current
crl 3373400ac66dafafb2f1e25cf5e2a240815a3e1c1da1fe1a26e439d67172ef0b all number 01 from 20261123182708Z until 20261223182708Z entries 0 current
status 0
$ deliver --store made.db --verdicts made.prints --issuer middle.der middle2.crl
stored 1 kept 0 contradicted 0
status 0
$ list --store made.db --at 20261223182709Z
crl 23d4dac632d0cdc3a4810d7dd54b5ee93f5bfa45f207667f54e99af01503f50a all number 01 from 20261123182708Z until 20261223182708Z entries 0 lapsed
crl 3373400ac66dafafb2f1e25cf5e2a240815a3e1c1da1fe1a26e439d67172ef0b all number 02 from 20261123182708Z until 20261223182708Z entries 1 lapsed
status 0
";

#[test]
fn what_is_held_is_listed(rt: HostRuntime) -> Result<(), Fail> {
    write_files(&rt, FILES)?;
    write_verdicts(&rt, "held.prints", PRINTS)?;
    walk(&rt, STEPS)
}

#[test]
fn lists_of_openssl_are_listed(rt: HostRuntime) -> Result<(), Fail> {
    write_files(&rt, quick_start::FILES)?;
    write_verdicts(&rt, "made.prints", quick_start::PRINTS)?;
    walk(&rt, BY_OPENSSL)
}

#[test]
fn a_store_without_statements_has_no_lines(rt: HostRuntime) -> Result<(), Fail> {
    write_files(&rt, FILES)?;
    fs::write(&rt, "none.prints", b"")?;
    walk(&rt, NOTHING)
}

// A delivery that is refused leaves no store; a session makes one.
const NOTHING: &str = "
$ deliver --store none.db --verdicts none.prints --issuer held_r.der held_c.der
x509check: held_c.der: refused 54 BadSignature
status 4
$ list --store none.db
x509check: cannot read none.db
status 6
$ session --store none.db
status 0
$ list --store none.db
status 0
";
