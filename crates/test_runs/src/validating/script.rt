//! A store, a list and a path, from the first run on.

use super::files::{write_files, write_verdicts};
use crate::walking::walk;
use std::test::Fail;

// What the files hold.
const FILES: &str = "
script_r.der = ca(R,R)
script_t.der = ee(T,R)
script_c.der = crl(R,5)
script_d.der = crl(R,6,[05 1])
script_e.der = crl(R,5,[05 1])
script_o.der = ocsp(R,05 good)
";

// The runs whose lines are the verdicts.
const PRINTS: &str = "
prints --issuer script_r.der script_t.der
prints --issuer script_r.der --as crl script_c.der
prints --issuer script_r.der --as crl script_d.der
prints --issuer script_r.der --as crl script_e.der
prints --issuer script_r.der --as ocsp script_o.der
";

// Held is a list of number 5; a list of number 6 names the certificate, and another of number 5 contradicts.
const STEPS: &str = "
$ check --store script.db --verdicts script.prints --at 20250615000000Z --anchor script_r.der script_t.der
x509check: cannot read script.db
status 6
$ deliver --store script.db --verdicts script.prints --issuer script_r.der script_c.der
stored 1 kept 0 contradicted 0
status 0
$ deliver --store script.db --verdicts script.prints --issuer script_r.der script_c.der
stored 0 kept 1 contradicted 0
status 0
$ check --store script.db --verdicts script.prints --at 20250615000000Z --anchor script_r.der script_t.der
valid
status 0
$ check --store script.db --verdicts script.prints --at 20250701000001Z --anchor script_r.der script_t.der
unknown 1
status 3
$ check --store script.db --verdicts script.prints --at 20260101000001Z --anchor script_r.der script_t.der
invalid 1 4 Expired
status 1
$ check --store script.db --verdicts script.prints --at 20250230000000Z --anchor script_r.der script_t.der
x509check: bad time
status 5
$ check --store script.db --verdicts script.prints --at 20250615000000Z --anchor script_r.der --purpose 1.40 script_t.der
x509check: bad purpose
status 5
$ deliver --store script2.db --verdicts script.prints --issuer script_r.der script_c.der
stored 1 kept 0 contradicted 0
status 0
$ compare --store script.db --verdicts script.prints --at 20250615000000Z --anchor script_r.der --other script2.db script_t.der
same valid
status 0
$ deliver --store script2.db --verdicts script.prints --issuer script_r.der script_d.der
stored 1 kept 0 contradicted 0
status 0
$ compare --store script.db --verdicts script.prints --at 20250615000000Z --anchor script_r.der --other script2.db script_t.der
differ 1: valid; revoked 1 1
status 7
$ compare --store script2.db --verdicts script.prints --at 20250615000000Z --anchor script_r.der --other script.db script_t.der
differ 1: revoked 1 1; valid
status 7
$ compare --store script2.db --verdicts script.prints --at 20250615000000Z --anchor script_r.der --other script2b.db script_t.der
x509check: cannot read script2b.db
status 6
$ check --store script2.db --verdicts script.prints --at 20250615000000Z --anchor script_r.der script_t.der
revoked 1 1
status 2
$ deliver --store script.db --verdicts script.prints --issuer script_r.der script_o.der
stored 1 kept 0 contradicted 0
status 0
$ deliver --store script.db --verdicts script.prints --issuer script_r.der script_e.der
stored 0 kept 0 contradicted 1
status 0
";

#[test]
fn the_first_day_goes_so(rt: HostRuntime) -> Result<(), Fail> {
    write_files(&rt, FILES)?;
    write_verdicts(&rt, "script.prints", PRINTS)?;
    walk(&rt, STEPS)
}
