//! Statements that are refused, and leave no store.

use super::files::{write_files, write_verdicts};
use crate::walking::walk;
use std::test::Fail;

// What the files hold.
const FILES: &str = "
denied_r.der = ca(R,R)
denied_null.der = 0500
denied_cut.der = 3003
denied_later.der = 30030A0106
denied_a.der = crl(A,5)
denied_x.der = crl(R,5){signed X}
denied_o.der = ocsp(R,05 good){signed X}
denied_p.der = ocsp(R,05 good){key X}
denied_c.der = crl(R,5)
";

// The runs whose lines are the verdicts.
const PRINTS: &str = "
prints --issuer denied_r.der denied_r.der
prints --issuer denied_r.der --as crl denied_c.der
prints --issuer denied_r.der --as ocsp denied_p.der
";

// Deliveries, and what they leave.
const STEPS: &str = "
$ deliver --store denied.db --verdicts denied_no3 --issuer denied_no2 denied_no
x509check: cannot read denied_no3
status 6
$ deliver --store denied.db --verdicts denied.prints --issuer denied_no2 denied_no
x509check: cannot read denied_no2
status 6
$ deliver --store denied.db --verdicts denied.prints --issuer denied_null.der denied_no
x509check: denied_null.der: refused 22 Layout at 0
status 4
$ deliver --store denied.db --verdicts denied.prints --issuer denied_r.der denied_no
x509check: cannot read denied_no
status 6
$ deliver --store denied.db --verdicts denied.prints --issuer denied_r.der denied_cut.der
x509check: denied_cut.der: refused 4 Truncated at 0
status 4
$ deliver --store denied.db --verdicts denied.prints --issuer denied_r.der denied_null.der
x509check: denied_null.der: refused 42 Layout at 0
status 4
$ deliver --store denied.db --verdicts denied.prints --issuer denied_r.der denied_later.der
x509check: denied_later.der: refused 55 NotSuccessful 6
status 4
$ deliver --store denied.db --verdicts denied.prints --issuer denied_r.der denied_a.der
x509check: denied_a.der: refused 53 OtherIssuer
status 4
$ deliver --store denied.db --verdicts denied.prints --issuer denied_r.der denied_x.der
x509check: denied_x.der: refused 54 BadSignature
status 4
$ deliver --store denied.db --verdicts denied.prints --issuer denied_r.der denied_o.der
x509check: denied_o.der: refused 57 NoSigner
status 4
$ deliver --store denied.db --verdicts denied.prints --issuer denied_r.der denied_p.der
x509check: denied_p.der: refused 58 NothingForIssuer
status 4
$ check --store denied.db --verdicts denied.prints --at 20250615000000Z --anchor denied_r.der denied_r.der
x509check: cannot read denied.db
status 6
$ deliver --store denied.db --verdicts denied.prints --issuer denied_r.der denied_c.der
stored 1 kept 0 contradicted 0
status 0
$ check --store denied.db --verdicts denied.prints --at 20250615000000Z --anchor denied_r.der denied_r.der
valid
status 0
";

#[test]
fn what_is_refused_leaves_nothing(rt: HostRuntime) -> Result<(), Fail> {
    write_files(&rt, FILES)?;
    write_verdicts(&rt, "denied.prints", PRINTS)?;
    walk(&rt, STEPS)
}
