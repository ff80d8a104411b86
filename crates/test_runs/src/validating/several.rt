//! Paths in files that hold several certificates.

use super::files::{write_files, write_verdicts};
use crate::walking::walk;
use std::test::Fail;

// What the files hold. The long values are a certificate of 100 octets, and the same with another algorithm behind what is signed.
const FILES: &str = "
several_r.der = ca(R,R)
several_a.der = ca(A,R)
several_t.der = ee(T,A)
several_two.der = ca(A,R) + ee(T,A)
several_c.der = crl(R,5)
several_d.der = crl(A,1)
several_empty.der =
several_cut.der = \
30623056A003020102020105300406022A03300C310A30080603550403130141301E170D3235303130313030303030305A\
170D3236303130313030303030305A300C310A30080603550403130154300A300406022A030302004B300406022A030302\
00EE + 30800000
several_other.der = \
30623056A003020102020105300406022A03300C310A30080603550403130141301E170D3235303130313030303030305A\
170D3236303130313030303030305A300C310A30080603550403130154300A300406022A030302004B300406022A030302\
00EE + \
30623056A003020102020105300406022A03300C310A30080603550403130141301E170D3235303130313030303030305A\
170D3236303130313030303030305A300C310A30080603550403130154300A300406022A030302004B300406022A040302\
00EE
several_both.der = \
30623056A003020102020105300406022A03300C310A30080603550403130141301E170D3235303130313030303030305A\
170D3236303130313030303030305A300C310A30080603550403130154300A300406022A030302004B300406022A040302\
00EE + 30800000
";

// The runs whose lines are the verdicts.
const PRINTS: &str = "
prints --issuer several_r.der several_r.der
prints --issuer several_r.der several_a.der
prints --issuer several_a.der several_t.der
prints --issuer several_r.der --as crl several_c.der
prints --issuer several_a.der --as crl several_d.der
";

// Each certificate of a path is looked at in order, whichever file holds it.
const STEPS: &str = "
$ deliver --store several.db --verdicts several.prints --issuer several_r.der several_c.der
stored 1 kept 0 contradicted 0
status 0
$ check --store several.db --verdicts several.prints --at 20250615000000Z --anchor several_r.der several_a.der several_t.der
unknown 2
status 3
$ deliver --store several.db --verdicts several.prints --issuer several_a.der several_d.der
stored 1 kept 0 contradicted 0
status 0
$ check --store several.db --verdicts several.prints --at 20250615000000Z --anchor several_r.der several_a.der several_t.der
valid
status 0
$ check --store several.db --verdicts several.prints --at 20250615000000Z --anchor several_r.der several_two.der
valid
status 0
$ check --store several.db --verdicts several.prints --at 20250615000000Z --anchor several_r.der several_a.der several_a.der
invalid 2 1 Repeated
status 1
$ check --store several.db --verdicts several.prints --at 20250615000000Z --anchor several_r.der several_t.der several_a.der
invalid 1 2 Signature
status 1
$ check --store several.db --verdicts several.prints --at 20250615000000Z --anchor several_r.der several_r.der several_two.der
valid
status 0
$ compare --store several.db --verdicts several.prints --at 20250615000000Z --anchor several_r.der --other several.db2 several_two.der
x509check: cannot read several.db2
status 6
$ check --store several.db --verdicts several.prints --at 20250615000000Z --anchor several_r.der several_empty.der
x509check: several_empty.der: refused 4 Truncated at 0
status 4
$ check --store several.db --verdicts several.prints --at 20250615000000Z --anchor several_r.der several_a.der several_empty.der
x509check: several_empty.der: refused 4 Truncated at 0
status 4
$ check --store several.db --verdicts several.prints --at 20250615000000Z --anchor several_r.der several_cut.der
x509check: several_cut.der: refused 2 LengthForm at 100
status 4
$ check --store several.db --verdicts several.prints --at 20250615000000Z --anchor several_r.der several_other.der
x509check: several_other.der: refused 24 AlgorithmsDiffer at 190
status 4
$ check --store several.db --verdicts several.prints --at 20250615000000Z --anchor several_r.der several_both.der
x509check: several_both.der: refused 24 AlgorithmsDiffer at 90
status 4
";

#[test]
fn paths_stand_in_files(rt: HostRuntime) -> Result<(), Fail> {
    write_files(&rt, FILES)?;
    write_verdicts(&rt, "several.prints", PRINTS)?;
    walk(&rt, STEPS)
}
