//! Operands that are refused, the first of them.

use super::files::{write_files, write_verdicts};
use crate::walking::walk;
use std::fs;
use std::test::Fail;

// What the files hold.
const FILES: &str = "
refused_r.der = ca(R,R)
refused_t.der = ee(T,R)
refused_null.der = 0500
refused_two.der = 0500 + 00
refused_empty =
";

// Words whose operands are refused, and why.
const STEPS: &str = "
$ check --store refused.db --verdicts refused_none --at 20250230000000Z --anchor refused_r.der refused_t.der
x509check: bad time
status 5
$ check --store refused.db --verdicts refused_none --at 2025061500000Z --anchor refused_r.der refused_t.der
x509check: bad time
status 5
$ check --store refused.db --verdicts refused_none --at 20250615000000Z --anchor refused_r.der --purpose 3.1 refused_t.der
x509check: bad purpose
status 5
$ check --store refused.db --verdicts refused_none --at 20250615000000Z --anchor refused_no refused_t.der
x509check: cannot read refused_none
status 6
$ check --store refused.db --verdicts refused_t.der --at 20250615000000Z --anchor refused_no refused_t.der
x509check: refused_t.der: line 1
status 4
$ check --store refused.db --verdicts refused_lines --at 20250615000000Z --anchor refused_no refused_t.der
x509check: refused_lines: line 3
status 4
$ check --store refused.db --verdicts refused.prints --at 20250615000000Z --anchor refused_no refused_no2
x509check: cannot read refused_no
status 6
$ check --store refused.db --verdicts refused.prints --at 20250615000000Z --anchor refused_null.der refused_no2
x509check: refused_null.der: refused 22 Layout at 0
status 4
$ check --store refused.db --verdicts refused.prints --at 20250615000000Z --anchor refused_two.der refused_no2
x509check: refused_two.der: refused 7 Trailing at 2
status 4
$ check --store refused.db --verdicts refused.prints --at 20250615000000Z --anchor refused_r.der refused_null.der refused_no2
x509check: refused_null.der: refused 22 Layout at 0
status 4
$ check --store refused.db --verdicts refused.prints --at 20250615000000Z --anchor refused_r.der refused_t.der refused_no2
x509check: cannot read refused_no2
status 6
$ check --store refused.db --verdicts refused.prints --at 20250615000000Z --anchor refused_r.der refused_t.der
x509check: cannot read refused.db
status 6
$ check --store refused_lines --verdicts refused.prints --at 20250615000000Z --anchor refused_r.der refused_t.der
x509check: store fault 71
status 6
$ check --store refused_empty --verdicts refused.prints --at 20250615000000Z --anchor refused_r.der refused_t.der
x509check: store fault 72
status 6
$ check --store . --verdicts refused.prints --at 20250615000000Z --anchor refused_r.der refused_t.der
x509check: store fault 71
status 6
$ compare --store refused_lines --verdicts refused.prints --at 20250615000000Z --anchor refused_r.der --other refused_no refused_t.der
x509check: store fault 71
status 6
";

#[test]
fn the_first_fault_decides(rt: HostRuntime) -> Result<(), Fail> {
    write_files(&rt, FILES)?;
    let line = "0000000000000000000000000000000000000000000000000000000000000000";
    fs::write(&rt, "refused_lines", b"\n\nnothing\n")?;
    fs::write(&rt, "refused.prints", line.as_bytes())?;
    walk(&rt, STEPS)
}

// What the files hold where a store begins as a database without tables.
const FILES_OF_NONE: &str = "
tableless.db =
tableless_r.der = ca(R,R)
tableless_t.der = ee(T,R)
tableless_c.der = crl(R,5)
";

// The runs whose lines are the verdicts.
const PRINTS_OF_NONE: &str = "
prints --issuer tableless_r.der tableless_r.der
prints --issuer tableless_r.der tableless_t.der
prints --issuer tableless_r.der --as crl tableless_c.der
";

// Only a delivery makes a store of it.
const STEPS_OF_NONE: &str = "
$ check --store tableless.db --verdicts tableless.prints --at 20250615000000Z --anchor tableless_r.der tableless_t.der
x509check: store fault 72
status 6
$ deliver --store tableless.db --verdicts tableless.prints --issuer tableless_r.der tableless_c.der
stored 1 kept 0 contradicted 0
status 0
$ check --store tableless.db --verdicts tableless.prints --at 20250615000000Z --anchor tableless_r.der tableless_t.der
valid
status 0
";

#[test]
fn a_database_without_tables_is_made_a_store(rt: HostRuntime) -> Result<(), Fail> {
    write_files(&rt, FILES_OF_NONE)?;
    write_verdicts(&rt, "tableless.prints", PRINTS_OF_NONE)?;
    walk(&rt, STEPS_OF_NONE)
}
