//! Paths that are found, by what a store holds.

use super::files::{write_files, write_verdicts};
use crate::walking::walk;
use std::test::Fail;

// What the files hold: two anchors, certificates of which one leads to the target and two do not, and lists.
const FILES: &str = "
find_o.der = ca(O,O)
find_roots.der = ca(O,O)+ca(R,R)
find_bag.der = ca(N,O)+ca(M,X)+ca(M,R)
find_t.der = ee(T,M){dns t.example}
find_r.der = ca(R,R)
find_m.der = ca(M,R)
find_r.crl = crl(R,5)
find_m.crl = crl(M,5)
find_later.crl = crl(M,6,[05 1])
find_cut.der = ca(N,O)+3003
find_null.der = 0500
find_empty.der =
";

// The runs whose lines are the verdicts.
const PRINTS: &str = "
prints --issuer find_roots.der --among find_bag.der find_t.der
prints --issuer find_r.der --as crl find_r.crl
prints --issuer find_m.der --as crl find_m.crl
prints --issuer find_m.der --as crl find_later.crl
";

// What is found before the store is there, while it learns, and once it knows.
const STEPS: &str = "
$ find --store find.db --verdicts find.prints --at 20250615000000Z --anchor find_roots.der --among find_bag.der find_t.der
x509check: cannot read find.db
status 6
$ deliver --store find.db --verdicts find.prints --issuer find_r.der find_r.crl
stored 1 kept 0 contradicted 0
status 0
$ find --store find.db --verdicts find.prints --at 20250615000000Z --anchor find_roots.der --among find_bag.der find_t.der
0 find_roots.der 2
1 find_bag.der 3
2 find_t.der 1
unknown 2
status 3
$ deliver --store find.db --verdicts find.prints --issuer find_m.der find_m.crl
stored 1 kept 0 contradicted 0
status 0
$ find --store find.db --verdicts find.prints --at 20250615000000Z --anchor find_roots.der --among find_bag.der find_t.der
0 find_roots.der 2
1 find_bag.der 3
2 find_t.der 1
valid
status 0
$ find --store find.db --verdicts find.prints --at 20250615000000Z --anchor find_o.der --anchor find_r.der --among find_m.der --among find_bag.der --name t.example find_t.der
0 find_r.der 1
1 find_m.der 1
2 find_t.der 1
valid
status 0
$ find --store find.db --verdicts find.prints --at 20250615000000Z --anchor find_r.der --among find_m.der --name u.example find_t.der
0 find_r.der 1
1 find_m.der 1
2 find_t.der 1
other name
status 1
$ find --store find.db --verdicts find.prints --at 20250615000000Z --anchor find_m.der find_t.der
0 find_m.der 1
1 find_t.der 1
valid
status 0
$ find --store find.db --verdicts find.prints --at 20250615000000Z --anchor find_o.der --among find_bag.der find_t.der
not found
status 1
$ find --store find.db --verdicts find.prints --at 20250615000000Z --anchor find_roots.der find_t.der
not found
status 1
$ find --store find.db --verdicts find.prints --at 20250801000000Z --anchor find_r.der --among find_m.der find_t.der
0 find_r.der 1
1 find_m.der 1
2 find_t.der 1
unknown 1
status 3
$ find --store find.db --verdicts find.prints --at 20990615000000Z --anchor find_roots.der --among find_bag.der find_t.der
not found
status 1
$ deliver --store find.db --verdicts find.prints --issuer find_m.der find_later.crl
stored 1 kept 0 contradicted 0
status 0
$ find --store find.db --verdicts find.prints --at 20250615000000Z --anchor find_roots.der --among find_bag.der --name u.example find_t.der
0 find_roots.der 2
1 find_bag.der 3
2 find_t.der 1
revoked 2 1
status 2
";

// What is wrong, the first of it: the words in their order, the fingerprints, the target, the anchors, the others, the store.
const MISTAKES: &str = "
$ find --store none --verdicts none --at 2025 --anchor none --name 1.2.3.256 none
x509check: bad time
status 5
$ find --store none --verdicts none --at 20250615000000Z --purpose 9 --anchor none --name 1.2.3.256 none
x509check: bad purpose
status 5
$ find --store none --verdicts none --at 20250615000000Z --anchor none --name 1.2.3.256 none
x509check: bad name at 6
status 5
$ find --store none --verdicts none --at 20250615000000Z --anchor none --name t@ none
x509check: bad name at 2
status 5
$ find --store none --verdicts none --at 20250615000000Z --anchor none --name t.example none
x509check: cannot read none
status 6
$ find --store none --verdicts find.prints --at 20250615000000Z --anchor find_null.der --among none1 none2
x509check: cannot read none2
status 6
$ find --store none --verdicts find.prints --at 20250615000000Z --anchor find_r.der --among find_bag.der find_null.der
x509check: find_null.der: refused 22 Layout at 0
status 4
$ find --store none --verdicts find.prints --at 20250615000000Z --anchor find_null.der --among none1 find_t.der
x509check: find_null.der: refused 22 Layout at 0
status 4
$ find --store none --verdicts find.prints --at 20250615000000Z --anchor find_r.der --among none1 find_t.der
x509check: cannot read none1
status 6
$ find --store none --verdicts find.prints --at 20250615000000Z --anchor find_r.der --among find_empty.der find_t.der
x509check: find_empty.der: refused 4 Truncated at 0
status 4
$ find --store none --verdicts find.prints --at 20250615000000Z --anchor find_r.der --among find_bag.der find_t.der
x509check: cannot read none
status 6
";

#[test]
fn a_path_is_found_and_told(rt: HostRuntime) -> Result<(), Fail> {
    write_files(&rt, FILES)?;
    write_verdicts(&rt, "find.prints", PRINTS)?;
    walk(&rt, STEPS)?;
    walk(&rt, MISTAKES)
}
