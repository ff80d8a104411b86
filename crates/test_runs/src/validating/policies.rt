//! Certificate policies.

use super::files::{write_files, write_verdicts};
use crate::walking::walk;
use std::test::Fail;

// What the files hold. The authority states 1.2.97, or maps it to 1.2.98; of the others one states 1.2.97, one 1.2.98, and one has a
// certificatePolicies of none.
const FILES: &str = "
policies_r.der = 308196306ba003020102020105300406022a03300c310a30080603550403130152301e170d3235303130313030303030305a170d3236303130313030303030305a300c310a30080603550403130152300a300406022a0303020052a3133011300f0603551d130101ff040530030101ff300406022a03032100454e02142f1b8e0a28ffede853e53e0436560b089f12ed112d621f232170559d
policies_a.der = 3081a7307ca003020102020105300406022a03300c310a30080603550403130152301e170d3235303130313030303030305a170d3236303130313030303030305a300c310a30080603550403130141300a300406022a0303020041a3243022300f0603551d130101ff040530030101ff300f0603551d2004083006300406022a61300406022a03032100091b6bb065748f457743a63c95deb4fd9284bfd672c660a43196e5b227dbf12a
policies_map.der = 3081c0308194a003020102020105300406022a03300c310a30080603550403130152301e170d3235303130313030303030305a170d3236303130313030303030305a300c310a30080603550403130141300a300406022a0303020041a33c303a300f0603551d130101ff040530030101ff300f0603551d2004083006300406022a6130160603551d210101ff040c300a300806022a6106022a62300406022a0303210088642770462e4e245240fae5a5497078190cc2d44aa925ecb32e5bab93888b1c
policies_97.der = 308196306ba003020102020105300406022a03300c310a30080603550403130141301e170d3235303130313030303030305a170d3236303130313030303030305a300c310a3008060355040313014c300a300406022a030302004ca3133011300f0603551d2004083006300406022a61300406022a0303210099b21adabb8125d1eb234f63728842c65b4667bcde9897e36a0053e141765fee
policies_98.der = 308196306ba003020102020105300406022a03300c310a30080603550403130141301e170d3235303130313030303030305a170d3236303130313030303030305a300c310a3008060355040313014c300a300406022a030302004ca3133011300f0603551d2004083006300406022a62300406022a030321006acfbf6da13e2925928f5a467a2d742c12205532c362a5b9708c26a8a0545325
policies_two.der = 3081a7307ca003020102020105300406022a03300c310a30080603550403130152301e170d3235303130313030303030305a170d3236303130313030303030305a300c310a30080603550403130141300a300406022a0303020041a3243022300f0603551d130101ff040530030101ff300f0603551d2004083006300406022a61300406022a03032100091b6bb065748f457743a63c95deb4fd9284bfd672c660a43196e5b227dbf12a + 3081903065a003020102020105300406022a03300c310a30080603550403130141301e170d3235303130313030303030305a170d3236303130313030303030305a300c310a3008060355040313014c300a300406022a030302004ca30d300b30090603551d2004023000300406022a030321007e34de2b40b505870375db5b40234d01c90180c7211385ca4d8bf904e2706d41
policies_r.crl = crl(R,1)
policies_a.crl = crl(A,1)
";

// The runs whose lines are the verdicts.
const PRINTS: &str = "
prints --issuer policies_r.der policies_a.der
prints --issuer policies_r.der policies_map.der
prints --issuer policies_a.der policies_97.der
prints --issuer policies_a.der policies_98.der
prints --issuer policies_r.der --as crl policies_r.crl
prints --issuer policies_a.der --as crl policies_a.crl
";

// What is told with policies, and what is refused: the words in their order, the files in order, and then what certificates say of policies,
// at a place of their file. The list of policies that is empty stands at 106 of its certificate, which is the second in its file.
const STEPS: &str = "
$ check --store policies.db --verdicts policies.prints --at 20250615000000Z --anchor policies_r.der --policy 1.2.97 --policy 1.40 policies_no
x509check: bad policy 1.40
status 5
$ check --store policies.db --verdicts policies.prints --at 20250615000000Z --anchor policies_r.der --purpose 1 --policy 1 policies_no
x509check: bad purpose
status 5
$ check --store policies.db --verdicts policies.prints --at 20250615000000Z --anchor policies_r.der --policy 1.2.97 policies_two.der policies_no
x509check: cannot read policies_no
status 6
$ check --store policies.db --verdicts policies.prints --at 20250615000000Z --anchor policies_r.der --policy 1.2.97 policies_a.der policies_two.der
x509check: policies_two.der: refused 29 ExtensionValue at 276
status 4
$ check --store policies.db --verdicts policies.prints --at 20250615000000Z --anchor policies_r.der --policy 1.2.97 policies_a.der policies_97.der
x509check: cannot read policies.db
status 6
$ deliver --store policies.db --verdicts policies.prints --issuer policies_r.der policies_r.crl
stored 1 kept 0 contradicted 0
status 0
$ check --store policies.db --verdicts policies.prints --at 20250615000000Z --anchor policies_r.der --policy 2.5.29.32.0 policies_a.der policies_97.der
unknown 2
policy 1.2.97
user-policy 1.2.97
status 3
$ deliver --store policies.db --verdicts policies.prints --issuer policies_a.der policies_a.crl
stored 1 kept 0 contradicted 0
status 0
$ check --store policies.db --verdicts policies.prints --at 20250615000000Z --anchor policies_r.der policies_a.der policies_97.der
valid
status 0
$ check --store policies.db --verdicts policies.prints --at 20250615000000Z --anchor policies_r.der --policy 2.5.29.32.0 policies_a.der policies_97.der
valid
policy 1.2.97
user-policy 1.2.97
status 0
$ check --store policies.db --verdicts policies.prints --at 20250615000000Z --anchor policies_r.der --policy 1.2.98 policies_a.der policies_97.der
valid
policy 1.2.97
status 0
$ check --store policies.db --verdicts policies.prints --at 20250615000000Z --anchor policies_r.der --policy 1.2.98 --policy 1.2.97 --require-policy policies_a.der policies_97.der
valid
policy 1.2.97
user-policy 1.2.97
status 0
$ check --store policies.db --verdicts policies.prints --at 20250615000000Z --anchor policies_r.der --policy 1.2.98 --require-policy policies_a.der policies_97.der
invalid 2 19 NoUserPolicy
status 1
$ check --store policies.db --verdicts policies.prints --at 20250615000000Z --anchor policies_r.der --policy 2.5.29.32.0 --require-policy policies_a.der policies_98.der
invalid 2 17 NoValidPolicy
status 1
$ check --store policies.db --verdicts policies.prints --at 20250615000000Z --anchor policies_r.der policies_map.der policies_98.der
invalid 1 12 Policy
status 1
$ check --store policies.db --verdicts policies.prints --at 20250615000000Z --anchor policies_r.der --policy 1.2.97 --require-policy policies_map.der policies_98.der
valid
policy 1.2.97
user-policy 1.2.97
status 0
$ check --store policies.db --verdicts policies.prints --at 20250615000000Z --anchor policies_r.der --policy 1.2.97 --inhibit-mapping policies_map.der policies_98.der
valid
status 0
$ check --store policies.db --verdicts policies.prints --at 20250615000000Z --anchor policies_r.der --policy 1.2.97 --inhibit-mapping --require-policy policies_map.der policies_98.der
invalid 2 17 NoValidPolicy
status 1
";

#[test]
fn policies_are_processed_where_they_are_asked_for(rt: HostRuntime) -> Result<(), Fail> {
    write_files(&rt, FILES)?;
    write_verdicts(&rt, "policies.prints", PRINTS)?;
    walk(&rt, STEPS)
}
