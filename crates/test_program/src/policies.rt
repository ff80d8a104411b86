//! Verdicts with policies, over a keeper that knows nothing of the first certificate.

use crate::keeping::{ends, obliging};
use cli_steps::End;
use std::test::Fail;

/// An anchor, an authority that states 1.2.97, and a certificate below it that states the same.
const PATH: &str =
    "hex:308196306ba003020102020105300406022a03300c310a30080603550403130152301e170d3235303130313030303030305a170d3236303130313030303030305a300c310a30080603550403130152300a300406022a0303020052a3133011300f0603551d130101ff040530030101ff300406022a03032100454e02142f1b8e0a28ffede853e53e0436560b089f12ed112d621f232170559d hex:3081a7307ca003020102020105300406022a03300c310a30080603550403130152301e170d3235303130313030303030305a170d3236303130313030303030305a300c310a30080603550403130141300a300406022a0303020041a3243022300f0603551d130101ff040530030101ff300f0603551d2004083006300406022a61300406022a03032100091b6bb065748f457743a63c95deb4fd9284bfd672c660a43196e5b227dbf12a hex:308196306ba003020102020105300406022a03300c310a30080603550403130141301e170d3235303130313030303030305a170d3236303130313030303030305a300c310a3008060355040313014c300a300406022a030302004ca3133011300f0603551d2004083006300406022a61300406022a0303210099b21adabb8125d1eb234f63728842c65b4667bcde9897e36a0053e141765fee";

/// What stands in front of the path, and the answer.
const ROWS: &[(&str, &str)] = &[
    ("", "3 unknown 1\n"),
    (
        "policy=1.2.97",
        "3 3\nunknown 1\npolicy 1.2.97\nuser-policy 1.2.97\n",
    ),
    (
        "purpose=1.2 policy=1.2.98 inhibit-mapping inhibit-any-policy",
        "3 2\nunknown 1\npolicy 1.2.97\n",
    ),
    (
        "policy=1.2.98 policy=2.5.29.32.0 require-policy",
        "3 3\nunknown 1\npolicy 1.2.97\nuser-policy 1.2.97\n",
    ),
    (
        "policy=1.2.98 require-policy",
        "1 1\ninvalid 2 19 NoUserPolicy\n",
    ),
];

#[test]
fn policies_are_told_behind_the_verdict(rt: HostRuntime) -> Result<(), Fail> {
    let alloc = rt.alloc();
    for (words, answer) in ROWS.iter() {
        let line = if words.is_empty() {
            format!(in alloc; "check 20250615000000Z {PATH}\n")?
        } else {
            format!(in alloc; "check 20250615000000Z {words} {PATH}\n")?
        };
        let mut out = Vec::new(alloc);
        let mut input = line.as_bytes();
        let end = ends(alloc, obliging(), &mut input, &mut out);
        assert!(rt;
            end == End::Finished && out.as_slice() == answer.as_bytes(),
            "{words}"
        );
    }
    Ok(())
}
