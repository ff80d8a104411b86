//! What lines ask for.

use cli_requests::{Operand, Request, RequestFault, SearchFiles, operand_of, request_of};
use cli_words::{Kind, PolicyWords, QueryWords, SearchWords};
use std::alloc::Global;
use std::process::Abort;
use std::test::Fail;

/// Lines that ask for nothing.
const PASSED_OVER: &[&str] = &["", "#", "# believe", "#\u{e9}"];

/// Lines that are no request.
const BAD: &[&str] = &[
    " ",
    "quit ",
    " quit",
    "Quit",
    "quit\r",
    "forget all",
    "deliver",
    "deliver a",
    "deliver a b c",
    "deliver a  b",
    "deliver a \\",
    "deliver a \\4",
    "deliver a \\4g",
    "deliver a \\ff",
    "deliver a hex:0",
    "deliver a hex:0g",
    "deliver a \u{e9}",
    "check 20250615000000Z",
    "check 20250615000000Z a",
    "check 20250615000000Z purpose=1.2 a",
    "check 20250615000000Z policy=1.2 a",
    "check 20250615000000Z purpose=1.2 policy=1.2 policy=1.3 require-policy a",
    "check 20250615000000Z policy=1.2 inhibit-any-policy",
    "find 20250615000000Z",
    "find 20250615000000Z a",
    "find 20250615000000Z name=x a",
    "find 20250615000000Z purpose=1.2 name=x a",
    "find 20250615000000Z a b c d",
    "find 20250615000000Z a b hex:0",
    "find 20250615000000Z name=x\\4 a b",
    "find 20250615000000Z name=x\\ff a b",
    "prints search a",
    "prints search a b c d",
    "prints parts search",
    "prints cert a",
    "prints crt a b",
    "list a b",
    "believe",
    "believe 00",
];

/// Words, and the names of the files that they write.
const NAMES: &[(&str, &str)] = &[
    ("a.der", "a.der"),
    ("a\\20b", "a b"),
    ("\\5c\\5C", "\\\\"),
    ("\\c3\\A9", "\u{e9}"),
    ("\\68ex:00", "hex:00"),
    ("/tmp/~!", "/tmp/~!"),
];

fn is_refused(rt: &impl Abort, alloc: Global, line: &str) {
    let fault = request_of(alloc, line.as_bytes()).err();
    assert!(rt; fault == Some(RequestFault::Malformed), "{line}");
}

#[test]
fn refuses_bad_lines(rt: HostRuntime) {
    for line in BAD {
        is_refused(&rt, rt.alloc(), line);
    }
}

#[test]
fn passes_over_comments(rt: HostRuntime) -> Result<(), Fail> {
    for line in PASSED_OVER {
        let request = request_of(rt.alloc(), line.as_bytes())?;
        assert!(rt; request == Request::Nothing, "{line}");
    }
    Ok(())
}

#[test]
fn reads_requests(rt: HostRuntime) -> Result<(), Fail> {
    let alloc = rt.alloc();
    let delivery = request_of(alloc, b"deliver root.der hex:3000")?;
    assert!(rt;
        delivery
            == Request::Deliver {
                issuer: "root.der",
                file: "hex:3000"
            }
    );
    let prints = request_of(alloc, b"prints ocsp a b")?;
    assert!(rt;
        prints
            == Request::Prints {
                kind: Kind::Response,
                with_parts: false,
                issuer: "a",
                file: "b"
            }
    );
    let parts = request_of(alloc, b"prints parts crl a b")?;
    assert!(rt;
        parts
            == Request::Prints {
                kind: Kind::RevocationList,
                with_parts: true,
                issuer: "a",
                file: "b"
            }
    );
    assert!(rt; request_of(alloc, b"list")? == Request::List(None));
    let moment = request_of(alloc, b"list 20250615000000Z")?;
    assert!(rt; moment == Request::List(Some("20250615000000Z")));
    assert!(rt; request_of(alloc, b"forget")? == Request::Forget);
    assert!(rt; request_of(alloc, b"quit")? == Request::Quit);
    Ok(())
}

#[test]
fn reads_questions(rt: HostRuntime) -> Result<(), Fail> {
    let alloc = rt.alloc();
    let mut files = Vec::new(alloc);
    files.push("b")?;
    files.push("c")?;
    let expected = Request::Check(QueryWords {
        moment: "20250615000000Z",
        purpose: Some("1.2.3"),
        anchor: "a",
        files,
    });
    let request = request_of(alloc, b"check 20250615000000Z purpose=1.2.3 a b c")?;
    assert!(rt; request == expected);
    Ok(())
}

/// The question about a path from `a` on.
fn question<'a>(
    alloc: Global,
    purpose: Option<&'a str>,
    anchor: &'a str,
    file: &'a str,
) -> Result<QueryWords<'a>, Fail> {
    let mut files = Vec::new(alloc);
    files.push(file)?;
    Ok(QueryWords {
        moment: "20250615000000Z",
        purpose,
        anchor,
        files,
    })
}

#[test]
fn reads_questions_with_policies(rt: HostRuntime) -> Result<(), Fail> {
    let alloc = rt.alloc();
    let mut policies = Vec::new(alloc);
    policies.push("1.2")?;
    policies.push("")?;
    let expected = Request::CheckWithPolicies {
        query: question(alloc, Some("1.3"), "a", "b")?,
        policies: PolicyWords {
            policies,
            require_policy: true,
            inhibit_mapping: false,
            inhibit_any_policy: true,
        },
    };
    let line =
        b"check 20250615000000Z purpose=1.3 policy=1.2 policy= require-policy inhibit-any-policy a b";
    assert!(rt; request_of(alloc, line)? == expected);
    Ok(())
}

/// The words behind the policies stand in their order, and are operands elsewhere.
#[test]
fn words_of_policies_are_operands_elsewhere(rt: HostRuntime) -> Result<(), Fail> {
    let alloc = rt.alloc();
    let alone = request_of(alloc, b"check 20250615000000Z require-policy policy=1.2")?;
    assert!(rt; alone == Request::Check(question(alloc, None, "require-policy", "policy=1.2")?));
    let mut policies = Vec::new(alloc);
    policies.push("1.2")?;
    let expected = Request::CheckWithPolicies {
        query: question(alloc, None, "inhibit-mapping", "b")?,
        policies: PolicyWords {
            policies,
            require_policy: false,
            inhibit_mapping: true,
            inhibit_any_policy: false,
        },
    };
    let line = b"check 20250615000000Z policy=1.2 inhibit-mapping inhibit-mapping b";
    assert!(rt; request_of(alloc, line)? == expected);
    Ok(())
}

#[test]
fn reads_searches(rt: HostRuntime) -> Result<(), Fail> {
    let alloc = rt.alloc();
    let (mut anchors, mut among) = (Vec::new(alloc), Vec::new(alloc));
    anchors.push("a")?;
    among.push("b")?;
    let expected = Request::Find {
        words: SearchWords {
            moment: "20250615000000Z",
            purpose: Some("1.2.3"),
            name: None,
            anchors,
            among,
            target: "c",
        },
        name: Some(String::from_str(alloc, "x y@z\\\u{e9}")?),
    };
    let line = b"find 20250615000000Z purpose=1.2.3 name=x\\20y@\\7a\\5c\\c3\\A9 a b c";
    assert!(rt; request_of(alloc, line)? == expected);
    let prints = request_of(alloc, b"prints parts search a b")?;
    assert!(rt;
        prints
            == Request::SearchPrints {
                with_parts: true,
                files: SearchFiles {
                    anchors: "a",
                    among: None,
                    target: "b"
                }
            }
    );
    Ok(())
}

#[test]
fn reads_fingerprints(rt: HostRuntime) -> Result<(), Fail> {
    let line = b"believe 000102030405060708090a0b0c0d0e0f101112131415161718191A1B1C1D1E1F";
    let Request::Believe(print) = request_of(rt.alloc(), line)? else {
        return Err(Fail::from("no fingerprint"));
    };
    assert!(rt; print[0] == 0 && print[17] == 17 && print[31] == 31);
    Ok(())
}

#[test]
fn reads_names_of_files(rt: HostRuntime) -> Result<(), Fail> {
    for (word, name) in NAMES.iter() {
        let Some(Operand::File(read)) = operand_of(rt.alloc(), word.as_bytes())? else {
            return Err(Fail::from("no file"));
        };
        assert!(rt; read.as_str() == *name, "{word}");
    }
    Ok(())
}

#[test]
fn reads_octets(rt: HostRuntime) -> Result<(), Fail> {
    let Some(Operand::Octets(octets)) = operand_of(rt.alloc(), b"hex:30fF")? else {
        return Err(Fail::from("no octets"));
    };
    assert!(rt; octets.as_slice() == [0x30, 0xFF].as_slice());
    Ok(())
}
