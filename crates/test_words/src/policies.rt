//! Command lines of `check` that ask of policies.

use cli_words::{Line, PolicyWords, QueryWords, command_of};
use std::test::Fail;

// Words behind `x509check check --store s --verdicts v --at t --anchor a f`, the policies that they name, parted by commas, and the other
// options: `R`, `M` and `A` for `--require-policy`, `--inhibit-mapping` and `--inhibit-any-policy`.
const ASKED: &[(&[&str], &[&str], &str)] = &[
    (&["--policy", "1.2"], &["1.2"], ""),
    (
        &["--policy=1.2", "--policy", "2.5.29.32.0"],
        &["1.2", "2.5.29.32.0"],
        "",
    ),
    (&["--policy=x", "--require-policy"], &["x"], "R"),
    (&["--inhibit-mapping", "--policy="], &[""], "M"),
    (
        &[
            "--inhibit-any-policy",
            "--policy",
            "1.2",
            "--require-policy",
            "--inhibit-mapping",
        ],
        &["1.2"],
        "RMA",
    ),
];

// Words there that are refused.
const REFUSED: &[&[&str]] = &[
    &["--policy"],
    &["--require-policy"],
    &["--inhibit-mapping"],
    &["--inhibit-any-policy"],
    &["--require-policy", "--inhibit-any-policy"],
    &["--policy=1.2", "--require-policy", "--require-policy"],
    &["--policy=1.2", "--require-policy=1"],
    &["--policy=1.2", "--require"],
];

const FRONT: &[&str] = &[
    "x509check",
    "check",
    "--store",
    "s",
    "--verdicts",
    "v",
    "--at",
    "t",
    "--anchor",
    "a",
    "f",
];

// Whether that is asked of the path.
fn is_path(query: &QueryWords<'_>) -> bool {
    query.moment == "t" && query.anchor == "a" && query.purpose.is_none() && query.files.len() == 1
}

// Whether that is asked of policies.
fn are_policies(words: &PolicyWords<'_>, policies: &[&str], options: &str) -> bool {
    words.policies.as_slice() == policies
        && words.require_policy == options.contains('R')
        && words.inhibit_mapping == options.contains('M')
        && words.inhibit_any_policy == options.contains('A')
}

// Whether the line checks that.
fn is_check(line: &Line<'_>, policies: &[&str], options: &str) -> bool {
    match line {
        Line::CheckWithPolicies {
            store,
            verdicts,
            query,
            policies: words,
        } => {
            *store == "s"
                && *verdicts == "v"
                && is_path(query)
                && are_policies(words, policies, options)
        }
        _ => false,
    }
}

#[test]
fn policies_are_asked_for(rt: HostRuntime) -> Result<(), Fail> {
    for (behind, policies, options) in ASKED.iter() {
        let mut words = Vec::from_slice(rt.alloc(), FRONT)?;
        words.extend_from_slice(behind)?;
        let Ok(line) = command_of(rt.alloc(), words.as_slice()) else {
            assert!(rt; false, "{behind:?} is refused");
            return Ok(());
        };
        assert!(rt; is_check(&line, policies, options), "{behind:?}");
    }
    Ok(())
}

#[test]
fn options_of_policies_need_a_policy(rt: HostRuntime) -> Result<(), Fail> {
    for behind in REFUSED.iter() {
        let mut words = Vec::from_slice(rt.alloc(), FRONT)?;
        words.extend_from_slice(behind)?;
        let Err(error) = command_of(rt.alloc(), words.as_slice()) else {
            assert!(rt; false, "{behind:?} is taken");
            return Ok(());
        };
        assert!(rt; error.use_stderr(), "{behind:?}");
    }
    Ok(())
}
