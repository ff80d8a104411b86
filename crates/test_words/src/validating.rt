//! Command lines of `deliver`, `check` and `compare`.

use cli_words::{Line, QueryWords, command_of};

// Whether each command line is refused (its text belongs on standard error) or asks for help.
const ANSWERED: &[(&[&str], bool)] = &[
    (&["x509check", "deliver"], true),
    (&["x509check", "deliver", "f"], true),
    (
        &[
            "x509check",
            "deliver",
            "--verdicts",
            "v",
            "--issuer",
            "i",
            "f",
        ],
        true,
    ),
    (
        &["x509check", "deliver", "--store", "s", "--issuer", "i", "f"],
        true,
    ),
    (
        &[
            "x509check",
            "deliver",
            "--store",
            "s",
            "--verdicts",
            "v",
            "f",
        ],
        true,
    ),
    (
        &[
            "x509check",
            "deliver",
            "--store",
            "s",
            "--verdicts",
            "v",
            "--issuer",
            "i",
        ],
        true,
    ),
    (
        &[
            "x509check",
            "deliver",
            "--store",
            "s",
            "--verdicts",
            "v",
            "--issuer",
            "i",
            "f",
            "g",
        ],
        true,
    ),
    (
        &[
            "x509check",
            "deliver",
            "--store",
            "s",
            "--verdicts",
            "v",
            "--issuer",
            "i",
            "--at",
            "t",
            "f",
        ],
        true,
    ),
    (
        &[
            "x509check",
            "check",
            "--verdicts",
            "v",
            "--at",
            "t",
            "--anchor",
            "a",
            "f",
        ],
        true,
    ),
    (
        &[
            "x509check",
            "check",
            "--store",
            "s",
            "--at",
            "t",
            "--anchor",
            "a",
            "f",
        ],
        true,
    ),
    (
        &[
            "x509check",
            "check",
            "--store",
            "s",
            "--verdicts",
            "v",
            "--anchor",
            "a",
            "f",
        ],
        true,
    ),
    (
        &[
            "x509check",
            "check",
            "--store",
            "s",
            "--verdicts",
            "v",
            "--at",
            "t",
            "f",
        ],
        true,
    ),
    (
        &[
            "x509check",
            "check",
            "--store",
            "s",
            "--verdicts",
            "v",
            "--at",
            "t",
            "--anchor",
            "a",
        ],
        true,
    ),
    (
        &[
            "x509check",
            "check",
            "--store",
            "s",
            "--verdicts",
            "v",
            "--at",
            "t",
            "--anchor",
            "a",
            "f",
            "--other",
            "o",
        ],
        true,
    ),
    (
        &[
            "x509check",
            "check",
            "--store",
            "s",
            "--store",
            "s",
            "--verdicts",
            "v",
            "--at",
            "t",
            "--anchor",
            "a",
            "f",
        ],
        true,
    ),
    (
        &[
            "x509check",
            "compare",
            "--store",
            "s",
            "--verdicts",
            "v",
            "--at",
            "t",
            "--anchor",
            "a",
            "f",
        ],
        true,
    ),
    (
        &[
            "x509check",
            "compare",
            "--other",
            "o",
            "--verdicts",
            "v",
            "--at",
            "t",
            "--anchor",
            "a",
            "f",
        ],
        true,
    ),
    (&["x509check", "deliver", "--help"], false),
    (&["x509check", "check", "--help"], false),
    (&["x509check", "compare", "-h"], false),
    (&["x509check", "help", "compare"], false),
];

#[test]
fn other_lines_are_answered(rt: HostRuntime) {
    for (words, refused) in ANSWERED.iter() {
        let answer = command_of(rt.alloc(), words).err();
        let answered = answer.map(|error| error.use_stderr()) == Some(*refused);
        assert!(rt; answered, "{words:?}");
    }
}

// Command lines of `deliver`, all of the same line.
const DELIVERIES: &[&[&str]] = &[
    &[
        "x509check",
        "deliver",
        "--store",
        "s",
        "--verdicts",
        "v",
        "--issuer",
        "i",
        "f",
    ],
    &[
        "x509check",
        "deliver",
        "f",
        "--issuer",
        "i",
        "--verdicts",
        "v",
        "--store",
        "s",
    ],
    &[
        "x509check",
        "deliver",
        "--issuer=i",
        "--store=s",
        "--verdicts=v",
        "--",
        "f",
    ],
];

fn delivery<'a>() -> Line<'a> {
    Line::Deliver {
        store: "s",
        verdicts: "v",
        issuer: "i",
        file: "f",
    }
}

#[test]
fn deliveries_have_their_files(rt: HostRuntime) {
    for words in DELIVERIES.iter() {
        let line = command_of(rt.alloc(), words).ok();
        assert!(rt; line == Some(delivery()), "{words:?}");
    }
}

// Command lines of `check` over the files `f` and, where so many are said, `g` and `h`.
const CHECKS: &[(&[&str], Option<&str>, usize)] = &[
    (
        &[
            "x509check",
            "check",
            "--store",
            "s",
            "--verdicts",
            "v",
            "--at",
            "t",
            "--anchor",
            "a",
            "f",
        ],
        None,
        1,
    ),
    (
        &[
            "x509check",
            "check",
            "--store",
            "s",
            "--verdicts",
            "v",
            "--at",
            "t",
            "--anchor",
            "a",
            "f",
            "g",
            "h",
        ],
        None,
        3,
    ),
    (
        &[
            "x509check",
            "check",
            "f",
            "--at",
            "t",
            "g",
            "--store",
            "s",
            "--anchor",
            "a",
            "--verdicts",
            "v",
        ],
        None,
        2,
    ),
    (
        &[
            "x509check",
            "check",
            "f",
            "g",
            "--purpose",
            "1.3",
            "--store=s",
            "--verdicts=v",
            "--at=t",
            "--anchor=a",
            "h",
        ],
        Some("1.3"),
        3,
    ),
    (
        &[
            "x509check",
            "check",
            "--store",
            "s",
            "--verdicts",
            "v",
            "--at",
            "t",
            "--anchor",
            "a",
            "--purpose=",
            "--",
            "f",
        ],
        Some(""),
        1,
    ),
];

// Whether that is asked of the files.
fn is_asked(query: &QueryWords<'_>, purpose: Option<&str>, count: usize) -> bool {
    let files = ["f", "g", "h"];
    query.moment == "t"
        && query.anchor == "a"
        && query.purpose == purpose
        && query.files.len() == count
        && query
            .files
            .iter()
            .zip(&files)
            .all(|(file, wanted)| file == wanted)
}

// Whether the line checks that.
fn is_check(line: &Line<'_>, purpose: Option<&str>, count: usize) -> bool {
    match line {
        Line::Check {
            store,
            verdicts,
            query,
        } => *store == "s" && *verdicts == "v" && is_asked(query, purpose, count),
        _ => false,
    }
}

#[test]
fn questions_have_their_files(rt: HostRuntime) {
    for (words, purpose, count) in CHECKS.iter() {
        let Ok(line) = command_of(rt.alloc(), words) else {
            assert!(rt; false, "{words:?} is refused");
            return;
        };
        assert!(rt; is_check(&line, *purpose, *count), "{words:?}");
    }
}

const COMPARISONS: &[&[&str]] = &[
    &[
        "x509check",
        "compare",
        "--store",
        "s",
        "--verdicts",
        "v",
        "--at",
        "t",
        "--anchor",
        "a",
        "--other",
        "o",
        "f",
        "g",
    ],
    &[
        "x509check",
        "compare",
        "f",
        "--other=o",
        "g",
        "--anchor",
        "a",
        "--at",
        "t",
        "--store",
        "s",
        "--verdicts",
        "v",
    ],
];

// Whether the line compares that with the store `o`.
fn is_comparison(line: &Line<'_>) -> bool {
    match line {
        Line::Compare {
            store,
            other,
            verdicts,
            query,
        } => *store == "s" && *other == "o" && *verdicts == "v" && is_asked(query, None, 2),
        _ => false,
    }
}

#[test]
fn comparisons_have_both_stores(rt: HostRuntime) {
    for words in COMPARISONS.iter() {
        let Ok(line) = command_of(rt.alloc(), words) else {
            assert!(rt; false, "{words:?} is refused");
            return;
        };
        assert!(rt; is_comparison(&line), "{words:?}");
    }
}
