//! Command lines of `tree`, `show` and `prints`.

use cli_words::{Kind, Line, command_of};

// Whether each command line is refused (its text belongs on standard error) or asks for help.
const ANSWERED: &[(&[&str], bool)] = &[
    (&["x509check"], true),
    (&[], true),
    (&["x509check", "tree"], true),
    (&["x509check", "tree", "a", "b"], true),
    (&["x509check", "tree", "--deep", "a"], true),
    (&["x509check", "tree", "--as", "cert", "a"], true),
    (&["x509check", "grow", "a"], true),
    (&["x509check", "a"], true),
    (&["x509check", "show"], true),
    (&["x509check", "show", "--as", "cert"], true),
    (&["x509check", "show", "--as", "csr", "a"], true),
    (&["x509check", "show", "--as", "", "a"], true),
    (&["x509check", "show", "a", "b"], true),
    (&["x509check", "show", "--issuer", "i", "a"], true),
    (&["x509check", "prints"], true),
    (&["x509check", "prints", "a"], true),
    (&["x509check", "prints", "--issuer", "i"], true),
    (
        &["x509check", "prints", "--issuer", "a", "--as", "cert"],
        true,
    ),
    (&["x509check", "prints", "--issuer", "i", "a", "b"], true),
    (
        &["x509check", "prints", "--issuer", "i", "--issuer", "j", "a"],
        true,
    ),
    (
        &["x509check", "prints", "--issuer", "i", "--as", "csr", "a"],
        true,
    ),
    (
        &["x509check", "prints", "--issuer", "--as", "cert", "a"],
        true,
    ),
    (&["x509check", "prints", "a", "--issuer"], true),
    (
        &["x509check", "prints", "--issuer", "i", "--parts=yes", "a"],
        true,
    ),
    (&["x509check", "show", "--parts", "a"], true),
    (&["x509check", "show", "--all"], true),
    (&["x509check", "show", "--all=yes", "a"], true),
    (&["x509check", "show", "--all", "--all", "a"], true),
    (&["x509check", "tree", "--all", "a"], true),
    (
        &["x509check", "prints", "--issuer", "i", "--all", "a"],
        true,
    ),
    (&["x509check", "--version"], true),
    (&["x509check", "--help"], false),
    (&["x509check", "-h"], false),
    (&["x509check", "tree", "--help"], false),
    (&["x509check", "show", "--help"], false),
    (&["x509check", "prints", "--help"], false),
    (&["x509check", "help", "tree"], false),
];

fn prints<'a>(issuer: &'a str, file: &'a str) -> Line<'a> {
    Line::Prints {
        issuer,
        kind: Kind::Certificate,
        with_parts: false,
        file,
    }
}

// Command lines of `prints`, and the lines that they are.
const PRINTS: &[(&[&str], &str, &str)] = &[
    (
        &["x509check", "prints", "--issuer", "i.der", "a.der"],
        "i.der",
        "a.der",
    ),
    (
        &["x509check", "prints", "a.der", "--issuer", "i.der"],
        "i.der",
        "a.der",
    ),
    (
        &["x509check", "prints", "--issuer=i.der", "--as", "cert", "a"],
        "i.der",
        "a",
    ),
    (
        &["x509check", "prints", "--as=cert", "a", "--issuer", "a"],
        "a",
        "a",
    ),
    (
        &["x509check", "prints", "--issuer", "prints", "show"],
        "prints",
        "show",
    ),
    (
        &["x509check", "prints", "--issuer=--as", "--", "--issuer"],
        "--as",
        "--issuer",
    ),
];

#[test]
fn a_line_has_both_files(rt: HostRuntime) {
    for (words, issuer, file) in PRINTS.iter() {
        let Ok(line) = command_of(rt.alloc(), words) else {
            assert!(rt; false, "{words:?} is refused");
            return;
        };
        assert!(rt; line == prints(issuer, file), "{words:?}");
    }
}

// The line of `show` where there is a kind, and else of `tree`.
fn looks<'a>(kind: Option<Kind>, file: &'a str) -> Line<'a> {
    match kind {
        Some(kind) => Line::Show {
            kind,
            with_details: false,
            file,
        },
        None => Line::Tree { file },
    }
}

// Command lines of `tree`, and of `show` with its kind, and the file of each.
const LINES: &[(&[&str], Option<Kind>, &str)] = &[
    (&["x509check", "tree", "a.der"], None, "a.der"),
    (&["other", "tree", "tree"], None, "tree"),
    (&["x509check", "tree", "--", "--help"], None, "--help"),
    (
        &["x509check", "show", "a.der"],
        Some(Kind::Certificate),
        "a.der",
    ),
    (
        &["x509check", "show", "--as", "cert", "b.der"],
        Some(Kind::Certificate),
        "b.der",
    ),
    (
        &["x509check", "show", "--as", "crl", "b.der"],
        Some(Kind::RevocationList),
        "b.der",
    ),
    (
        &["x509check", "show", "--as", "ocsp", "b.der"],
        Some(Kind::Response),
        "b.der",
    ),
    (
        &["x509check", "show", "b.der", "--as=cert"],
        Some(Kind::Certificate),
        "b.der",
    ),
    (
        &["x509check", "show", "cert"],
        Some(Kind::Certificate),
        "cert",
    ),
];

#[test]
fn a_line_has_its_file(rt: HostRuntime) {
    for (words, kind, file) in LINES.iter() {
        let Ok(line) = command_of(rt.alloc(), words) else {
            assert!(rt; false, "{words:?} is refused");
            return;
        };
        assert!(rt; line == looks(*kind, file), "{words:?}");
    }
}

// Command lines of `show` that ask for details, and the kind of each; the file is `a`.
const DETAILED: &[(&[&str], Kind)] = &[
    (&["x509check", "show", "--all", "a"], Kind::Certificate),
    (&["x509check", "show", "a", "--all"], Kind::Certificate),
    (
        &["x509check", "show", "--all", "--as", "crl", "a"],
        Kind::RevocationList,
    ),
    (
        &["x509check", "show", "--as", "ocsp", "--all", "--", "a"],
        Kind::Response,
    ),
];

#[test]
fn a_line_asks_for_details(rt: HostRuntime) {
    for (words, kind) in DETAILED.iter() {
        let Ok(line) = command_of(rt.alloc(), words) else {
            assert!(rt; false, "{words:?} is refused");
            return;
        };
        let wanted = Line::Show {
            kind: *kind,
            with_details: true,
            file: "a",
        };
        assert!(rt; line == wanted, "{words:?}");
    }
}

#[test]
fn other_words_have_an_answer(rt: HostRuntime) {
    for (words, is_refused) in ANSWERED.iter() {
        match command_of(rt.alloc(), words) {
            Ok(line) => assert!(rt; false, "{words:?} is {line:?}"),
            Err(error) => assert!(rt; error.use_stderr() == *is_refused, "{words:?}: {error}"),
        }
    }
}
