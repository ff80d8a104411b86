//! Command lines of `find`, and of `prints` with files to search among.

use clap::error::ErrorKind;
use cli_words::{Line, SearchWords, command_of};

// Command lines of `find` over the store `s`, the verdicts `v`, the moment `t` and the file `f`, without a purpose and a name: the files
// of the anchors, and those of the certificates between.
const SEARCHES: &[(&[&str], &[&str], &[&str])] = &[
    (
        &[
            "x509check",
            "find",
            "--store",
            "s",
            "--verdicts",
            "v",
            "--at",
            "t",
            "--anchor",
            "a",
            "f",
        ],
        &["a"],
        &[],
    ),
    (
        &[
            "x509check",
            "find",
            "f",
            "--anchor=a",
            "--at=t",
            "--verdicts=v",
            "--store=s",
        ],
        &["a"],
        &[],
    ),
    (
        &[
            "x509check",
            "find",
            "--store=s",
            "--verdicts=v",
            "--at=t",
            "--anchor",
            "a",
            "--among",
            "b",
            "f",
        ],
        &["a"],
        &["b"],
    ),
    (
        &[
            "x509check",
            "find",
            "--store=s",
            "--verdicts=v",
            "--at=t",
            "--anchor",
            "a",
            "--anchor",
            "b",
            "f",
        ],
        &["a", "b"],
        &[],
    ),
    (
        &[
            "x509check",
            "find",
            "--anchor=b",
            "--store=s",
            "f",
            "--verdicts=v",
            "--at=t",
            "--anchor=a",
        ],
        &["b", "a"],
        &[],
    ),
    (
        &[
            "x509check",
            "find",
            "--store=s",
            "--verdicts=v",
            "--at=t",
            "--anchor=a",
            "--among",
            "c",
            "--among",
            "b",
            "f",
        ],
        &["a"],
        &["c", "b"],
    ),
    (
        &[
            "x509check",
            "find",
            "--among=b",
            "--anchor=a",
            "--among=b",
            "--anchor=a",
            "--store=s",
            "--verdicts=v",
            "--at=t",
            "--",
            "f",
        ],
        &["a", "a"],
        &["b", "b"],
    ),
    (
        &[
            "x509check",
            "find",
            "--anchor=",
            "--among=--name",
            "--store=s",
            "--verdicts=v",
            "--at=t",
            "f",
        ],
        &[""],
        &["--name"],
    ),
];

// Whether the line asks for that search.
fn is_search(line: &Line<'_>, anchors: &[&str], among: &[&str]) -> bool {
    match line {
        Line::Find {
            store,
            verdicts,
            search,
        } => {
            *store == "s"
                && *verdicts == "v"
                && search.anchors.as_slice() == anchors
                && search.among.as_slice() == among
                && has_terms(search, None, None)
        }
        _ => false,
    }
}

// Whether it is asked at the moment `t` about the file `f`, with this purpose and name.
fn has_terms(search: &SearchWords<'_>, purpose: Option<&str>, name: Option<&str>) -> bool {
    search.moment == "t" && search.target == "f" && search.purpose == purpose && search.name == name
}

#[test]
fn searches_have_their_files(rt: HostRuntime) {
    for (words, anchors, among) in SEARCHES.iter() {
        let Ok(line) = command_of(rt.alloc(), words) else {
            assert!(rt; false, "{words:?} is refused");
            return;
        };
        assert!(rt; is_search(&line, anchors, among), "{words:?}");
    }
}

// Command lines of `find`, the purpose, and the name.
const TERMS: &[(&[&str], Option<&str>, Option<&str>)] = &[
    (
        &[
            "x509check",
            "find",
            "--store=s",
            "--verdicts=v",
            "--at=t",
            "--anchor=a",
            "--purpose",
            "1.3",
            "f",
        ],
        Some("1.3"),
        None,
    ),
    (
        &[
            "x509check",
            "find",
            "--store=s",
            "--verdicts=v",
            "--at=t",
            "--anchor=a",
            "--name",
            "example.com",
            "f",
        ],
        None,
        Some("example.com"),
    ),
    (
        &[
            "x509check",
            "find",
            "--store=s",
            "--verdicts=v",
            "--at=t",
            "--anchor=a",
            "f",
            "--name=a@b",
            "--purpose=1.3",
        ],
        Some("1.3"),
        Some("a@b"),
    ),
    (
        &[
            "x509check",
            "find",
            "--store=s",
            "--verdicts=v",
            "--at=t",
            "--anchor=a",
            "--name=",
            "f",
        ],
        None,
        Some(""),
    ),
];

#[test]
fn searches_have_their_terms(rt: HostRuntime) {
    for (words, purpose, name) in TERMS.iter() {
        let Ok(Line::Find { search, .. }) = command_of(rt.alloc(), words) else {
            assert!(rt; false, "{words:?} is no search");
            return;
        };
        assert!(rt; has_terms(&search, *purpose, *name), "{words:?}");
    }
}

// Command lines of `prints` with files to search among, of the issuers in `i` and the file `f`: these files, and whether the texts are
// asked for.
const SEARCH_PRINTS: &[(&[&str], &[&str], bool)] = &[
    (
        &["x509check", "prints", "--issuer", "i", "--among", "a", "f"],
        &["a"],
        false,
    ),
    (
        &[
            "x509check",
            "prints",
            "--among",
            "b",
            "--issuer",
            "i",
            "--among",
            "a",
            "f",
        ],
        &["b", "a"],
        false,
    ),
    (
        &[
            "x509check",
            "prints",
            "f",
            "--among=a",
            "--parts",
            "--issuer=i",
        ],
        &["a"],
        true,
    ),
    (
        &[
            "x509check",
            "prints",
            "--as",
            "cert",
            "--issuer=i",
            "--among=",
            "f",
        ],
        &[""],
        false,
    ),
];

// Whether the line asks for that.
fn is_search_prints(line: &Line<'_>, files: &[&str], parts: bool) -> bool {
    match line {
        Line::SearchPrints {
            issuers,
            among,
            with_parts,
            file,
        } => {
            *issuers == "i" && *file == "f" && *with_parts == parts && among.as_slice() == files
        }
        _ => false,
    }
}

#[test]
fn prints_may_be_of_a_search(rt: HostRuntime) {
    for (words, files, parts) in SEARCH_PRINTS.iter() {
        let Ok(line) = command_of(rt.alloc(), words) else {
            assert!(rt; false, "{words:?} is refused");
            return;
        };
        assert!(rt; is_search_prints(&line, files, *parts), "{words:?}");
    }
}

// Command lines that are none, and the kind of error of each.
const ANSWERED: &[(&[&str], ErrorKind)] = &[
    (&["x509check", "find"], ErrorKind::MissingRequiredArgument),
    (
        &[
            "x509check",
            "find",
            "--verdicts=v",
            "--at=t",
            "--anchor=a",
            "f",
        ],
        ErrorKind::MissingRequiredArgument,
    ),
    (
        &[
            "x509check",
            "find",
            "--store=s",
            "--at=t",
            "--anchor=a",
            "f",
        ],
        ErrorKind::MissingRequiredArgument,
    ),
    (
        &[
            "x509check",
            "find",
            "--store=s",
            "--verdicts=v",
            "--anchor=a",
            "f",
        ],
        ErrorKind::MissingRequiredArgument,
    ),
    (
        &[
            "x509check",
            "find",
            "--store=s",
            "--verdicts=v",
            "--at=t",
            "--among=a",
            "f",
        ],
        ErrorKind::MissingRequiredArgument,
    ),
    (
        &[
            "x509check",
            "find",
            "--store=s",
            "--verdicts=v",
            "--at=t",
            "--anchor=a",
        ],
        ErrorKind::MissingRequiredArgument,
    ),
    (
        &[
            "x509check",
            "find",
            "--store=s",
            "--verdicts=v",
            "--at=t",
            "--anchor=a",
            "f",
            "g",
        ],
        ErrorKind::UnknownArgument,
    ),
    (
        &[
            "x509check",
            "find",
            "--store=s",
            "--verdicts=v",
            "--at=t",
            "--anchor",
            "a",
            "b",
            "f",
        ],
        ErrorKind::UnknownArgument,
    ),
    (
        &[
            "x509check",
            "find",
            "--store=s",
            "--verdicts=v",
            "--at=t",
            "f",
            "--anchor",
        ],
        ErrorKind::InvalidValue,
    ),
    (
        &[
            "x509check",
            "find",
            "--store=s",
            "--verdicts=v",
            "--at=t",
            "--anchor=a",
            "f",
            "--among",
        ],
        ErrorKind::InvalidValue,
    ),
    (
        &[
            "x509check",
            "find",
            "--store=s",
            "--verdicts=v",
            "--at=t",
            "--at=t",
            "--anchor=a",
            "f",
        ],
        ErrorKind::ArgumentConflict,
    ),
    (
        &[
            "x509check",
            "find",
            "--store=s",
            "--verdicts=v",
            "--at=t",
            "--anchor=a",
            "--name=n",
            "--name=n",
            "f",
        ],
        ErrorKind::ArgumentConflict,
    ),
    (
        &[
            "x509check",
            "find",
            "--store=s",
            "--verdicts=v",
            "--at=t",
            "--anchor=a",
            "--other=o",
            "f",
        ],
        ErrorKind::UnknownArgument,
    ),
    (&["x509check", "find", "--help"], ErrorKind::DisplayHelp),
    (&["x509check", "help", "find"], ErrorKind::DisplayHelp),
    (
        &[
            "x509check",
            "check",
            "--store=s",
            "--verdicts=v",
            "--at=t",
            "--anchor=a",
            "--anchor=b",
            "f",
        ],
        ErrorKind::ArgumentConflict,
    ),
    (
        &[
            "x509check",
            "check",
            "--store=s",
            "--verdicts=v",
            "--at=t",
            "--anchor=a",
            "--among=b",
            "f",
        ],
        ErrorKind::UnknownArgument,
    ),
    (
        &["x509check", "prints", "--among", "a", "f"],
        ErrorKind::MissingRequiredArgument,
    ),
    (
        &["x509check", "prints", "--issuer", "i", "--among", "a"],
        ErrorKind::MissingRequiredArgument,
    ),
    (
        &["x509check", "prints", "--issuer", "i", "f", "--among"],
        ErrorKind::InvalidValue,
    ),
    (
        &[
            "x509check",
            "prints",
            "--issuer",
            "i",
            "--among",
            "a",
            "f",
            "g",
        ],
        ErrorKind::UnknownArgument,
    ),
    (
        &[
            "x509check",
            "prints",
            "--issuer",
            "i",
            "--among",
            "a",
            "--as",
            "crl",
            "f",
        ],
        ErrorKind::InvalidValue,
    ),
    (
        &[
            "x509check",
            "prints",
            "--issuer",
            "i",
            "--as=ocsp",
            "--among",
            "a",
            "f",
        ],
        ErrorKind::InvalidValue,
    ),
    (
        &[
            "x509check",
            "prints",
            "--issuer",
            "i",
            "--as=csr",
            "--among",
            "a",
            "f",
        ],
        ErrorKind::InvalidValue,
    ),
    (
        &["x509check", "show", "--among", "a", "f"],
        ErrorKind::UnknownArgument,
    ),
];

#[test]
fn other_searches_are_answered(rt: HostRuntime) {
    for (words, kind) in ANSWERED.iter() {
        let answered = command_of(rt.alloc(), words)
            .err()
            .map(|error| error.kind());
        assert!(rt; answered == Some(*kind), "{words:?}: {answered:?}");
    }
}
