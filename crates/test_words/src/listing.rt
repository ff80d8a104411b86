//! Command lines of `list`.

use clap::error::ErrorKind;
use cli_words::{Line, command_of};

// Command lines over the store `s`, and their moments.
const LISTS: &[(&[&str], Option<&str>)] = &[
    (&["x509check", "list", "--store", "s"], None),
    (&["x509check", "list", "--store=s"], None),
    (
        &["x509check", "list", "--store", "s", "--at", "t"],
        Some("t"),
    ),
    (&["x509check", "list", "--at=t", "--store=s"], Some("t")),
    (&["x509check", "list", "--at=", "--store", "s"], Some("")),
];

#[test]
fn a_list_has_its_store_and_its_moment(rt: HostRuntime) {
    for (words, moment) in LISTS.iter() {
        let line = command_of(rt.alloc(), words).ok();
        let wanted = Line::List {
            store: "s",
            moment: *moment,
        };
        assert!(rt; line == Some(wanted), "{words:?}");
    }
}

// Command lines that are none, and the kind of error of each.
const ANSWERED: &[(&[&str], ErrorKind)] = &[
    (&["x509check", "list"], ErrorKind::MissingRequiredArgument),
    (
        &["x509check", "list", "--at", "t"],
        ErrorKind::MissingRequiredArgument,
    ),
    (
        &["x509check", "list", "--store", "s", "--at"],
        ErrorKind::InvalidValue,
    ),
    (
        &["x509check", "list", "--at", "t", "--store"],
        ErrorKind::InvalidValue,
    ),
    (
        &["x509check", "list", "--store", "--at", "t"],
        ErrorKind::InvalidValue,
    ),
    (
        &["x509check", "list", "--store", "s", "f"],
        ErrorKind::UnknownArgument,
    ),
    (
        &["x509check", "list", "--store", "s", "--verdicts", "v"],
        ErrorKind::UnknownArgument,
    ),
    (
        &[
            "x509check",
            "list",
            "--store",
            "s",
            "--at",
            "t",
            "--at",
            "t",
        ],
        ErrorKind::ArgumentConflict,
    ),
    (&["x509check", "list", "--help"], ErrorKind::DisplayHelp),
    (&["x509check", "help", "list"], ErrorKind::DisplayHelp),
];

#[test]
fn other_lists_are_answered(rt: HostRuntime) {
    for (words, kind) in ANSWERED.iter() {
        let error = command_of(rt.alloc(), words).err();
        assert!(rt; error.map(|error| error.kind()) == Some(*kind), "{words:?}");
    }
}
