//! Options in front of the command.

use clap::error::ErrorKind;
use cli_words::{RunOptions, command_of, run_options};
use statements_facts::Profile;
use statements_facts::Profile::{Stated, Wide};
use std::io::Write;
use std::test::Fail;

// Words behind the program's name; whether there are hints, for how many seconds a store is waited for, the profile, and how many words are
// left.
const ROWS: &[(&[&str], bool, u16, Profile, usize)] = &[
    (&[], false, 10, Stated, 0),
    (&["check"], false, 10, Stated, 1),
    (&["--hints"], true, 10, Stated, 0),
    (&["--hints", "check", "--wait", "5"], true, 10, Stated, 3),
    (&["--wait", "0", "check"], false, 0, Stated, 1),
    (
        &["--wait", "65535", "--hints", "check"],
        true,
        65535,
        Stated,
        1,
    ),
    (
        &["--hints", "--wait", "5", "check", "--hints"],
        true,
        5,
        Stated,
        2,
    ),
    (&["--wait", "65536", "check"], false, 10, Stated, 3),
    (&["--wait", "-1", "check"], false, 10, Stated, 3),
    (&["--wait", "ten", "check"], false, 10, Stated, 3),
    (&["--wait", "", "check"], false, 10, Stated, 3),
    (&["--wait"], false, 10, Stated, 1),
    (&["check", "--hints"], false, 10, Stated, 2),
    (&["--Hints", "check"], false, 10, Stated, 2),
    (&["--hints=1", "check"], false, 10, Stated, 2),
    (&["--profile", "wide"], false, 10, Wide, 0),
    (&["--profile", "wide", "check"], false, 10, Wide, 1),
    (&["--profile", "stated", "check"], false, 10, Stated, 1),
    (
        &["--profile", "wide", "--profile", "stated", "check"],
        false,
        10,
        Stated,
        1,
    ),
    (
        &["--hints", "--profile", "wide", "--wait", "5", "check"],
        true,
        5,
        Wide,
        1,
    ),
    (
        &["--wait", "5", "--hints", "--profile", "wide"],
        true,
        5,
        Wide,
        0,
    ),
    (
        &["--hints", "--wait", "5", "--wait", "6", "--profile", "wide"],
        true,
        6,
        Stated,
        2,
    ),
    (&["--profile", "Wide", "check"], false, 10, Stated, 3),
    (&["--profile", "", "check"], false, 10, Stated, 3),
    (&["--profile", "--hints", "check"], false, 10, Stated, 3),
    (&["--profile"], false, 10, Stated, 1),
    (&["--profile=wide", "check"], false, 10, Stated, 2),
    (&["check", "--profile", "wide"], false, 10, Stated, 3),
];

// Command lines with an option in front that lacks its value, and what the error says of it.
const WITHOUT_VALUE: &[(&[&str], &str)] = &[
    (
        &["x509check", "--profile", "broad", "list", "--store", "s"],
        "error: PROFILE has to be 'stated' or 'wide', not 'broad'\n",
    ),
    (
        &["x509check", "--profile", "--hints", "tree", "a"],
        "error: PROFILE has to be 'stated' or 'wide', not '--hints'\n",
    ),
    (
        &["x509check", "--profile"],
        "error: PROFILE has to be 'stated' or 'wide', not ''\n",
    ),
    (
        &["x509check", "--wait", "65536", "tree", "a"],
        "error: SECONDS has to be a number from 0 to 65535, not '65536'\n",
    ),
];

#[test]
fn a_value_that_is_none_is_named(rt: HostRuntime) -> Result<(), Fail> {
    for (words, wanted) in WITHOUT_VALUE.iter() {
        let error = command_of(rt.alloc(), words).err().ok_or("an error")?;
        let mut text = Vec::new(rt.alloc());
        write!(text, "{error}")?;
        assert!(rt; text.starts_with(wanted.as_bytes()), "{words:?}");
        assert!(rt; error.kind() == ErrorKind::InvalidValue, "{words:?}");
    }
    Ok(())
}

#[test]
fn options_stand_in_front(rt: HostRuntime) {
    for (words, hints, wait, profile, left) in ROWS.iter() {
        let read = run_options(words);
        let options = RunOptions {
            hints: *hints,
            wait: *wait,
            profile: *profile,
        };
        assert_eq!(rt; read.options, options, "{words:?}");
        assert!(rt; words.ends_with(read.words), "{words:?}");
        assert_eq!(rt; read.words.len(), *left, "{words:?}");
    }
}
