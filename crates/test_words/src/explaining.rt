//! Command lines of `explain`.

use cli_words::{Line, command_of};

// Command lines, and the words of their topics.
const TOPICS: &[(&[&str], &[&str])] = &[
    (&["x509check", "explain"], &[]),
    (&["x509check", "explain", "24"], &["24"]),
    (&["x509check", "explain", "status", "4"], &["status", "4"]),
    (&["x509check", "explain", "--", "-h"], &["-h"]),
];

// Whether the line explains the topic of these words.
fn explains(line: &Line<'_>, topic: &[&str]) -> bool {
    match line {
        Line::Explain { words } => words.as_slice() == topic,
        _ => false,
    }
}

#[test]
fn a_topic_has_its_words(rt: HostRuntime) {
    for (words, topic) in TOPICS.iter() {
        let Ok(line) = command_of(rt.alloc(), words) else {
            assert!(rt; false, "{words:?} is refused");
            return;
        };
        assert!(rt; explains(&line, topic), "{words:?}");
    }
}

#[test]
fn other_options_are_refused(rt: HostRuntime) {
    assert!(rt; command_of(rt.alloc(), &["x509check", "explain", "--deep"]).is_err());
}
