//! The rows.

use crate::policies::asking::{answer_to, steps_to};
use crate::policies::by_hand::ROWS;
use crate::policies::random::{MORE_ROWS, RANDOM_ROWS};
use std::test::Fail;

/// What a row asks, and the answer that it wants.
#[derive(Clone, Copy)]
struct Row<'t> {
    name: &'t str,
    inputs: &'t str,
    certificates: &'t str,
    wanted: &'t str,
}

/// The parts of a row, between which semicolons stand.
fn row_of(row: &str) -> Row<'_> {
    let mut parts = row.split(';').map(str::trim);
    Row {
        name: parts.next().unwrap_or(""),
        inputs: parts.next().unwrap_or(""),
        certificates: parts.next().unwrap_or(""),
        wanted: parts.next().unwrap_or(""),
    }
}

#[test]
fn each_row_has_its_answer(rt: HostRuntime) -> Result<(), Fail> {
    for rows in [ROWS, RANDOM_ROWS, MORE_ROWS] {
        for line in rows.lines().filter(|line| line.contains(';')) {
            let row = row_of(line);
            let answer = answer_to(rt.alloc(), row.inputs, row.certificates);
            let answer = answer.map_err(|_| "an answer")?;
            assert_eq!(rt; answer.as_str(), row.wanted, "{}", row.name);
        }
    }
    Ok(())
}

/// How many certificates pass before the answer that a row wants: each if it is good, those above the one that is refused if not; if that
/// is refused only for the user's policies, it has passed too.
fn passes_wanted(row: Row<'_>) -> usize {
    let mut words = row.wanted.split(' ');
    let (verdict, number, reason) = (words.next(), words.next(), words.next());
    let number = number.and_then(|number| number.parse::<usize>().ok());
    match (verdict, number, reason) {
        (Some("bad"), Some(number), Some("NoUserPolicy")) => number,
        (Some("bad"), Some(number), _) => number.saturating_sub(1),
        _ => row.certificates.split('|').count(),
    }
}

#[test]
fn each_row_steps_to_its_outcome(rt: HostRuntime) -> Result<(), Fail> {
    for rows in [ROWS, RANDOM_ROWS, MORE_ROWS] {
        for line in rows.lines().filter(|line| line.contains(';')) {
            let row = row_of(line);
            let steps = steps_to(rt.alloc(), row.inputs, row.certificates);
            let (passed, outcome) = steps.map_err(|_| "steps")?;
            let answer = answer_to(rt.alloc(), row.inputs, row.certificates);
            let answer = answer.map_err(|_| "an answer")?;
            assert_eq!(rt; outcome, answer, "{}", row.name);
            assert_eq!(rt; passed, passes_wanted(row), "{}", row.name);
        }
    }
    Ok(())
}

#[test]
fn no_row_is_lost(rt: HostRuntime) {
    let count = |rows: &str| rows.lines().filter(|line| line.contains(';')).count();
    assert_eq!(rt; [ROWS, RANDOM_ROWS, MORE_ROWS].map(count), [305, 200, 200]);
}
