//! The rows.

use crate::finding::{SearchFault, asked_among, found_among, octets_of};
use crate::rows::{QUESTIONS, ROWS};
use path_search::Budget;
use std::alloc::Global;
use std::test::Fail;
use vectors::certificate;

/// More than any row needs.
const AMPLE: Budget = Budget {
    signatures: 100,
    steps: 100,
};

/// What a row asks, and the answer that it wants.
#[derive(Clone, Copy)]
struct Row<'t> {
    name: &'t str,
    anchors: &'t str,
    bag: &'t str,
    target: &'t str,
    wanted: &'t str,
}

/// The parts of a row, between which bars stand.
fn row_of(row: &str) -> Row<'_> {
    let mut parts = row.split('|').map(str::trim);
    Row {
        name: parts.next().unwrap_or(""),
        anchors: parts.next().unwrap_or(""),
        bag: parts.next().unwrap_or(""),
        target: parts.next().unwrap_or(""),
        wanted: parts.next().unwrap_or(""),
    }
}

/// What is found of what the row asks.
fn found_of(alloc: Global, row: &Row<'_>) -> Result<String, SearchFault> {
    let anchors = octets_of(alloc, row.anchors)?;
    let bag = octets_of(alloc, row.bag)?;
    let target = certificate(alloc, row.target)?;
    found_among(alloc, anchors, bag, target, AMPLE)
}

/// What is asked for the row, and what is found by the answers alone.
fn asked_of(alloc: Global, row: &Row<'_>) -> Result<(String, String), SearchFault> {
    let anchors = octets_of(alloc, row.anchors)?;
    let bag = octets_of(alloc, row.bag)?;
    let target = certificate(alloc, row.target)?;
    asked_among(alloc, anchors, bag, target, AMPLE)
}

/// The same with the bag the other way round: how many certificates the path has, one more than a row's words; or 0.
fn length_turned(alloc: Global, row: &Row<'_>) -> Result<usize, SearchFault> {
    let anchors = octets_of(alloc, row.anchors)?;
    let mut bag = octets_of(alloc, row.bag)?;
    bag.reverse();
    let target = certificate(alloc, row.target)?;
    let found = found_among(alloc, anchors, bag, target, AMPLE)?;
    Ok(found.split(' ').count())
}

#[test]
fn the_first_valid_path_is_found(rt: HostRuntime) -> Result<(), Fail> {
    for line in ROWS.lines().filter(|line| line.contains('|')) {
        let row = row_of(line);
        let found = found_of(rt.alloc(), &row).map_err(|_| "an answer")?;
        assert_eq!(rt; found.as_str(), row.wanted, "{}", row.name);
    }
    Ok(())
}

#[test]
fn the_order_of_the_bag_does_not_change_the_length(rt: HostRuntime) -> Result<(), Fail> {
    for line in ROWS.lines().filter(|line| line.contains('|')) {
        let row = row_of(line);
        let count = length_turned(rt.alloc(), &row).map_err(|_| "an answer")?;
        assert_eq!(rt; count, row.wanted.split(' ').count(), "{}", row.name);
    }
    Ok(())
}

#[test]
fn a_search_may_ask_what_the_rows_say(rt: HostRuntime) -> Result<(), Fail> {
    for line in QUESTIONS.lines().filter(|line| line.contains('|')) {
        let row = row_of(line);
        let (asked, _) = asked_of(rt.alloc(), &row).map_err(|_| "an answer")?;
        assert_eq!(rt; asked.trim(), row.wanted, "{}", row.name);
    }
    Ok(())
}

#[test]
fn the_answers_alone_give_the_first_valid_path(rt: HostRuntime) -> Result<(), Fail> {
    for line in ROWS.lines().filter(|line| line.contains('|')) {
        let row = row_of(line);
        let (_, found) = asked_of(rt.alloc(), &row).map_err(|_| "an answer")?;
        assert_eq!(rt; found.as_str(), row.wanted, "{}", row.name);
    }
    Ok(())
}
