//! Runs of many events.

use crate::stores::answers_to;
use relying::{DeliverAnswer, Event};
use statements_facts::Counts;
use std::alloc::Global;
use vectors::{certificate, revocation_list};

const EVENTS: usize = 2_000;

const RESTARTS_AT: usize = 1_000;

/// A list comes again and again, with a restart on the way.
fn events<'a>(alloc: Global, issuer: &'a [u8], list: &'a [u8]) -> Option<Vec<Event<'a>>> {
    let mut events = Vec::new(alloc);
    for index in 0..EVENTS {
        let event = if index == RESTARTS_AT {
            Event::Restart
        } else {
            Event::Deliver(issuer, list)
        };
        events.push(event).ok()?;
    }
    Some(events)
}

/// Whether the first list was stored, and no later one.
fn are_kept(answers: &[DeliverAnswer]) -> bool {
    let Some((first, later)) = answers.split_first() else {
        return false;
    };
    let stored = Counts {
        stored: 1,
        kept: 0,
        contradicted: 0,
    };
    let kept = Counts {
        stored: 0,
        kept: 1,
        contradicted: 0,
    };
    *first == Ok(stored) && later.iter().all(|answer| *answer == Ok(kept))
}

/// How many answers there are, and whether they are as wanted.
fn answered_to(alloc: Global, issuer: &[u8], list: &[u8]) -> Option<(usize, bool)> {
    let events = events(alloc, issuer, list)?;
    let answers = answers_to(alloc, &events)?;
    Some((answers.len(), are_kept(&answers)))
}

fn answered(alloc: Global) -> Option<(usize, bool)> {
    let issuer = certificate(alloc, "ca(R,R)").ok()?;
    let list = revocation_list(alloc, "crl(R,5,[05 1])").ok()?;
    answered_to(alloc, &issuer, &list)
}

#[test]
fn a_run_of_2_000_events(rt: HostRuntime) {
    assert_eq!(rt; answered(rt.alloc()), Some((EVENTS - 1, true)));
}
