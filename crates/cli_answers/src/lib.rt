//! Lines that answer: the counts of a delivery, a verdict, a comparison of two verdicts, a path that was found. The exit statuses of a
//! run.
#![tactic(auto)]

mod counted;
mod lines;
mod place_lines;
mod search_verdict;
mod status;
mod verdict_lines;
mod writing;

pub use counted::counts_to;
pub use lines::{LINE_MOST, LineRead, read_line};
pub use place_lines::{FilePlace, file_place_to, path_to};
pub use search_verdict::{SearchVerdict, search_status, search_verdict_to};
pub use status::{
    DIFFERENT, DONE, FAILED, INVALID, MISTAKEN, REFUSED, REVOKED, UNKNOWN, comparison_status,
    verdict_status,
};
pub use verdict_lines::{comparison_to, verdict_to};
pub use writing::write_front;
