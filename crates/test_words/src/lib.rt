//! Tests of command lines: what they are, which are refused, what stands in operands (moments, purposes, files of verdicts); of the lines
//! of a session and their operands; and of the lines of answers.
#![tactic(auto)]

#[cfg(test)]
mod answers;
#[cfg(test)]
mod explaining;
#[cfg(test)]
mod finding;
#[cfg(test)]
mod listing;
#[cfg(test)]
mod looking;
#[cfg(test)]
mod moments;
#[cfg(test)]
mod options;
#[cfg(test)]
mod policies;
#[cfg(test)]
mod purposes;
#[cfg(test)]
mod requests;
#[cfg(test)]
mod search_texts;
#[cfg(test)]
mod validating;
#[cfg(test)]
mod verdict_files;
