//! Tests of relying parties over disks in memory: what they take, what they say after it, also behind a restart and over a store of
//! version 1, where they agree, and what is left where a restart fails; of stores at paths of the system's files; and of faults of runs as they are printed.
#![tactic(auto)]

#[cfg(test)]
mod agreeing;
#[cfg(test)]
mod answering;
#[cfg(test)]
mod asking;
#[cfg(test)]
mod at_paths;
#[cfg(test)]
mod finding;
#[cfg(test)]
mod in_steps;
#[cfg(test)]
mod limited;
#[cfg(test)]
mod memory;
#[cfg(test)]
mod path_file;
#[cfg(test)]
mod printing;
#[cfg(test)]
mod stopping;
#[cfg(test)]
mod telling;
#[cfg(test)]
mod version_1;
