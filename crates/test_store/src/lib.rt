//! Tests of a store's tables, rows and look-ups, over disks in memory, and of its listing as text.
#![tactic(auto)]

#[cfg(test)]
mod bad_cells;
#[cfg(test)]
mod held;
#[cfg(test)]
mod lines;
#[cfg(test)]
mod listing;
#[cfg(test)]
mod looked_up;
#[cfg(test)]
mod overview;
#[cfg(test)]
mod putting;
#[cfg(test)]
mod recognized;
#[cfg(test)]
mod steps;
