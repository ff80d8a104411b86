//! Tests of stores and parties over disks in memory. Those of the wide profile (RFC 5280, 4.2.1.13, 5.2.5 and 6.3.3; RFC 6960, 4.1.1): which
//! lists and responses they take, what they say then, which tables they are taken from; and questions that are read in a profile. And much
//! work with ample memory: no call says that memory or the store failed.
#![tactic(auto)]

#[cfg(test)]
mod events;
#[cfg(test)]
mod migrations;
#[cfg(test)]
mod octets;
#[cfg(test)]
mod partitions;
#[cfg(test)]
mod profiles;
#[cfg(test)]
mod putting;
#[cfg(test)]
mod questions;
#[cfg(test)]
mod responses;
#[cfg(test)]
mod stated;
#[cfg(test)]
mod stores;
#[cfg(test)]
mod telling;
