//! Extensions that are read only where they are asked for: distribution points of certificates, and certificate policies, also as paths
//! process them. All of this crate are tests, over the public calls of `cert_points`, `cert_policies` and `path_policies`.
#![tactic(auto)]

#[cfg(test)]
mod building;
#[cfg(test)]
mod points;
#[cfg(test)]
mod policies;
