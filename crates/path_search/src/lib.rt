//! Paths from an anchor to a certificate, found among certificates that come in any order (RFC 4158).
#![tactic(auto)]

mod answer;
mod authority;
mod collecting;
mod diagnosis;
mod ground;
mod laws;
mod obstacles;
mod paths;
mod queue;
mod reasons;
mod steps;
mod tail;
mod walk;

pub use answer::{Answer, Budget, Candidate};
pub use authority::Authority;
pub use diagnosis::{Stuck, WhyNot, why_not};
pub use laws::{factor_laws, search_laws, why_not_laws};
pub use obstacles::Obstacle;
pub use path_issuers::{
    Issuer, Options, Search, SearchQuestion, is_right_as_authority, is_right_as_target, issues,
    question_laws, questions,
};
pub use paths::{Paths, find};
pub use tail::Tail;
