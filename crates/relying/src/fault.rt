//! Why statements are not taken.

use crate::node::Node;
use cert::CertFault;
use path_verifiers::Verifier;
use sqlite_disk::Disk;
use statements_parts::StatementFault;
use std::fmt;
use store::ReopenFault;
use store_sql::StoreFault;
use thiserror::Error;

/// Why a delivery takes nothing: the issuer's certificate is refused, else the statement is, else the store does not take it.
#[derive(Clone, Copy, Debug, PartialEq, Eq, Error)]
pub enum DeliverFault {
    #[error("the issuer's certificate is refused: {0}")]
    Issuer(CertFault),
    #[error("the statement is refused: {0}")]
    Statement(StatementFault),
    #[error("the store does not take it: {0}")]
    Store(StoreFault),
}

/// Why a run does not reach its end.
#[derive(Drop)]
pub enum RunFault<V: Verifier, D: Disk> {
    /// There is no room for the answers. Nothing was done.
    NoRoom(Node<V, D>),
    /// A restart failed after so many events. What is left of the store holds what the deliveries among these left.
    Restart(usize, ReopenFault<D>),
}

impl<V: Verifier, D: Disk> fmt::Display for RunFault<V, D> {
    fn fmt<W: fmt::Write>(&self, f: &mut fmt::Formatter<W>) -> fmt::Result {
        match self {
            RunFault::NoRoom(_) => write!(f, "no memory for the answers"),
            RunFault::Restart(done, fault) => write!(f, "restart behind {done} events: {fault}"),
        }
    }
}
