//! What can go wrong in the example.

use std::alloc::AllocError;
use std::io;
use thiserror::Error;
use x509::{CertFault, DeliverFault, Fault, QueryFault};

/// Why the example ends early.
#[derive(Debug, Drop, Error)]
pub enum Failure {
    #[error("{0}")]
    Io(#[from] io::Error),
    #[error("a certificate is refused: {0}")]
    Certificate(#[from] CertFault),
    #[error("certificate {} of the path is refused: {}", .0.certificate, .0.fault)]
    Query(#[from] QueryFault),
    #[error("{0}")]
    Delivery(#[from] DeliverFault),
    #[error("{0}")]
    Party(#[from] Fault),
    #[error("no memory")]
    Memory(#[from] AllocError),
    #[error("no store can be made")]
    NoStore,
}
