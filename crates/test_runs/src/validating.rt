//! Runs that validate: statements that are delivered, paths that are checked, stores that are compared.

mod delivering;
mod files;
mod finding;
mod in_session;
mod listed;
mod policies;
mod quick_start;
mod refused;
mod script;
mod several;
