// The archive libhost.a: each export is `host`'s function of its name, with its clauses. Nothing is decided here.
// An entry for each call, and its plain numbers, are the C interface.
#![tactic(auto)]

pub mod allocate;
pub mod create;
pub mod free;
pub mod grow;
pub mod lend;
pub mod limit;
pub mod reset;
pub mod resize;
pub mod shrink;
pub mod tokens;
pub mod walk;
pub mod write;
