// The archive libfast.a: each export is `fast`'s function of its name, with its clauses. Nothing is decided here.
// The pairs, the four parts and the plain numbers are the C interface.
#![tactic(auto)]

pub mod allocate;
pub mod cancel;
pub mod copy_in;
pub mod fill;
pub mod free;
pub mod grow;
pub mod grow_zeroed;
pub mod lend;
pub mod reset;
pub mod resize;
pub mod shrink;
pub mod token;
