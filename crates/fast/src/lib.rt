// Additional entries for C and Rust: the record is lent in parts and changed in its place, so that it is not copied. Of each call there are two.
// `miravoly_fast_*` tests the record as the entries of `host` do, and answers the same. `miravoly_sound_*` requires that the record is sound and that the
// region is its own, for a host that keeps both to itself: then nothing but the call's own numbers is tested.
// The pairs, the four parts and the plain numbers are the C interface; tools/contracts holds each to its named call.
#![tactic(auto)]

pub mod allocate;
pub mod cancel;
pub mod copy_in;
pub mod fill;
pub mod free;
pub mod grow;
pub mod grow_zeroed;
pub mod lend;
mod parts;
pub mod reset;
pub mod resize;
pub mod shrink;
pub mod token;
