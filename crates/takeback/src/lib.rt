// Blocks that can be taken back: allocate with a token, and cancel.
#![tactic(auto)]

pub mod tokens;
