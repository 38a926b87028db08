// The calls that give a block another size or alignment. A crate of their own, since each must-fail edit proves its crate again.
#![tactic(auto)]

pub mod grow;
pub mod resize;
pub mod shrink;
