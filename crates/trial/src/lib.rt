// What the programs that hold the arena to a table share: the table's text, the record as a row, changes that are planted in it, and the numbers of refusals.
#![tactic(auto)]

pub mod number;
pub mod row;
pub mod table;
