// Bytes to numbers, impedances and labels; to head, boards and fault. And an empty place of a table of boards. What each means stands in `paper`.
#![tactic(auto)]

pub mod bytes;
pub mod field;
pub mod head;
pub mod table;
