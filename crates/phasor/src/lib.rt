// What is computed with numbers and is no operator: conjugate, square, turns. What each means stands in `turn`.
#![tactic(auto)]

pub mod product;
pub mod sum;
pub mod turns;
