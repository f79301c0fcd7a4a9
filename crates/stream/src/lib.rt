// A stream of cases and the stream of their answers, each as bytes. The layout stands at the top of crates/batch/src/main.rt.
#![tactic(auto)]

pub mod case;
mod part;
pub mod said;
pub mod solved;
pub mod written;
