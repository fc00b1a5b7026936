// What tests of several crates share: rows with some bytes written over, and lines that are compared.
#![tactic(auto)]

pub mod lines;
pub mod rows;
