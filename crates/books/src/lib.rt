#![tactic(auto)]

mod admission;
pub mod book;
pub mod fault;
pub mod find;
mod join;
pub mod lines;
