#![tactic(auto)]

mod check;
mod enter;
pub mod entry;
pub mod fault;
mod lookup;
mod own;
pub mod register;
