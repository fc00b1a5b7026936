#![tactic(auto)]

pub mod fault;
pub mod reading;
pub mod rows;
