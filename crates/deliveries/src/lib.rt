#![tactic(auto)]

mod across;
pub mod delivery;
pub mod fault;
pub mod head;
pub mod reading;
