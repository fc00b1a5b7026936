#![tactic(auto)]

pub mod bytes;
pub mod checker;
pub mod class;
pub mod date;
pub mod fault;
pub mod flags;
pub mod parts;
pub mod rule;
pub mod text;
