#![tactic(auto)]

pub mod cover;
pub mod fare_table;
pub mod kind;
pub mod order;
pub mod series;
pub mod station;
pub mod values;
