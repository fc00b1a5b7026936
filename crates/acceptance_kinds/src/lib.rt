// Tests of the three kinds of record, as tables of cases.
#![tactic(auto)]

#[cfg(test)]
mod fare_tables;
#[cfg(test)]
mod rows;
#[cfg(test)]
mod series;
#[cfg(test)]
mod stations;
