// Tests of reading whole deliveries, as tables of cases.
#![tactic(auto)]

#[cfg(test)]
mod cases;
#[cfg(test)]
mod fare_tables;
#[cfg(test)]
mod firsts;
#[cfg(test)]
mod heads;
#[cfg(test)]
mod places;
#[cfg(test)]
mod sent;
#[cfg(test)]
mod series;
#[cfg(test)]
mod sizes;
#[cfg(test)]
mod stations;
#[cfg(test)]
mod tests;
