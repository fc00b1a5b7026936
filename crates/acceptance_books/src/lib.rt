// Tests of the book, as scripts of deliveries and questions.
#![tactic(auto)]

#[cfg(test)]
mod answers;
#[cfg(test)]
mod asked;
#[cfg(test)]
mod following;
#[cfg(test)]
mod life;
#[cfg(test)]
mod many;
#[cfg(test)]
mod refusals;
#[cfg(test)]
mod script;
#[cfg(test)]
mod sent;
#[cfg(test)]
mod tests;
#[cfg(test)]
mod untrue;
