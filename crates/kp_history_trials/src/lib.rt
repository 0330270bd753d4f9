// Tests of a history over a list of numbers: what passes that take turns see of each other, in one thread and in eight.
#![tactic(auto)]

#[cfg(test)]
mod ledger;
#[cfg(test)]
mod threads;
#[cfg(test)]
mod turns;
#[cfg(test)]
mod work;
