// Tests of the registry: what passes that share a book see of each other, in one thread and in eight.
#![tactic(auto)]

#[cfg(test)]
mod modules;
#[cfg(test)]
mod passes;
#[cfg(test)]
mod threads;
