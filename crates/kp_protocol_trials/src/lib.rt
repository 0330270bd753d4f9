// Tests of the public calls with ample memory, by values from outside: of Kore JSON, frames, requests and replies, proofs and the
// outside. They stand here together, since a crate with tests is proved twice.
#![tactic(auto)]

#[cfg(test)]
mod answers;
#[cfg(test)]
mod batches;
#[cfg(test)]
mod malformed;
#[cfg(test)]
mod outside;
#[cfg(test)]
mod proof_trees;
#[cfg(test)]
mod provers;
#[cfg(test)]
mod replies;
#[cfg(test)]
mod results;
#[cfg(test)]
mod table;
#[cfg(test)]
mod trees;
#[cfg(test)]
mod written;
