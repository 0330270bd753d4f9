// Tests of what conditions say, against enumeration over small ranges, of folded terms, of the clauses that predicates and states
// are read as, of clauses with terms in the place of variables, of new names, and of what is decided; of states that are read,
// solved, written and read again, random ones under valuations; of the cases of a state under a left side. They stand here
// together, since a crate with tests is proved twice.
#![tactic(auto)]

#[cfg(test)]
mod case_texts;
#[cfg(test)]
mod cases;
#[cfg(test)]
mod clauses;
#[cfg(test)]
mod comparing;
#[cfg(test)]
mod decided;
#[cfg(test)]
mod deciding;
#[cfg(test)]
mod demands;
#[cfg(test)]
mod drawn;
#[cfg(test)]
mod folding;
#[cfg(test)]
mod forms;
#[cfg(test)]
mod fresh;
#[cfg(test)]
mod ground;
#[cfg(test)]
mod module;
#[cfg(test)]
mod opened_states;
#[cfg(test)]
mod opening;
#[cfg(test)]
mod random;
#[cfg(test)]
mod random_round_trips;
#[cfg(test)]
mod round_trips;
#[cfg(test)]
mod rows;
#[cfg(test)]
mod written;
