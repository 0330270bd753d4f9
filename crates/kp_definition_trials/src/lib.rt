// Tests of signatures, modules and their faults, substitution, compiled terms, rules, ground steps and runs, layers, claims and
// their files. They stand here together, since a crate with tests is proved twice.
#![tactic(auto)]

#[cfg(test)]
mod claim_files;
#[cfg(test)]
mod claim_modules;
#[cfg(test)]
mod claims;
#[cfg(test)]
mod compiling;
#[cfg(test)]
mod definitions;
#[cfg(test)]
mod hooks;
#[cfg(test)]
mod layers;
#[cfg(test)]
mod lone;
#[cfg(test)]
mod many;
#[cfg(test)]
mod rows;
#[cfg(test)]
mod rules;
#[cfg(test)]
mod stepping;
#[cfg(test)]
mod subsorts;
#[cfg(test)]
mod substituting;
#[cfg(test)]
mod successors;
#[cfg(test)]
mod texts;
#[cfg(test)]
mod values;
#[cfg(test)]
mod verifying;
