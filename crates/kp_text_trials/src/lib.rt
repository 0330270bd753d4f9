// Tests of the public calls with ample memory, by values from outside: of text that is read and printed, patterns,
// difference constraints, frames, and connections with an answerer that says each frame again. They stand here together,
// since a crate with tests is proved twice.
#![tactic(auto)]

#[cfg(test)]
mod differences;
#[cfg(test)]
mod echo;
#[cfg(test)]
mod frames;
#[cfg(test)]
mod patterns;
#[cfg(test)]
mod printing;
#[cfg(test)]
mod readers;
#[cfg(test)]
mod serving;
