// Tests of the program's `run` over files and streams in memory, by values from outside: texts in, texts out. They stand
// apart from the program, since a crate with tests is proved twice.
#![tactic(auto)]

// the program: command lines, files, claims, requests and faults of the outside
#[cfg(test)]
mod claims;
#[cfg(test)]
mod endings;
#[cfg(test)]
mod requests;
#[cfg(test)]
mod running;
#[cfg(test)]
mod words;

// connections over a definition
#[cfg(test)]
mod connections;
#[cfg(test)]
mod definitions;
#[cfg(test)]
mod implications;
#[cfg(test)]
mod replies;
#[cfg(test)]
mod simplified;

// modules that are added, and those of a definition
#[cfg(test)]
mod additions;
#[cfg(test)]
mod extensions;
#[cfg(test)]
mod ids;
#[cfg(test)]
mod names;
#[cfg(test)]
mod own_walks;

// requests of `execute`
#[cfg(test)]
mod alone;
#[cfg(test)]
mod cases;
#[cfg(test)]
mod chosen;
#[cfg(test)]
mod ground;
#[cfg(test)]
mod limits;
#[cfg(test)]
mod lone;
#[cfg(test)]
mod refused;
#[cfg(test)]
mod repeated;
#[cfg(test)]
mod stopping;
#[cfg(test)]
mod twice;
#[cfg(test)]
mod undecided;
