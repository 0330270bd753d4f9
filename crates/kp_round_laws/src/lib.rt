// From right exchanges to claims that hold: what the modules of claims mean that a proof adds first, that each round's arc says what it
// says, that a passed proof makes its claim hold if its dependencies hold, where a failed one fails, and that the passed claims of a file
// hold, layer by layer. The functions here have no bodies: each carries a law of the definitions in kp_rounds.
#![tactic(auto)]

pub mod laws;
