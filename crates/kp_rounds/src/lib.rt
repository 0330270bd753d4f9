// How a claim is proved by rounds of questions, as definitions: what is to be proved and the modules of claims that are added first,
// what a round asks and makes of the tree, how a proof ends or breaks off, what it says of its claim, and the proofs of a file's claims
// layer by layer. To be read in the order Jobs, Rounds, Broken, Sound, Layered. There is no code: the rounds are played where the
// prover is.
#![tactic(auto)]
