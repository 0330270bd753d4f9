// The tree of a proof, as pyk's KCFG and APRProof keep one: nodes numbered from 1, each with its state, edges, splits,
// branches, covers, vacuous, stuck and terminal leaves, and nodes that are held. specs/Tree.antt says what each call does to the list of nodes, and what is
// told of it; specs/Says.antt what the arcs say of the states, and that a passed tree makes its claim hold (laws.rt).
#![tactic(auto)]

pub mod laws;
mod node;
mod nodes;
mod status;
mod steps;
pub mod tree;

pub use node::{Child, NodeId, TreeArc, TreeFault, Why};
pub use nodes::MOST_NODES;
pub use status::Status;
pub use tree::Tree;
