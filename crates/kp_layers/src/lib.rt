// Claims in layers by what they depend on, without recursion: the layer of each claim, or a claim that stands in a cycle.
// specs/Layers.antt says what layers are. Claims are numbers here, from 0.
#![tactic(auto)]

mod laws;
mod layers;
mod open;
mod walk;

pub use laws::claims_in_layers_stand_in_no_cycle;
pub use layers::{Layering, layers_of};
