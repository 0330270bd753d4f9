use kp_json::JsonFault;
use kp_kore::Pattern;
use kp_rpc::ExecuteOptions;

/// What is read of the tree of a state or of a side: the pattern that it spells, or its first fault.
#[derive(Drop)]
pub enum Reading {
    Pattern(Pattern),
    Fault(JsonFault),
}

/// A request of a method, read whole but for what only a module's signature tells.
/// Source: the K Haskell backend's JSON-RPC documentation (execute, implies, simplify, add-module).
#[derive(Drop)]
pub enum Request {
    Execute {
        state: Reading,
        options: ExecuteOptions,
    },
    Implies {
        antecedent: Reading,
        consequent: Reading,
        module_name: Option<String>,
    },
    Simplify {
        state: Reading,
        module_name: Option<String>,
    },
    /// The text of a module, and whether its own name is bound besides its id.
    AddModule {
        text: String,
        name_as_id: bool,
    },
}
