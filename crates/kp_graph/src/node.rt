use kp_kore::Pattern;
use std::alloc::AllocError;

/// The number of a node: the first made has 1, each other the next.
#[derive(Clone, Copy, Debug, PartialEq, Eq)]
pub struct NodeId {
    pub number: usize,
}

/// What a node's state was found to do.
#[derive(Drop)]
pub enum TreeArc {
    /// So many steps on is the state of the node `to`, where a terminal rule may have applied.
    Edge {
        depth: u64,
        to: NodeId,
        terminal: bool,
    },
    /// The state is divided into those of so many nodes from `first` on.
    Split {
        first: NodeId,
        count: usize,
    },
    /// What follows the state are those of the nodes from `first` on, each by the rule of this id, or by none.
    Branch {
        rules: Vec<Option<String>>,
        first: NodeId,
    },
    /// The state is one of the claim's right side.
    Cover,
    /// The state has no instance.
    Vacuous,
    /// No rule applies to the state.
    Stuck,
    /// A terminal rule ended the run in the state, which isn't one of the claim's right side.
    Terminal,
}

/// A state that follows a branch's, and the id of the rule by which it does; none where no rule fires.
#[derive(Drop)]
pub struct Child {
    pub state: Pattern,
    pub rule: Option<String>,
}

/// Why a node is held: it isn't asked about again.
#[derive(Drop)]
pub enum Why {
    /// By a reply that gives no arc, its bytes.
    Held(Vec<u8>),
    /// The rounds that may be were used.
    Rounds,
    /// The nodes that may be were made.
    Nodes,
}

/// Why a tree refuses a call.
#[derive(Clone, Copy, Debug, PartialEq, Eq)]
pub enum TreeFault {
    /// K1: the tree has no such node.
    NoSuchNode,
    /// K2: the node has an arc, or is held.
    NotOpen,
    /// K3: the tree has as many nodes as it may.
    TooManyNodes,
    Memory,
}

impl From<AllocError> for TreeFault {
    ghost use Rattle.std.specs.Prelude.{◌≡◌};
    ghost use Rattle.kp_graph.specs.declared.node.TreeFault.TheVariants as faults;

    ghost from_gives = { λ _ e. e ≡ faults.Memory };

    fn from(_error: AllocError) -> Self {
        TreeFault::Memory
    }
}

/// A node as it is kept, with whether the path from node 1 to it has a step that is progress. So many nodes right behind
/// it are known not to be open; where such a row ends here, so many nodes before this one it begins.
#[derive(Drop)]
pub struct Node {
    pub state: Pattern,
    pub parent: Option<NodeId>,
    pub flagged: bool,
    pub arc: Option<TreeArc>,
    pub held: Option<Why>,
    pub progress: bool,
    pub closed_behind: usize,
    pub row_before: usize,
}
