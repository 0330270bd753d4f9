use std::alloc::AllocError;
use std::sync::Arc;

/// How deep a value is written by itself, and each of its parts: a tree of the value's own shape, which shares what the
/// value shares. `depths_view` in specs/View.antt says which tree of specs/Depths.antt it is.
#[derive(Drop)]
pub enum Depths {
    /// A literal.
    One,
    /// A constructor: how many levels it has, counted up to 49, and the depths of its arguments.
    Built {
        levels: usize,
        parts: Arc<Vec<Depths>>,
    },
}

impl Depths {
    ghost use Rattle.std.specs.Prelude.{◌≡◌, IfOk};
    ghost use Rattle.kp_run.specs.Depths.{levels_of};
    ghost use Rattle.kp_run.specs.View.{depths_view};

    /// The same depths, sharing those of the arguments.
    pub fn share(&self) -> Result<Depths, AllocError>
        ensures { IfOk result (λ d. depths_view d ≡ depths_view self.now) }
    {
        match self {
            Depths::One => Ok(Depths::One),
            Depths::Built { levels, parts } => Ok(Depths::Built {
                levels: *levels,
                parts: parts.clone()?,
            }),
        }
    }

    /// How many levels the value itself has.
    pub fn levels(&self) -> usize
        ensures { result ≡ levels_of (depths_view self.now) }
    {
        match self {
            Depths::One => 1,
            Depths::Built { levels, .. } => *levels,
        }
    }
}
