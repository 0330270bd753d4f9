use crate::value::Value;
use std::sync::Arc;

/// A left term of a rule. `left_view` in specs/LeftView.antt says which left term of specs/Terms.antt it is.
pub enum CompiledLeft {
    /// The first place of a variable takes the next slot, the others tell that of the first.
    Variable {
        name: Arc<String>,
        slot: usize,
    },
    /// What is the same under every valuation.
    Fixed {
        value: Value,
    },
    Built {
        constructor: Arc<String>,
        arguments: Vec<CompiledLeft>,
    },
}

// Written out: a derived one is proved again in each crate that owns such a value.
impl Drop for CompiledLeft {
    fn drop(self) {
        match self {
            CompiledLeft::Variable {
                name: _name,
                slot: _slot,
            } => {}
            CompiledLeft::Fixed { value: _value } => {}
            CompiledLeft::Built {
                constructor: _constructor,
                arguments: _arguments,
            } => {}
        }
    }
}
