use crate::value::Value;
use kp_kore::Hook;
use std::sync::Arc;

/// A term of a rule. `term_view` in specs/TermView.antt says which term of specs/Terms.antt it is.
pub enum CompiledTerm {
    /// The value is found by the slot.
    Variable {
        name: String,
        slot: usize,
    },
    /// What is the same under every valuation.
    Fixed {
        value: Value,
    },
    Built {
        constructor: Arc<String>,
        arguments: Vec<CompiledTerm>,
    },
    Call {
        hook: Hook,
        left: Box<CompiledTerm>,
        right: Box<CompiledTerm>,
    },
    /// The opposite of a truth value.
    Opposite {
        term: Box<CompiledTerm>,
    },
}

// Written out: a derived one is proved again in each crate that owns such a value.
impl Drop for CompiledTerm {
    fn drop(self) {
        match self {
            CompiledTerm::Variable {
                name: _name,
                slot: _slot,
            } => {}
            CompiledTerm::Fixed { value: _value } => {}
            CompiledTerm::Built {
                constructor: _constructor,
                arguments: _arguments,
            } => {}
            CompiledTerm::Call {
                hook: _hook,
                left: _left,
                right: _right,
            } => {}
            CompiledTerm::Opposite { term: _term } => {}
        }
    }
}
