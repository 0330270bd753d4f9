use crate::term::CompiledTerm;

/// A condition of a rule. `condition_view` in specs/ConditionView.antt says which of specs/Conditions.antt it is.
pub enum Condition {
    Always,
    Never,
    Not {
        condition: Box<Condition>,
    },
    All {
        conditions: Vec<Condition>,
    },
    Any {
        conditions: Vec<Condition>,
    },
    Implies {
        left: Box<Condition>,
        right: Box<Condition>,
    },
    Iff {
        left: Box<Condition>,
        right: Box<Condition>,
    },
    /// Two terms have the same value.
    Same {
        left: CompiledTerm,
        right: CompiledTerm,
    },
}

// Written out: a derived one is proved again in each crate that owns such a value.
impl Drop for Condition {
    fn drop(self) {
        match self {
            Condition::Always => {}
            Condition::Never => {}
            Condition::Not {
                condition: _condition,
            } => {}
            Condition::All {
                conditions: _conditions,
            } => {}
            Condition::Any {
                conditions: _conditions,
            } => {}
            Condition::Implies {
                left: _left,
                right: _right,
            } => {}
            Condition::Iff {
                left: _left,
                right: _right,
            } => {}
            Condition::Same {
                left: _left,
                right: _right,
            } => {}
        }
    }
}
