// The sides of a rule that is read, as its axiom has them.
use crate::skeleton::Skeleton;
use kp_kore::{Pattern, SortedVariable};

/// What a rule says of states with variables: its left term as a form, in which each variable stands for one value, its
/// condition, its right term, what that ensures, and the variables that are new in it.
pub struct ReadSides {
    pub left: Skeleton,
    pub condition: Vec<Pattern>,
    pub right: Pattern,
    pub ensured: Vec<Pattern>,
    /// Those that `\exists` binds at the top, and those that the left term hasn't.
    pub new_variables: Vec<SortedVariable>,
}

// Written out: a derived one is proved again, with those of all that it holds, in each crate that makes a rule.
impl Drop for ReadSides {
    fn drop(self) {
        let ReadSides {
            left: _left,
            condition: _condition,
            right: _right,
            ensured: _ensured,
            new_variables: _new_variables,
        } = self;
    }
}
