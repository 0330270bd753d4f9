ghost use Rattle.std.specs.Prelude.{◌≡◌, true};
ghost use Rattle.std.proofs.Props.{props};
ghost use Rattle.kp_ground.specs.Slots.{left_variables};
ghost use Rattle.kp_rules.specs.Bound.{is_left_bound, is_right_bound, names_of_choice};

use crate::right_side::RightSide;
use crate::sides::ReadSides;
use crate::skeleton::Skeleton;
use kp_ground::{CompiledLeft, CompiledTerm, Condition};
use kp_kore::{Name, Sort};
use std::sync::Arc;

/// A rule of a rule set. A smaller priority number goes first. Rule sets share all but the priority.
pub struct Rule {
    pub id: Arc<String>,
    pub priority: u32,
    pub body: Arc<RuleBody>,
    pub source: Arc<RuleSource>,
}

// Written out: a derived one is proved again in each crate that owns such a value.
impl Drop for Rule {
    fn drop(self) {
        let Rule {
            id: _id,
            priority: _priority,
            body: _body,
            source: _source,
        } = self;
    }
}

/// Where a rule stands, and what it may be called.
pub struct RuleSource {
    /// The name of its module, or the id of a module that was added.
    pub module: Name,
    /// Its number among the module's axioms, from 1.
    pub number: usize,
    /// Its label, where its axiom has one.
    pub label: Option<Arc<String>>,
    /// `MODULE#NUMBER`.
    pub numbered: Arc<String>,
}

// Written out: a derived one is proved again in each crate that owns such a value.
impl Drop for RuleSource {
    fn drop(self) {
        let RuleSource {
            module: _module,
            number: _number,
            label: _label,
            numbered: _numbered,
        } = self;
    }
}

/// What a rewrite axiom says, where all of it has a meaning; else what its left side may stand for.
pub enum RuleBody {
    Rewrite(Rewrite),
    Foreign(Skeleton),
}

// Written out: a derived one is proved again, with those of all that it holds, in each crate that owns a rule.
impl Drop for RuleBody {
    fn drop(self) {
        match self {
            RuleBody::Rewrite(_rewrite) => {}
            RuleBody::Foreign(_skeleton) => {}
        }
    }
}

/// A rule that is read: matched by `left` and the sort tests, under `condition`, to `right`. A match binds the left term's
/// variables, and what is tested, the condition and, unless the rule chooses, the right term read no others.
pub struct Rewrite {
    pub left: CompiledLeft,
    pub tests: Vec<SortTest>,
    pub condition: Condition,
    pub right: CompiledTerm,
    pub right_sort: Sort,
    /// A new variable or an ensured condition other than `\top`: more than one configuration may follow, or none.
    pub chooses: bool,
    /// The right side of a rule that chooses, as its axiom has it.
    pub choice: Option<RightSide>,
    /// What it says of states with variables.
    pub sides: ReadSides,
    pub ghost left_bound: { is_left_bound left tests.items condition ≡ true } by { Prim.hlevel props },
    pub ghost right_bound: { is_right_bound left chooses choice right ≡ true } by { Prim.hlevel props },
    pub ghost choice_bound: { names_of_choice (left_variables left) choice ≡ left_variables left } by { Prim.hlevel props },
}

// Written out: a derived one is proved again, with those of all that it holds, in each crate that makes a rule.
impl Drop for Rewrite {
    fn drop(self) {
        let Rewrite {
            left: _left,
            tests: _tests,
            condition: _condition,
            right: _right,
            right_sort: _right_sort,
            chooses: _chooses,
            choice: _choice,
            sides: _sides,
        } = self;
    }
}

/// A left variable whose place doesn't give its sort, as under `inj` or alone at the top, with its slot.
pub struct SortTest {
    pub name: String,
    pub slot: usize,
    pub sort: Sort,
}

// Written out: a derived one is proved again in each crate that owns such a value.
impl Drop for SortTest {
    fn drop(self) {
        let SortTest {
            name: _name,
            slot: _slot,
            sort: _sort,
        } = self;
    }
}
