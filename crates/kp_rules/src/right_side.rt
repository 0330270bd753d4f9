// The right side of a rule with new variables or an ensured condition.
ghost use Rattle.std.specs.Prelude.{◌≡◌, true, map};
ghost use Rattle.std.specs.List.{list_all};
ghost use Rattle.std.proofs.Props.{props};
ghost use Rattle.kp_kore.specs.View.{view, sorted_variable_view};
ghost use Rattle.kp_kore.specs.Instance.{is_named as named_among};
ghost use Rattle.kp_ground.specs.Slots.{term_reads};
ghost use Rattle.kp_compile.specs.Exact.{are_named};
ghost use Rattle.kp_compile.specs.Names.{names_seen};
ghost use Rattle.kp_rules.specs.Known.{are_known};

use kp_compile::NameSet;
use kp_ground::CompiledTerm;
use kp_kore::{Pattern, SortedVariable};

/// The right side of a rule: a term, what it ensures, and the variables that stand for other values each time. Each of
/// its variables is new or one of the left term's, and these have values when the rule fires.
pub struct RightSide {
    pub term: Pattern,
    pub ensured: Vec<Pattern>,
    /// Those that `\exists` binds at the top, and those that the left term hasn't.
    pub new_variables: Vec<SortedVariable>,
    /// The left term's, which have values when the rule fires.
    pub left_variables: Vec<SortedVariable>,
    /// Their names, each once, by slot.
    pub left_names: NameSet,
    /// The parts of the term in which no new variable stands, compiled.
    pub parts: Vec<CompiledTerm>,
    pub ghost known: { are_known (map sorted_variable_view left_variables.items) (map sorted_variable_view new_variables.items) (view term) (map view ensured.items) ≡ true } by { Prim.hlevel props },
    pub ghost named: { are_named (names_seen left_names) (map sorted_variable_view left_variables.items) ≡ true } by { Prim.hlevel props },
    pub ghost bound: { list_all (term_reads (names_seen left_names)) parts.items ≡ true } by { Prim.hlevel props },
}

// Written out: a derived one is proved again, with those of all that it holds, in each crate that makes a rule.
impl Drop for RightSide {
    fn drop(self) {
        let RightSide {
            term: _term,
            ensured: _ensured,
            new_variables: _new_variables,
            left_variables: _left_variables,
            left_names: _left_names,
            parts: _parts,
        } = self;
    }
}

/// Whether a variable of this name is among these.
pub fn is_named(name: &str, variables: &[SortedVariable]) -> bool
    ensures { result ≡ named_among name.now (map sorted_variable_view variables.now) }
{
    for variable in variables {
        if variable.name.as_str() == name {
            return true;
        }
    }
    false
}
