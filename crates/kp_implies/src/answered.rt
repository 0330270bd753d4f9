// What is answered where clauses are left open, and where nothing is.
ghost use Rattle.std.specs.Prelude.{◌≡◌, ◌≤◌, ◌∷◌, [], IfErr, IfOk, IsTrue, List, None, map};
ghost use Rattle.std.specs.List.{flat_map};
ghost use Rattle.kp_goals.specs.Consequents as model;
ghost use Rattle.kp_goals.specs.View.{consequent_view};
ghost use Rattle.kp_kore.specs.Syntax.{Text};
ghost use Rattle.kp_kore.specs.View.{sort_view};
ghost use Rattle.kp_simplify.specs.Answers.{atom_sides, first_deep};
ghost use Rattle.kp_step.specs.Counted.{most_for};
ghost use Rattle.kp_symbolic.specs.Plain as plain;
ghost use Rattle.kp_symbolic.specs.States.{SymbolicState};
ghost use Rattle.kp_symbolic.specs.View.{atom_view, clauses_view, state_view};
ghost use Rattle.kp_unify.specs.Views.{signature_of};
ghost use Rattle.kp_implies.specs.Steps.{AnswersCarried, IsAnswered, IsHeavyLeft, IsLeft, IsSometimes};
ghost use Rattle.kp_implies.specs.Told.{IsUnanswered, IsWrittenFor};

use crate::answer::{Implication, ImpliesError};
use crate::shown::{Open, shown_deep, shown_open};
use crate::substitution::{alone_clauses, equalities, joined};
use kp_goals::Consequent;
use kp_kore::Sort;
use kp_overlap::terms::term_skeleton;
use kp_simplify::depth::deep_clause;
use kp_step::counted_variables::most_of_left;
use kp_symbolic::{Atom, Clause, State};
use kp_unify::Setting;
use std::alloc::{AllocError, Global};

/// The antecedent's own clauses that are left open.
pub fn own_shown(
    alloc: Global,
    setting: &Setting<'_>,
    state: &State,
    own: Open,
) -> Result<Implication, ImpliesError>
    ensures answered { let g = signature_of setting.now in let s = state_view state.now in
        IfOk result (λ r. (used : List Text) (k : model.Consequent) → IsLeft g s own → IsAnswered g used s k r) }
    ensures refused { IfErr result (IsUnanswered (signature_of setting.now)) }
{
    let Open { shown, over, .. } = own;
    shown_open(alloc, setting.language, &state.sort, &shown, over)
}

/// The antecedent's own clauses that aren't plain, where it has an instance.
pub fn rough_shown(
    alloc: Global,
    setting: &Setting<'_>,
    state: &State,
    rough: &[Clause],
) -> Result<Implication, ImpliesError>
    ensures answered { let g = signature_of setting.now in let s = state_view state.now in
        IfOk result (λ r. (used : List Text) (k : model.Consequent) → IsSometimes g s → clauses_view rough.now ≡ plain.rough_clauses g s → IsAnswered g used s k r) }
    ensures refused { IfErr result (IsUnanswered (signature_of setting.now)) }
{
    shown_open(alloc, setting.language, &state.sort, rough, None)
}

/// Whether no more whole-number variables are compared than stand in the state and in the consequent's term.
fn is_within(
    alloc: Global,
    setting: &Setting<'_>,
    state: &State,
    consequent: &Consequent<'_>,
    compared: usize,
) -> Result<bool, AllocError>
    ensures { let g = signature_of setting.now in let s = state_view state.now in let k = consequent_view consequent.now in IfOk result (λ b. IsTrue b → compared ≤ most_for g s (model.form_of_term g k ∷ [])) }
{
    let left = term_skeleton(alloc, setting.language.signature, &consequent.term)?;
    Ok(compared <= most_of_left(alloc, *setting, state, &left)?)
}

/// The clauses of a part, by themselves or with a goal's opposite, that are over a weight. Want of memory is told of a part that isn't
/// plain, and where more is compared than may be: no such is known.
pub fn heavy_shown(
    alloc: Global,
    setting: &Setting<'_>,
    state: &State,
    consequent: &Consequent<'_>,
    heavy: Open,
) -> Result<Implication, ImpliesError>
    ensures answered { let g = signature_of setting.now in let s = state_view state.now in let k = consequent_view consequent.now in
        IfOk result (λ r. (used : List Text) (q : SymbolicState) → IsLeft g q heavy → IsHeavyLeft g s k q → IsAnswered g used s k r) }
    ensures weighed { IfOk result (λ _. ¬ (heavy.over ≡ None)) }
    ensures refused { IfErr result (IsUnanswered (signature_of setting.now)) }
{
    let Open {
        shown,
        over,
        compared,
    } = heavy;
    if over.is_none() {
        return Err(ImpliesError::Memory);
    }
    if !is_within(alloc, setting, state, consequent, compared)? {
        return Err(ImpliesError::Memory);
    }
    shown_open(alloc, setting.language, &state.sort, &shown, over)
}

/// The levels of the first side of these equalities that has more than a term may have.
fn deep_among(alloc: Global, setting: &Setting<'_>, all: &[Atom]) -> Result<Option<u64>, AllocError>
    ensures { IfOk result (λ o. o ≡ first_deep (signature_of setting.now) (flat_map atom_sides (map atom_view all.now))) }
{
    let clauses = alone_clauses(alloc, all)?;
    deep_clause(alloc, setting.language, &clauses)
}

/// The answer that it is valid, where these are the equalities of its substitution.
fn written(
    alloc: Global,
    setting: &Setting<'_>,
    sort: &Sort,
    all: &[Atom],
) -> Result<Implication, ImpliesError>
    ensures written { let g = signature_of setting.now in IfOk result (IsWrittenFor g (sort_view sort.now) (map atom_view all.now)) }
    ensures refused { IfErr result (IsUnanswered (signature_of setting.now)) }
{
    let substitution = joined(alloc, setting.language, sort, all)?;
    Ok(Implication::Valid { substitution })
}

/// The answer that it is valid, with its substitution.
pub fn valid(
    alloc: Global,
    setting: &Setting<'_>,
    state: &State,
    consequent: &Consequent<'_>,
) -> Result<Implication, ImpliesError>
    ensures answered { let g = signature_of setting.now in let s = state_view state.now in let k = consequent_view consequent.now in
        IfOk result (λ r. (used : List Text) → AnswersCarried g used s k r) }
    ensures refused { IfErr result (IsUnanswered (signature_of setting.now)) }
{
    let all = equalities(alloc, setting.language, consequent, state)?;
    let deep = deep_among(alloc, setting, &all)?;
    match deep {
        Some(levels) => Ok(shown_deep(levels)),
        None => written(alloc, setting, &state.sort, &all),
    }
}
