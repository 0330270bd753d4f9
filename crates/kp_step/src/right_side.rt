// What follows from a part where a rule has its turn.
ghost use Rattle.std.specs.Prelude.{◌≡◌, ◌↔◌, ◌∷◌, [], IfOk, IsTrue, map};
ghost use Rattle.std.specs.List.{AllByRecursion};
ghost use Rattle.kp_kore.specs.View.{view, sort_view, sorted_variable_view};
ghost use Rattle.kp_heads.specs.Heads.{HasValue};
ghost use Rattle.kp_symbolic.specs.View.{replaced_view, variables_view, state_view};
ghost use Rattle.kp_solving.specs.Further as further;
ghost use Rattle.kp_unify.specs.Views.{signature_of, part_view, HasItsTable};
ghost use Rattle.kp_step.specs.RightSides.{written_at, moved_state};
ghost use Rattle.kp_step.specs.Promises.{following_state, FollowsFrom, FollowsWhereValued, NextFollowsFrom};

use crate::lent;
use crate::new_variables::{Chosen, all_bindings, choose};
use crate::outcome::Next;
use kp_clauses::clauses_of_all;
use kp_compile::CompileError;
use kp_formulas::distributed::make_never;
use kp_kore::{Pattern, Sort, SortedVariable};
use kp_rules::{ReadSides, Rewrite};
use kp_solving::{constrain, settle};
use kp_symbolic::state::share_variables;
use kp_symbolic::{Clause, Replaced, State, Variable, term_under};
use kp_unify::Setting;
use kp_unify::part::Part;
use std::alloc::{AllocError, Global};
use std::sync::Arc;

/// Whether each of the sorts has a value.
fn have_values(setting: Setting<'_>, own: &[SortedVariable]) -> bool
    requires { HasItsTable setting }
    ensures { IsTrue result ↔ AllByRecursion (λ x. HasValue (signature_of setting.entry) x.sort) (map sorted_variable_view own.now) }
{
    let signature = setting.language.signature;
    for one in own {
        if !setting.table.has_value(signature, &one.sort) {
            return false;
        }
    }
    true
}

/// A state that has no instance: a new variable has no value.
fn nothing_follows(alloc: Global, part: &Part) -> Result<State, AllocError>
    ensures { IfOk result (λ s. state_view s ≡ further.constrained (part_view part.now).state ([] ∷ [])) }
{
    let never = make_never(alloc)?;
    constrain(alloc, &part.state, &never.clauses)
}

/// The sort that a right term is written at: the state's, where its own is it or below it.
fn written_sort(
    alloc: Global,
    setting: Setting<'_>,
    own: &Sort,
    state: &Arc<Sort>,
) -> Result<Arc<Sort>, AllocError>
    ensures { IfOk result (λ s. sort_view s.value ≡ written_at (signature_of setting.entry) (sort_view own.now) (sort_view state.now.value)) }
{
    if own.equal(state) || setting.language.signature.subsort(own, state) {
        return state.clone();
    }
    Ok(Arc::new(alloc, own.copy(alloc)?)?)
}

/// The right term, where the part's clauses are true, with the new variables behind those at hand.
fn moved(
    alloc: Global,
    setting: Setting<'_>,
    part: &Part,
    right: &Pattern,
    sort: Arc<Sort>,
    bindings: &[Replaced],
    new: &[Arc<Variable>],
) -> Result<State, CompileError>
    ensures { let g = signature_of setting.entry in let bindings' = map replaced_view bindings.now in
        IfOk result (λ s. state_view s ≡ moved_state g (part_view part.now) bindings' (variables_view new.now) (sort_view sort.value) (view right.now)) }
{
    let term = term_under(right, alloc, setting.language, bindings)?;
    let mut variables = share_variables(alloc, &part.state.variables)?;
    let mut more = share_variables(alloc, new)?;
    variables.append(&mut more)?;
    Ok(State {
        term,
        sort,
        clauses: Clause::share_all(alloc, &part.state.clauses)?,
        variables,
    })
}

/// The state that follows from the part, before its equations are solved.
fn make_following(
    alloc: Global,
    setting: Setting<'_>,
    part: &Part,
    sides: &ReadSides,
    sort: Arc<Sort>,
    bindings: &[Replaced],
    new: &[Arc<Variable>],
) -> Result<State, CompileError>
    ensures { let g = signature_of setting.entry in let bindings' = map replaced_view bindings.now in
        IfOk result (λ s. state_view s ≡ following_state g (part_view part.now) sides.now bindings' (variables_view new.now) (sort_view sort.value)) }
{
    let state = moved(alloc, setting, part, &sides.right, sort, bindings, new)?;
    let ensured = lent(alloc, &sides.ensured)?;
    let clauses = clauses_of_all(alloc, setting.language, bindings, &ensured)?;
    Ok(constrain(alloc, &state, &clauses)?)
}

/// A state that follows, and the number of the next name.
#[derive(Drop)]
pub struct Following {
    pub state: State,
    pub next: u64,
}

/// The state that follows from a part by the rule's right side, its equations solved.
fn follow(
    alloc: Global,
    setting: Setting<'_>,
    part: &Part,
    rewrite: &Rewrite,
    bindings: &[Replaced],
) -> Result<Following, CompileError>
    requires { HasItsTable setting }
    ensures { FollowsWhereValued setting.entry part.now rewrite.now bindings.now result }
{
    let sides = &rewrite.sides;
    let own = sides.new_variables.as_slice();
    let Chosen {
        bindings: fresh,
        made,
        next,
    } = choose(alloc, setting, own, part.next)?;
    let all = all_bindings(alloc, own, bindings, fresh)?;
    let sort = written_sort(alloc, setting, &rewrite.right_sort, &part.state.sort)?;
    let state = make_following(alloc, setting, part, sides, sort, &all, &made)?;
    Ok(Following {
        state: settle(alloc, setting.language, state)?,
        next,
    })
}

/// The state that follows from a part where the rule has its turn, its equations solved; `\bottom` where a new variable of the
/// rule has no value.
pub fn following_of(
    alloc: Global,
    setting: Setting<'_>,
    part: &Part,
    rewrite: &Rewrite,
    bindings: &[Replaced],
) -> Result<Following, CompileError>
    requires { HasItsTable setting }
    ensures { FollowsFrom setting.entry part.now rewrite.now bindings.now result }
{
    if have_values(setting, &rewrite.sides.new_variables) {
        return follow(alloc, setting, part, rewrite, bindings);
    }
    Ok(Following {
        state: nothing_follows(alloc, part)?,
        next: part.next,
    })
}

/// The same with its part and the place of its rule.
pub fn next_of(
    alloc: Global,
    setting: Setting<'_>,
    place: usize,
    part: &Part,
    rewrite: &Rewrite,
    bindings: &[Replaced],
) -> Result<Next, CompileError>
    requires { HasItsTable setting }
    ensures place { IfOk result (λ n. n.rule ≡ place) }
    ensures part { IfOk result (λ n. part_view n.part ≡ part_view part.now) }
    ensures follows { NextFollowsFrom setting.entry part.now rewrite.now bindings.now result }
{
    let Following { state, next } = following_of(alloc, setting, part, rewrite, bindings)?;
    Ok(Next {
        rule: place,
        part: part.share(alloc)?,
        state,
        next,
    })
}
