// How many whole-number variables what is shown may compare, and whether it compares no more.
ghost use Rattle.std.specs.Prelude.{◌≡◌, ◌+◌, ◌≤◌, ◌↔◌, ◌∷◌, [], List, map, IfOk, IsTrue, if◌then◌else◌};
ghost use Rattle.std.specs.List.{list_any};
ghost use Rattle.std.specs.Option.{option_map};
ghost use Rattle.kp_kore.specs.Signature.{has_only_numbers};
ghost use Rattle.kp_signature.specs.Pairs.{subsort_view};
ghost use Rattle.kp_signature.specs.View.{signature_view};
ghost use Rattle.kp_symbolic.specs.Shown.{sum_over};
ghost use Rattle.kp_symbolic.specs.View.{state_view};
ghost use Rattle.kp_rules.specs.Skeletons.{Form, skeleton_view};
ghost use Rattle.kp_limits.specs.Compared.{compared_count, numeric_places};
ghost use Rattle.kp_unify.specs.Views.{signature_of};
ghost use Rattle.kp_step.specs.Counted as model;
ghost use Rattle.kp_step.specs.Counted.{IsCounted};
ghost use Rattle.kp_step.specs.Promises.{CountsTurn, CountsTurns, MostOfTurns, MostWithLeft, MostAsked, CountsWhereWeighed};

use crate::part_answers::UndecidedClauses;
use crate::rules::read_at;
use crate::turns::Turn;
use kp_limits::{compared, places_of, plus, whole_variables};
use kp_literals::value_kinds::has_only_numbers;
use kp_rule_sets::RuleSet;
use kp_rules::Skeleton;
use kp_signature::{Signature, Subsort};
use kp_symbolic::State;
use kp_unify::Setting;
use std::alloc::{AllocError, Global};

/// The count with the places in the left side of a turn's rule. One that isn't read has no turn: want of memory is told.
fn with_turn(
    setting: Setting<'_>,
    rules: &RuleSet,
    turn: &Turn,
    count: usize,
) -> Result<usize, AllocError>
    ensures { CountsTurn setting.entry rules.now turn.now count result }
{
    match read_at(rules, turn.place) {
        Some(rewrite) => plus(
            count,
            places_of(setting.language.signature, &rewrite.sides.left)?,
        ),
        None => Err(AllocError),
    }
}

/// The count with the places in the left sides of these turns' rules.
fn with_turns(
    setting: Setting<'_>,
    rules: &RuleSet,
    turns: &[Turn],
    begun: usize,
) -> Result<usize, AllocError>
    ensures { CountsTurns setting.entry rules.now turns.now begun result }
{
    let mut count = begun;
    for turn in turns {
        count = with_turn(setting, rules, turn, count)?;
    }
    Ok(count)
}

/// Whether the upper sort of one of these pairs has only numbers.
fn some_above(signature: &Signature, pairs: &[Subsort]) -> bool
    ensures { let has = has_only_numbers (signature_view signature.now) in result ≡ list_any (λ p. has p.1) (map subsort_view pairs.now) }
{
    for pair in pairs {
        if has_only_numbers(signature, &pair.upper) {
            return true;
        }
    }
    false
}

/// Whether some sort with sorts below it has only numbers.
fn has_numbers_above(signature: &Signature) -> bool
    ensures { result ≡ model.has_numbers_above (signature_view signature.now) }
{
    some_above(signature, signature.subsorts())
}

/// How many whole-number variables so many places may get: one each, or two where sorts with only numbers have sorts below them.
fn each_place(signature: &Signature, places: usize) -> Result<usize, AllocError>
    ensures { let each = if model.has_numbers_above (signature_view signature.now) then places + places else places in IfOk result (λ n. n ≡ each) }
{
    if has_numbers_above(signature) {
        return plus(places, places);
    }
    Ok(places)
}

/// The whole-number variables of the state, and those of so many places.
fn most_from(
    alloc: Global,
    setting: Setting<'_>,
    state: &State,
    places: usize,
) -> Result<usize, AllocError>
    ensures { let g = signature_of setting.entry in let s = state_view state.now in
        IfOk result (λ n. (lefts : List Form) → places ≡ sum_over (numeric_places g) lefts → n ≡ model.most_for g s lefts) }
{
    let begun = whole_variables(alloc, setting.language.signature, &state.variables)?;
    plus(begun, each_place(setting.language.signature, places)?)
}

/// The whole-number variables of the state, and those of the places in the left sides of these turns' rules.
fn most_left(
    alloc: Global,
    setting: Setting<'_>,
    rules: &RuleSet,
    turns: &[Turn],
    state: &State,
) -> Result<usize, AllocError>
    ensures { MostOfTurns setting.entry rules.now turns.now (state_view state.now) result }
{
    let places = with_turns(setting, rules, turns, 0)?;
    most_from(alloc, setting, state, places)
}

/// The same with the places in this left side.
fn most_with(
    alloc: Global,
    setting: Setting<'_>,
    rules: &RuleSet,
    turns: &[Turn],
    state: &State,
    left: &Skeleton,
) -> Result<usize, AllocError>
    ensures { MostWithLeft setting.entry rules.now turns.now (state_view state.now) (skeleton_view left.now) result }
{
    let own = places_of(setting.language.signature, left)?;
    let places = with_turns(setting, rules, turns, own)?;
    most_from(alloc, setting, state, places)
}

/// The same with the places in this left side, if there is one.
fn most_asked(
    alloc: Global,
    setting: Setting<'_>,
    rules: &RuleSet,
    turns: &[Turn],
    left: Option<&Skeleton>,
    state: &State,
) -> Result<usize, AllocError>
    ensures { MostAsked setting.entry rules.now turns.now (option_map (λ l. skeleton_view l.now) left.entry) (state_view state.now) result }
{
    match left {
        Some(left) => most_with(alloc, setting, rules, turns, state, left),
        None => most_left(alloc, setting, rules, turns, state),
    }
}

/// The whole-number variables of the state, and those of the places in this left side.
pub fn most_of_left(
    alloc: Global,
    setting: Setting<'_>,
    state: &State,
    left: &Skeleton,
) -> Result<usize, AllocError>
    ensures { let g = signature_of setting.entry in IfOk result (λ n. n ≡ model.most_for g (state_view state.now) (skeleton_view left.now ∷ [])) }
{
    let places = places_of(setting.language.signature, left)?;
    most_from(alloc, setting, state, places)
}

/// The whole-number variables of the state.
pub fn most_alone(alloc: Global, setting: Setting<'_>, state: &State) -> Result<usize, AllocError>
    ensures { IfOk result (λ n. n ≡ model.most_for (signature_of setting.entry) (state_view state.now) []) }
{
    most_from(alloc, setting, state, 0)
}

/// Whether the part compares no more whole-number variables than so many.
fn is_within(
    alloc: Global,
    setting: Setting<'_>,
    most: usize,
    part: &State,
) -> Result<bool, AllocError>
    ensures { IfOk result (λ b. IsTrue b ↔ (compared_count (signature_of setting.entry) (state_view part.now) ≤ most)) }
{
    Ok(compared(alloc, setting.language.signature, part)? <= most)
}

/// What is left open of the part, as it is told. With a weight, no part compares more whole-number variables than so many: want of memory
/// would be told of one.
pub fn told_within(
    alloc: Global,
    setting: Setting<'_>,
    most: usize,
    part: &State,
    told: UndecidedClauses,
) -> Result<UndecidedClauses, AllocError>
    ensures same { IfOk result (λ o. o ≡ told) }
    ensures counted { IfOk result (λ o. IsCounted (signature_of setting.entry) (state_view part.now) most o.over) }
{
    if told.over.is_none() {
        return Ok(told);
    }
    if is_within(alloc, setting, most, part)? {
        return Ok(told);
    }
    Err(AllocError)
}

/// The same of a part that these turns' rules leave to a rule of this left side, or to none. The variables are counted only where a weight
/// is told.
pub fn told_where_weighed(
    alloc: Global,
    setting: Setting<'_>,
    rules: &RuleSet,
    turns: &[Turn],
    left: Option<&Skeleton>,
    state: &State,
    part: &State,
    told: UndecidedClauses,
) -> Result<UndecidedClauses, AllocError>
    ensures same { IfOk result (λ o. o ≡ told) }
    ensures counted { CountsWhereWeighed setting.entry rules.now turns.now (option_map (λ l. skeleton_view l.now) left.entry) (state_view state.now) (state_view part.now) result }
{
    if told.over.is_none() {
        return Ok(told);
    }
    let most = most_asked(alloc, setting, rules, turns, left, state)?;
    told_within(alloc, setting, most, part, told)
}
