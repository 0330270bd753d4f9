// Whether an antecedent implies a consequent.
ghost use Rattle.std.specs.Prelude.{◌≡◌, IfErr, IfOk};
ghost use Rattle.kp_case_laws.specs.Parts as parts;
ghost use Rattle.kp_goals.specs.View.{consequent_view, IsAskedOf};
ghost use Rattle.kp_kore.specs.View.{sort_view, view};
ghost use Rattle.kp_symbolic.specs.View.{clauses_view, state_view};
ghost use Rattle.kp_unify.specs.Views.{signature_of, HasItsTable};
ghost use Rattle.kp_implies.specs.Answers as answers;
ghost use Rattle.kp_implies.specs.Printed as printed;
ghost use Rattle.kp_implies.specs.Promises.{AnswersGoals, AnswersMeeting, AnswersOwn, AnswersPart, AnswersQuestion, AnswersSides, AnswersUnmet};
ghost use Rattle.kp_implies.specs.Told.{IsUnanswered};

use crate::answer::{Implication, ImpliesError};
use crate::answered::own_shown;
use crate::concluded::concluded;
use crate::goals::search_goals;
use crate::meeting::terms_meet;
use crate::parts::{Found, FoundAmong, found_of, search_parts};
use crate::shown::{Open, shown_wide};
use crate::sides::beside;
use crate::substitution::told_of;
use kp_goals::{Consequent, asked_in, consequent_of, left_of};
use kp_kore::{Pattern, Sort};
use kp_solving::inward;
use kp_symbolic::state::share_variables;
use kp_symbolic::{Clause, Language, State};
use kp_unify::part::whole;
use kp_unify::{Meeting, Part, Setting, meet};
use std::alloc::{AllocError, Global};

/// The answer where no instance of the state is one of the consequent: not valid, if the state has one.
fn apart(
    alloc: Global,
    setting: &Setting<'_>,
    state: &State,
    own: Option<Open>,
) -> Result<Implication, ImpliesError>
    ensures answered { AnswersUnmet (signature_of setting.now) (state_view state.now) own result }
    ensures refused { IfErr result (IsUnanswered (signature_of setting.now)) }
{
    match own {
        Some(open) => own_shown(alloc, setting, state, open),
        None => Ok(Implication::NotValid),
    }
}

/// The consequent's term and the goals, as a state with the bound variables at hand.
fn goal_state(
    alloc: Global,
    state: &State,
    consequent: &Consequent<'_>,
    goals: &[Clause],
) -> Result<State, AllocError>
    ensures { IfOk result (λ q. state_view q ≡ answers.goal_state (consequent_view consequent.now) (parts.whole (state_view state.now)) (clauses_view goals.now)) }
{
    let mut variables = share_variables(alloc, &state.variables)?;
    let mut bound = share_variables(alloc, &consequent.bound)?;
    variables.append(&mut bound)?;
    Ok(State {
        term: consequent.term.share(alloc)?,
        sort: state.sort.clone()?,
        clauses: Clause::share_all(alloc, goals)?,
        variables,
    })
}

/// The answer by these goals of the part that is met.
fn by_these(
    alloc: Global,
    setting: &Setting<'_>,
    state: &State,
    part: &State,
    consequent: &Consequent<'_>,
    own: Option<Open>,
    apart: Option<Open>,
    goals: &[Clause],
) -> Result<Implication, ImpliesError>
    requires { HasItsTable setting.now }
    ensures answered { AnswersGoals (signature_of setting.now) (state_view state.now) (consequent_view consequent.now) (state_view part.now) (clauses_view goals.now) own apart result }
    ensures refused { IfErr result (IsUnanswered (signature_of setting.now)) }
{
    match search_goals(alloc, setting, consequent, part, goals)? {
        FoundAmong::Instance => Ok(Implication::NotValid),
        FoundAmong::Rest { open } => match own {
            Some(own) => own_shown(alloc, setting, state, own),
            None => concluded(alloc, setting, state, part, consequent, apart, open),
        },
    }
}

/// What is asked of the part that is met.
fn goals_in(
    alloc: Global,
    setting: &Setting<'_>,
    state: &State,
    part: &State,
    consequent: &Consequent<'_>,
) -> Result<Vec<Clause>, ImpliesError>
    ensures asked { let g = signature_of setting.now in let s = state_view state.now in let k = consequent_view consequent.now in IfOk result (λ cs. IsAskedOf g k (printed.told_of g k s) (state_view part.now) (clauses_view cs.items)) }
    ensures refused { IfErr result (IsUnanswered (signature_of setting.now)) }
{
    let told = told_of(alloc, setting.language, consequent, state)?;
    Ok(asked_in(alloc, setting.language, consequent, &told, part)?)
}

/// The answer by the goals of the part that is met.
fn by_goals(
    alloc: Global,
    setting: &Setting<'_>,
    state: &State,
    part: &State,
    consequent: &Consequent<'_>,
    own: Option<Open>,
    apart: Option<Open>,
) -> Result<Implication, ImpliesError>
    requires { HasItsTable setting.now }
    ensures answered { AnswersPart (signature_of setting.now) (state_view state.now) (consequent_view consequent.now) (state_view part.now) own apart result }
    ensures refused { IfErr result (IsUnanswered (signature_of setting.now)) }
{
    let goals = goals_in(alloc, setting, state, part, consequent)?;
    let asked = goal_state(alloc, part, consequent, &goals)?;
    if let Some(wide) = shown_wide(alloc, setting.language, &asked)? {
        return Ok(wide);
    }
    by_these(alloc, setting, state, part, consequent, own, apart, &goals)
}

/// The answer by the part that the consequent's term meets, and those that it doesn't.
fn by_meeting(
    alloc: Global,
    setting: &Setting<'_>,
    state: &State,
    consequent: &Consequent<'_>,
    meeting: &Meeting,
    own: Option<Open>,
) -> Result<Implication, ImpliesError>
    requires { HasItsTable setting.now }
    ensures answered { AnswersMeeting (signature_of setting.now) (state_view state.now) (consequent_view consequent.now) meeting.now own result }
    ensures refused { IfErr result (IsUnanswered (signature_of setting.now)) }
{
    match search_parts(alloc, setting, &meeting.apart)? {
        FoundAmong::Instance => Ok(Implication::NotValid),
        FoundAmong::Rest { open } => by_goals(
            alloc,
            setting,
            state,
            &meeting.met.part.state,
            consequent,
            own,
            open,
        ),
    }
}

/// The answer by parts.
fn by_parts(
    alloc: Global,
    setting: &Setting<'_>,
    state: &State,
    consequent: &Consequent<'_>,
    own: Option<Open>,
) -> Result<Implication, ImpliesError>
    requires { HasItsTable setting.now }
    ensures answered { AnswersOwn setting.now (state_view state.now) (consequent_view consequent.now) own result }
    ensures refused { IfErr result (IsUnanswered (signature_of setting.now)) }
{
    if !terms_meet(alloc, setting, state, consequent)? {
        return apart(alloc, setting, state, own);
    }
    let left = left_of(alloc, setting.language.signature, &consequent.term)?;
    let part: Part = whole(alloc, state, 1)?;
    match meet(alloc, setting, &part, &left)? {
        Some(meeting) => by_meeting(alloc, setting, state, consequent, &meeting, own),
        None => apart(alloc, setting, state, own),
    }
}

/// The answer of a state that has an instance, or isn't decided.
fn by_number(
    alloc: Global,
    setting: &Setting<'_>,
    state: &State,
    consequent: &Consequent<'_>,
    own: Option<Open>,
) -> Result<Implication, ImpliesError>
    requires { HasItsTable setting.now }
    ensures answered { AnswersOwn setting.now (state_view state.now) (consequent_view consequent.now) own result }
    ensures refused { IfErr result (IsUnanswered (signature_of setting.now)) }
{
    match shown_wide(alloc, setting.language, state)? {
        Some(wide) => Ok(wide),
        None => by_parts(alloc, setting, state, consequent, own),
    }
}

/// The answer of a state with the consequent's free variables at hand.
fn compared(
    alloc: Global,
    setting: &Setting<'_>,
    state: &State,
    consequent: &Consequent<'_>,
) -> Result<Implication, ImpliesError>
    requires { HasItsTable setting.now }
    ensures answered { AnswersQuestion setting.now (state_view state.now) (consequent_view consequent.now) result }
    ensures refused { IfErr result (IsUnanswered (signature_of setting.now)) }
{
    match found_of(alloc, setting, state)? {
        Found::Nothing => Ok(Implication::Vacuous),
        Found::Instance => by_number(alloc, setting, state, consequent, None),
        Found::Undecided { open } => by_number(alloc, setting, state, consequent, Some(open)),
    }
}

/// Whether each instance of the antecedent is one of the consequent: two verified patterns without a fault as sides, over the
/// table of their signature's heads and the names of both.
/// Source: the K Haskell backend's JSON-RPC documentation (implies).
///
/// # Errors
/// `NoInjection` where an `inj` would stand in what is written that the signature doesn't have.
pub fn implies(
    alloc: Global,
    setting: &Setting<'_>,
    antecedent: &Pattern,
    consequent: &Pattern,
    sort: Sort,
) -> Result<Implication, ImpliesError>
    requires { HasItsTable setting.now }
    ensures answered { AnswersSides setting.now (view antecedent.now) (view consequent.now) (sort_view sort) result }
    ensures refused { IfErr result (IsUnanswered (signature_of setting.now)) }
{
    let language: &Language = setting.language;
    let read = inward(alloc, language, antecedent, sort)?;
    let state = beside(alloc, read, consequent)?;
    let consequent = consequent_of(alloc, language, consequent)?;
    compared(alloc, setting, &state, &consequent)
}
