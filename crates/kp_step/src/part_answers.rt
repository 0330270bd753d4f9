// Whether parts have instances, and what is shown where that isn't decided.
ghost use Rattle.std.specs.Prelude.{IfOk, IfSome};
ghost use Rattle.std.specs.Option.{option_map};
ghost use Rattle.kp_symbolic.specs.States.{SymbolicState};
ghost use Rattle.kp_symbolic.specs.View.{state_view};
ghost use Rattle.kp_symbolic_laws.specs.Safe.{IsSafe};
ghost use Rattle.kp_rules.specs.Skeletons.{skeleton_view};
ghost use Rattle.kp_satisfiability.specs.Read.{HasSortedClauses};
ghost use Rattle.kp_unify.specs.Views.{signature_of, HasItsTable};
ghost use Rattle.kp_step.specs.Views.{numbered_views};
ghost use Rattle.kp_step.specs.Answers.{IsRightUndecided, ShowsOf, IsRightAnswerOf, IsRightAnswerAlone};
ghost use Rattle.kp_step.specs.Solved.{IsKnownAs, AnswersBySolved, AnswersWhenSolved};
ghost use Rattle.kp_step.specs.Promises.{DecidesParts};

use crate::counted_variables::told_where_weighed;
use crate::turns::Turn;
use kp_compile::CompileError;
use kp_limits::Weighed;
use kp_literals::clauses::read_clauses;
use kp_literals::plain_clauses::rough_clauses;
use kp_rule_sets::RuleSet;
use kp_rules::Skeleton;
use kp_satisfiability::{Verdict, decide};
use kp_solving::settle;
use kp_symbolic::{Clause, State};
use kp_unify::{Part, Setting};
use std::alloc::{AllocError, Global};

/// Clauses that aren't decided, with the weight that is passed, if one is.
#[derive(Drop)]
pub struct UndecidedClauses {
    pub shown: Vec<Clause>,
    pub over: Option<Weighed>,
}

/// Whether a part has an instance.
#[derive(Drop)]
pub enum PartAnswer {
    Instance,
    Nothing,
    UndecidedClauses { told: UndecidedClauses },
}

/// Parts each of which has an instance, or what is left open of one.
#[derive(Drop)]
pub enum Decided {
    Parts { parts: Vec<Part> },
    UndecidedClauses { told: UndecidedClauses },
}

/// What is shown where clauses of a part of the state aren't decided: where a weight is passed, the state's own that have
/// literals which aren't decided, if there are any.
fn shown_of(
    alloc: Global,
    setting: Setting<'_>,
    state: &State,
    told: UndecidedClauses,
) -> Result<UndecidedClauses, AllocError>
    ensures { let g = signature_of setting.entry in IfOk result (λ o. (p : SymbolicState) → IsRightUndecided g p told → ShowsOf g (state_view state.now) p o) }
{
    if told.over.is_none() {
        return Ok(told);
    }
    let shown = rough_clauses(
        alloc,
        &read_clauses(alloc, setting.language.signature, state)?,
    )?;
    if shown.is_empty() {
        return Ok(told);
    }
    Ok(UndecidedClauses { shown, over: None })
}

/// Whether a part of the state has an instance.
pub fn answer_of(
    alloc: Global,
    setting: Setting<'_>,
    state: &State,
    part: &State,
) -> Result<PartAnswer, AllocError>
    requires { HasItsTable setting }
    ensures { let g = signature_of setting.entry in let p = state_view part.now in IfOk result (λ a. HasSortedClauses g p → IsRightAnswerOf g (state_view state.now) p a) }
{
    match decide(alloc, setting.language.signature, setting.table, part)? {
        Verdict::SomeValuation => Ok(PartAnswer::Instance),
        Verdict::NoValuation => Ok(PartAnswer::Nothing),
        Verdict::Undecided { shown, over } => {
            let told = shown_of(alloc, setting, state, UndecidedClauses { shown, over })?;
            Ok(PartAnswer::UndecidedClauses { told })
        }
    }
}

/// Whether a state has an instance. Where that isn't decided, what was decided is shown: its clauses that aren't plain, or all of them
/// with the weight that they pass.
pub fn answer_alone(
    alloc: Global,
    setting: Setting<'_>,
    state: &State,
) -> Result<PartAnswer, AllocError>
    requires { HasItsTable setting }
    ensures { let g = signature_of setting.entry in let s = state_view state.now in IfOk result (λ a. HasSortedClauses g s → IsRightAnswerAlone g s a) }
{
    match decide(alloc, setting.language.signature, setting.table, state)? {
        Verdict::SomeValuation => Ok(PartAnswer::Instance),
        Verdict::NoValuation => Ok(PartAnswer::Nothing),
        Verdict::Undecided { shown, over } => Ok(PartAnswer::UndecidedClauses {
            told: UndecidedClauses { shown, over },
        }),
    }
}

/// The part with its equations solved, where they can be.
fn solved_of(alloc: Global, setting: Setting<'_>, part: &State) -> Result<Option<State>, AllocError>
    ensures { let g = signature_of setting.entry in let p = state_view part.now in IfOk result (λ o. IfSome o (λ s. IsSafe g p → IsKnownAs g p (state_view s))) }
{
    match settle(alloc, setting.language, part.share(alloc)?) {
        Ok(solved) => Ok(Some(solved)),
        Err(CompileError::Memory) => Err(AllocError),
        Err(CompileError::Shape) => Ok(None),
    }
}

/// What is answered of a part that is left open, by the state that it is with its equations solved.
fn answer_by_solved(
    alloc: Global,
    setting: Setting<'_>,
    solved: &State,
    told: UndecidedClauses,
) -> Result<PartAnswer, AllocError>
    requires { HasItsTable setting }
    ensures { AnswersBySolved setting.entry solved.now told result }
{
    match decide(alloc, setting.language.signature, setting.table, solved)? {
        Verdict::SomeValuation => Ok(PartAnswer::Instance),
        Verdict::NoValuation => Ok(PartAnswer::Nothing),
        Verdict::Undecided { .. } => Ok(PartAnswer::UndecidedClauses { told }),
    }
}

/// What is answered of a part that is left open: what is decided with its equations solved.
fn answer_when_solved(
    alloc: Global,
    setting: Setting<'_>,
    part: &State,
    told: UndecidedClauses,
) -> Result<PartAnswer, AllocError>
    requires { HasItsTable setting }
    ensures { AnswersWhenSolved setting.entry part.now told result }
{
    match solved_of(alloc, setting, part)? {
        Some(solved) => answer_by_solved(alloc, setting, &solved, told),
        None => Ok(PartAnswer::UndecidedClauses { told }),
    }
}

/// Whether a part of the state has an instance, with its equations solved where it isn't decided before.
fn answer_of_part(
    alloc: Global,
    setting: Setting<'_>,
    state: &State,
    part: &State,
) -> Result<PartAnswer, AllocError>
    requires { HasItsTable setting }
    ensures { let g = signature_of setting.entry in let p = state_view part.now in IfOk result (λ a. IsSafe g p → IsRightAnswerOf g (state_view state.now) p a) }
{
    match answer_of(alloc, setting, state, part)? {
        PartAnswer::Instance => Ok(PartAnswer::Instance),
        PartAnswer::Nothing => Ok(PartAnswer::Nothing),
        PartAnswer::UndecidedClauses { told } => answer_when_solved(alloc, setting, part, told),
    }
}

/// Of these parts of a state, which the rules of these turns leave to a rule of this left side, or to none: those that have an instance;
/// what is left open of the first of which that isn't decided. With a weight, that compares no more whole-number variables than stand in
/// the state and in the rules' left sides.
pub fn decided_parts(
    alloc: Global,
    setting: Setting<'_>,
    rules: &RuleSet,
    turns: &[Turn],
    left: Option<&Skeleton>,
    state: &State,
    parts: Vec<Part>,
) -> Result<Decided, AllocError>
    requires { HasItsTable setting }
    ensures { DecidesParts setting.entry rules.now turns.now (option_map (λ l. skeleton_view l.now) left.entry) (state_view state.now) (numbered_views parts.items) result }
{
    let mut found = Vec::new(alloc);
    for part in parts {
        match answer_of_part(alloc, setting, state, &part.state)? {
            PartAnswer::Instance => found.push(part)?,
            PartAnswer::Nothing => {}
            PartAnswer::UndecidedClauses { told } => {
                let told = told_where_weighed(
                    alloc,
                    setting,
                    rules,
                    turns,
                    left,
                    state,
                    &part.state,
                    told,
                )?;
                return Ok(Decided::UndecidedClauses { told });
            }
        }
    }
    Ok(Decided::Parts { parts: found })
}
