// The result of execute that a run's end is written as.
ghost use Rattle.std.specs.Prelude.{◌≡◌, IfErr, IfOk, OnOk, [], true};
ghost use Rattle.std.specs.List.{list_all};
ghost use Rattle.kp_results.specs.Results as parts;
ghost use Rattle.kp_results.specs.View.{executed_view, nexts_view, reason_view, state_view as parts_view};
ghost use Rattle.kp_rule_sets.specs.RuleSets.{RunsAs};
ghost use Rattle.kp_kore.specs.Syntax.{KoreSort};
ghost use Rattle.kp_kore.specs.Theory.{Theory};
ghost use Rattle.kp_outward.specs.Errors.{IsNoInjection};
ghost use Rattle.kp_symbolic.specs.Languages.{language_view};
ghost use Rattle.kp_symbolic.specs.View.{state_view, variables_view};
ghost use Rattle.kp_execute.specs.Ended.{IsCutWritten, IsEndOf, IsEnded, IsStopWritten, result_with};
ghost use Rattle.kp_execute.specs.Lost.{mentions_none_lost, parts_variables};
ghost use Rattle.kp_execute.specs.Wants.{CasesWant, EndWants, NextWants, RunWants};
ghost use Rattle.kp_execute.specs.Written.{AreCasesWritten, IsShown};

use crate::lost_variables::{is_predicate_shown, none_lost};
use crate::next_states::{add, case_parts, id_at, next_parts};
use crate::written::state_parts;
use crate::{Ending, Run};
use kp_outward::WritingError;
use kp_results::{Executed, NextState, Reason, ReplyState};
use kp_rule_sets::RuleSet;
use kp_step::Next;
use kp_symbolic::{Language, State};
use kp_unify::Part;
use std::alloc::{AllocError, Global};

/// Why a run ended, with the next states.
#[derive(Drop)]
pub struct WrittenEnding {
    pub reason: Reason,
    pub nexts: Vec<NextState>,
}

/// What is written for a run: its result, or its last state where what follows isn't known.
#[derive(Drop)]
pub enum WrittenRun {
    Result { executed: Executed },
    Undecided { state: ReplyState },
}

/// A reason without next states.
fn without_nexts(alloc: Global, reason: Reason) -> WrittenEnding
    ensures reason { result.reason ≡ reason }
    ensures none { nexts_view result.nexts.items ≡ [] }
{
    WrittenEnding {
        reason,
        nexts: Vec::new(alloc),
    }
}

/// Two cases or more.
fn branching(
    alloc: Global,
    language: &Language,
    rules: &RuleSet,
    nexts: &[Next],
    remainder: &[Part],
) -> Result<WrittenEnding, WritingError>
    ensures written { let g = language_view language.now in
        (t : Theory) → RunsAs t rules.now → g ≡ t.signature →
        IfOk result (λ e. (reason_view e.reason ≡ parts.branching) × AreCasesWritten t nexts.now remainder.now (nexts_view e.nexts.items)) }
    ensures wants { IfErr result (λ e. IsNoInjection e → CasesWant (language_view language.now) nexts.now remainder.now) }
{
    let nexts = case_parts(alloc, language, rules, nexts, remainder)?;
    Ok(WrittenEnding {
        reason: Reason::Branching,
        nexts,
    })
}

/// The rule of the next state alone has its turn, and is one to stop before.
fn cut_point(
    alloc: Global,
    language: &Language,
    rules: &RuleSet,
    next: &Next,
) -> Result<WrittenEnding, WritingError>
    ensures written { let g = language_view language.now in
        (t : Theory) → RunsAs t rules.now → g ≡ t.signature → IfOk result (λ e. IsCutWritten t next.now (reason_view e.reason) (nexts_view e.nexts.items)) }
    ensures wants { IfErr result (λ e. IsNoInjection e → NextWants (language_view language.now) next.now) }
{
    let rule = id_at(alloc, rules, next.rule)?;
    let mut nexts = Vec::new(alloc);
    add(&mut nexts, next_parts(alloc, language, rules, next)?)?;
    Ok(WrittenEnding {
        reason: Reason::CutPoint { rule },
        nexts,
    })
}

/// The last step was by the rule of this place, which is one to stop behind.
fn terminal(alloc: Global, rules: &RuleSet, place: usize) -> Result<WrittenEnding, WritingError>
    ensures written { (t : Theory) → RunsAs t rules.now → IfOk result (λ e. IsStopWritten t place (reason_view e.reason) (nexts_view e.nexts.items)) }
    ensures refused { IfErr result (λ e. ¬ IsNoInjection e) }
{
    let rule = id_at(alloc, rules, place)?;
    Ok(without_nexts(alloc, Reason::Terminal { rule }))
}

/// The reason of an end, with its next states; none where what follows isn't known.
fn end_of(
    alloc: Global,
    language: &Language,
    rules: &RuleSet,
    ending: &Ending,
) -> Result<Option<WrittenEnding>, WritingError>
    ensures written { (t : Theory) → RunsAs t rules.now → language_view language.now ≡ t.signature → IfOk result (IsEndOf t ending.now) }
    ensures wants { IfErr result (λ e. IsNoInjection e → (sort : KoreSort) → EndWants (language_view language.now) sort ending.now) }
{
    match ending {
        Ending::Vacuous => Ok(Some(without_nexts(alloc, Reason::Vacuous))),
        Ending::DepthBound => Ok(Some(without_nexts(alloc, Reason::DepthBound))),
        Ending::Stuck {
            remainder: _remainder,
        } => Ok(Some(without_nexts(alloc, Reason::Stuck))),
        Ending::Branching { nexts, remainder } => Ok(Some(branching(
            alloc, language, rules, nexts, remainder,
        )?)),
        Ending::CutPoint { next } => Ok(Some(cut_point(alloc, language, rules, next)?)),
        Ending::Terminal { rule } => Ok(Some(terminal(alloc, rules, *rule)?)),
        Ending::Aborted { why: _why } => Ok(None),
    }
}

/// Tests what is written for the end of a run: its predicate has a member, and its next states mention no variable that the state's
/// pattern has lost. Want of memory where that fails.
fn test_told(
    alloc: Global,
    state: &State,
    written: &ReplyState,
    nexts: &[NextState],
) -> Result<(), AllocError>
    ensures shown { OnOk result (IsShown (parts_view written.now).predicate) }
    ensures none_lost { OnOk result (list_all (mentions_none_lost (variables_view state.now.variables.items) (parts_variables (parts_view written.now))) (nexts_view nexts.now) ≡ true) }
{
    if !is_predicate_shown(alloc, written)? {
        return Err(AllocError);
    }
    if !none_lost(alloc, &state.variables, written, nexts)? {
        return Err(AllocError);
    }
    Ok(())
}

/// The result, where what is written passes.
fn result_of(
    alloc: Global,
    state: &State,
    depth: u64,
    written: ReplyState,
    end: WrittenEnding,
) -> Result<Executed, WritingError>
    ensures same { IfOk result (λ x. executed_view x ≡ result_with depth (parts_view written) (reason_view end.reason) (nexts_view end.nexts.items)) }
    ensures none_lost { let hand = variables_view state.now.variables.items in let shown = parts_variables (parts_view written) in
        OnOk result (list_all (mentions_none_lost hand shown) (nexts_view end.nexts.items) ≡ true) }
    ensures shown { OnOk result (IsShown (parts_view written).predicate) }
    ensures refused { IfErr result (λ e. ¬ IsNoInjection e) }
{
    test_told(alloc, state, &written, &end.nexts)?;
    let WrittenEnding { reason, nexts } = end;
    Ok(Executed {
        depth,
        state: written,
        reason,
        next_states: nexts,
    })
}

/// What is written for a run: its result, or its last state where what follows isn't known.
///
/// # Errors
/// `NoInjection` where an `inj` would stand in what is written that the signature doesn't have; `Shape` where a number in a
/// predicate that isn't opened can't be read; want of memory also where a next state would mention a variable that the pattern of
/// the last state has lost.
pub fn run_parts(
    alloc: Global,
    language: &Language,
    rules: &RuleSet,
    run: &Run,
) -> Result<WrittenRun, WritingError>
    ensures written { (t : Theory) → RunsAs t rules.now → language_view language.now ≡ t.signature → IfOk result (IsEnded t run.now) }
    ensures wants { IfErr result (λ e. IsNoInjection e → RunWants (language_view language.now) run.now) }
{
    let written = state_parts(alloc, language, &run.state)?;
    match end_of(alloc, language, rules, &run.ending)? {
        Some(end) => {
            let executed = result_of(alloc, &run.state, run.depth, written, end)?;
            Ok(WrittenRun::Result { executed })
        }
        None => Ok(WrittenRun::Undecided { state: written }),
    }
}
