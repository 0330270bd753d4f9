// The answer of a run.
ghost use Rattle.std.specs.Prelude.{◌≡◌, IfErr, IfOk, List, string_bytes};
ghost use Rattle.kp_kore.specs.Syntax.{Text, KorePattern};
ghost use Rattle.kp_kore.specs.Theory.{Theory};
ghost use Rattle.kp_kore.specs.Executions as model;
ghost use Rattle.kp_outward.specs.Errors.{IsNoInjection};
ghost use Rattle.kp_results.specs.View.{executed_view, undecided_view, state_view as parts_view};
ghost use Rattle.kp_rule_sets.specs.RuleSets.{RunsAs};
ghost use Rattle.kp_symbolic.specs.Languages.{language_view};
ghost use Rattle.kp_symbolic.specs.View.{state_view};
ghost use Rattle.kp_step.specs.RightSteps.{IsRightStep};
ghost use Rattle.kp_step.specs.declared.outcome.StepOutcome.TheVariants.{Foreign};
ghost use Rattle.kp_execute.specs.Answers.{AnswersRight, IsUndecidedBy, aborted_with, answer_view};
ghost use Rattle.kp_execute.specs.Known.{EndsUndecided, EndsWith, IsRunOf};
ghost use Rattle.kp_execute.specs.Wants.{EndWants, RunWants, StepWants};
ghost use Rattle.kp_execute.specs.Written.{IsStateWritten};

use crate::answer::Answer;
use crate::end_tests::{is_end_right, is_state_computed};
use crate::ending::{Ending, Run};
use crate::next_order::is_end_in_turn;
use crate::next_states::id_at;
use crate::result::{WrittenRun, run_parts};
use crate::undecided::{clauses_told, limit_told};
use kp_outward::WritingError;
use kp_results::{Cause, Executed, Reason, ReplyState, Undecided};
use kp_rule_sets::RuleSet;
use kp_step::StepOutcome;
use kp_symbolic::Language;
use std::alloc::Global;

/// The answer that names a foreign rule.
fn aborted(alloc: Global, depth: u64, state: ReplyState, id: String) -> Answer
    ensures { answer_view result ≡ aborted_with depth (parts_view state) (string_bytes id) }
{
    Answer::Executed {
        executed: Executed {
            depth,
            state,
            reason: Reason::Aborted {
                cause: Cause::ForeignRule { id },
            },
            next_states: Vec::new(alloc),
        },
    }
}

/// The answer that names the foreign rule of this place, where the last state is written so.
fn by_foreign(
    alloc: Global,
    rules: &RuleSet,
    run: &Run,
    state: ReplyState,
    place: usize,
) -> Result<Answer, WritingError>
    ensures answered { let state' = parts_view state in
        (t : Theory) (o : model.Options) (p : KorePattern) → RunsAs t rules.now → EndsUndecided t o p run.now state' (Foreign place) → IfOk result (AnswersRight t o p) }
    ensures refused { IfErr result (λ e. ¬ IsNoInjection e) }
{
    match id_at(alloc, rules, place) {
        Ok(id) => Ok(aborted(alloc, run.depth, state, id)),
        Err(error) => Err(error),
    }
}

/// What isn't decided of the last state. Want of memory where the step tells no such thing.
fn undecided_of(
    alloc: Global,
    language: &Language,
    run: &Run,
    why: &StepOutcome,
) -> Result<Undecided, WritingError>
    ensures told { (t : Theory) (used : List Text) → let s = state_view run.now.state in language_view language.now ≡ t.signature → IsRightStep t used s why.now → IfOk result (λ u. IsUndecidedBy t s (undecided_view u)) }
    ensures wants { IfErr result (λ e. IsNoInjection e → StepWants (language_view language.now) (state_view run.now.state).sort why.now) }
{
    match why {
        StepOutcome::Undecided { told, rule } => {
            clauses_told(alloc, language, &run.state, told, *rule)
        }
        StepOutcome::Limited { limit } => match limit_told(alloc, limit) {
            Ok(undecided) => Ok(undecided),
            Err(_error) => Err(WritingError::Memory),
        },
        StepOutcome::Empty | StepOutcome::Cases { .. } | StepOutcome::Foreign { .. } => {
            Err(WritingError::Memory)
        }
    }
}

/// The answer that tells what isn't decided of the last state, which is written so.
fn what_is_undecided(
    alloc: Global,
    language: &Language,
    run: &Run,
    state: ReplyState,
    why: &StepOutcome,
) -> Result<Answer, WritingError>
    ensures answered { let g = language_view language.now in let state' = parts_view state in
        (t : Theory) (o : model.Options) (p : KorePattern) → g ≡ t.signature → EndsUndecided t o p run.now state' why.now → IfOk result (AnswersRight t o p) }
    ensures wants { IfErr result (λ e. IsNoInjection e → StepWants (language_view language.now) (state_view run.now.state).sort why.now) }
{
    match undecided_of(alloc, language, run, why) {
        Ok(undecided) => Ok(Answer::UndecidedStep {
            depth: run.depth,
            state,
            undecided,
        }),
        Err(error) => Err(error),
    }
}

/// The answer where a step tells this of the last state, which is written so.
fn by_cause(
    alloc: Global,
    language: &Language,
    rules: &RuleSet,
    run: &Run,
    state: ReplyState,
    why: &StepOutcome,
) -> Result<Answer, WritingError>
    ensures answered { let g = language_view language.now in let state' = parts_view state in
        (t : Theory) (o : model.Options) (p : KorePattern) → RunsAs t rules.now → g ≡ t.signature → EndsUndecided t o p run.now state' why.now → IfOk result (AnswersRight t o p) }
    ensures wants { IfErr result (λ e. IsNoInjection e → StepWants (language_view language.now) (state_view run.now.state).sort why.now) }
{
    match why {
        StepOutcome::Foreign { rule } => by_foreign(alloc, rules, run, state, *rule),
        StepOutcome::Undecided { .. }
        | StepOutcome::Limited { .. }
        | StepOutcome::Empty
        | StepOutcome::Cases { .. } => what_is_undecided(alloc, language, run, state, why),
    }
}

/// The answer where what follows isn't known, if no open call stands in what is written for the last state: else want of memory is
/// told.
fn undecided_end(
    alloc: Global,
    language: &Language,
    rules: &RuleSet,
    run: &Run,
    state: ReplyState,
) -> Result<Answer, WritingError>
    ensures answered { let s = state_view run.now.state in
        (t : Theory) (o : model.Options) (p : KorePattern) → RunsAs t rules.now → language_view language.now ≡ t.signature → IsRunOf t o p run.now → IsStateWritten t.signature s (parts_view state) →
        IfOk result (AnswersRight t o p) }
    ensures wants { IfErr result (λ e. IsNoInjection e → EndWants (language_view language.now) (state_view run.now.state).sort run.now.ending) }
{
    if !is_state_computed(alloc, language.signature, &state) {
        return Err(WritingError::Memory);
    }
    match &run.ending {
        Ending::Aborted { why } => by_cause(alloc, language, rules, run, state, why),
        _ => Err(WritingError::Memory),
    }
}

/// The answer of a run that is written so, if no open call stands in what is written for its last state: else want of memory is
/// told.
fn ended(alloc: Global, language: &Language, executed: Executed) -> Result<Answer, WritingError>
    ensures answered { let g = language_view language.now in
        (t : Theory) (o : model.Options) (p : KorePattern) → g ≡ t.signature → EndsWith t o p (executed_view executed) → IfOk result (AnswersRight t o p) }
    ensures refused { IfErr result (λ e. ¬ IsNoInjection e) }
{
    if !is_state_computed(alloc, language.signature, &executed.state) {
        return Err(WritingError::Memory);
    }
    Ok(Answer::Executed { executed })
}

/// The answer of a run. Want of memory is told, too, where what was added to a part of its last state can't be written right, and
/// where its next states don't stand in their rules' turns.
///
/// # Errors
/// As of `run_parts`, and `NoInjection` where an `inj` would stand in what isn't decided that the signature doesn't have.
pub fn answer_of(
    alloc: Global,
    language: &Language,
    rules: &RuleSet,
    run: &Run,
) -> Result<Answer, WritingError>
    ensures answered { let g = language_view language.now in
        (t : Theory) (o : model.Options) (p : KorePattern) → RunsAs t rules.now → g ≡ t.signature → IsRunOf t o p run.now → IfOk result (AnswersRight t o p) }
    ensures wants { IfErr result (λ e. IsNoInjection e → RunWants (language_view language.now) run.now) }
{
    if !is_end_right(alloc, language, &run.ending) {
        return Err(WritingError::Memory);
    }
    if !is_end_in_turn(rules, &run.ending) {
        return Err(WritingError::Memory);
    }
    match run_parts(alloc, language, rules, run)? {
        WrittenRun::Result { executed } => ended(alloc, language, executed),
        WrittenRun::Undecided { state } => undecided_end(alloc, language, rules, run, state),
    }
}
