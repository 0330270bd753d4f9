// The run of a ground state, from one value to the next.
ghost use Rattle.std.specs.Prelude.{◌≡◌, IfOk, IfSome, false, option_map};
ghost use Rattle.kp_kore.specs.Syntax.{KorePattern};
ghost use Rattle.kp_kore.specs.Theory.{Theory};
ghost use Rattle.kp_kore.specs.View.{view, sort_view};
ghost use Rattle.kp_replies.specs.Written.{executed_tree};
ghost use Rattle.kp_rpc.specs.Reply.{reply_bytes, result_reply};
ghost use Rattle.kp_rpc.specs.Request.{ExecuteOptions as RequestOptions};
ghost use Rattle.kp_rpc.specs.View.{id_view, options_view};
ghost use Rattle.kp_rule_sets.specs.RuleSets.{RunsAs};
ghost use Rattle.kp_methods.specs.Ends.{result_of as end_result};
ghost use Rattle.kp_methods.specs.ServedTheory.{IsElsewhere, ServedTheory};
ghost use Rattle.kp_signature.specs.Verify.{VerifiesAs};
ghost use Rattle.kp_methods.specs.Executed.{IsGroundLine};
ghost use Rattle.kp_methods.specs.ExecutedByValues.{IsEndOf, IsStateOf, ListsNone};

use crate::result_of;
use kp_compile::{GroundState, SpellingError, StateError, spelled, state_of};
use kp_kore::{Pattern, Sort};
use kp_replies::executed_text;
use kp_rpc::{ExecuteOptions, Id, bound_of};
use kp_rule_sets::RuleSet;
use kp_run::{GroundRun, RunError, execute};
use std::alloc::{AllocError, Global};

/// Whether there are rules to stop at.
fn lists_rules(options: &ExecuteOptions) -> bool
    ensures { result ≡ false → ListsNone (options_view options.now) }
{
    if !options.cut_points.is_empty() {
        return true;
    }
    !options.terminals.is_empty()
}

/// The end of the run from a ground state, where going from value to value tells it.
fn end_from(
    alloc: Global,
    rules: &RuleSet,
    state: GroundState,
    options: &ExecuteOptions,
) -> Result<Option<GroundRun>, AllocError>
    ensures { let options' = options_view options.now in
        (t : Theory) (p : KorePattern) → RunsAs t rules.now → IsStateOf t.signature p state → ListsNone options' →
        IfOk result (λ found. IfSome found (IsEndOf t options' p)) }
{
    match execute(alloc, rules, state, bound_of(options)) {
        Ok(end) => Ok(Some(end)),
        Err(RunError::NotAnswered) => Ok(None),
        Err(RunError::Memory) => Err(AllocError),
    }
}

/// The end of the run from a pattern of this sort, where that is a ground state and going from value to value tells it.
fn end_of(
    alloc: Global,
    rules: &RuleSet,
    pattern: &Pattern,
    sort: Sort,
    options: &ExecuteOptions,
) -> Result<Option<GroundRun>, AllocError>
    ensures { let pattern' = view pattern.now in
        (t : Theory) → RunsAs t rules.now → VerifiesAs t.signature pattern' (sort_view sort) →
        IfOk result (λ found. IfSome found (IsEndOf t (options_view options.now) pattern')) }
{
    if lists_rules(options) {
        return Ok(None);
    }
    match state_of(alloc, &rules.signature, pattern, sort) {
        Ok(state) => end_from(alloc, rules, state, options),
        Err(StateError::Memory) => Err(AllocError),
        Err(StateError::ForeignSymbol { name: _ }) => Ok(None),
        Err(StateError::OtherShape) => Ok(None),
    }
}

/// The line of the end of a run that is spelled so; none where Kore JSON has no tag for a pattern in it.
fn written_line(
    alloc: Global,
    id: &Id,
    end: &GroundRun,
    term: Pattern,
) -> Result<Option<Vec<u8>>, AllocError>
    ensures { let tree = executed_tree (end_result end.now (view term)) in IfOk result (λ line. option_map (λ b. b.items) line ≡ option_map (λ t. reply_bytes (result_reply (id_view id.now) t)) tree) }
{
    let written = result_of(alloc, end, term)?;
    executed_text(alloc, id, &written)
}

/// The line of the end of a run; none where the signature can't spell it.
fn end_line(
    alloc: Global,
    rules: &RuleSet,
    id: &Id,
    end: &GroundRun,
) -> Result<Option<Vec<u8>>, AllocError>
    ensures { (s : ServedTheory) (options : RequestOptions) (p : KorePattern) → let t = s.theory in RunsAs t rules.now → ¬ IsElsewhere s.main options.module_name → IsEndOf t options p end.now →
        IfOk result (λ found. IfSome found (IsGroundLine s (id_view id.now) options p)) }
{
    match spelled(alloc, &rules.signature, &end.state.value, &end.state.sort) {
        Ok(term) => written_line(alloc, id, end, term),
        Err(SpellingError::NoInjection) => Ok(None),
        Err(SpellingError::Memory) => Err(AllocError),
    }
}

/// The reply to a request of execute for a pattern of this sort, where that is a ground state and going from value to value tells
/// its run.
pub fn ground_line(
    alloc: Global,
    rules: &RuleSet,
    id: &Id,
    pattern: &Pattern,
    sort: Sort,
    options: &ExecuteOptions,
) -> Result<Option<Vec<u8>>, AllocError>
    ensures { let options' = options_view options.now in let pattern' = view pattern.now in
        (s : ServedTheory) → RunsAs s.theory rules.now → ¬ IsElsewhere s.main options'.module_name → VerifiesAs s.theory.signature pattern' (sort_view sort) →
        IfOk result (λ found. IfSome found (IsGroundLine s (id_view id.now) options' pattern')) }
{
    match end_of(alloc, rules, pattern, sort, options)? {
        Some(end) => end_line(alloc, rules, id, &end),
        None => Ok(None),
    }
}
