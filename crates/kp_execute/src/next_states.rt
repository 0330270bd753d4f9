// The next states of a reply, and the parts where no rule fires.
ghost use Rattle.std.specs.Prelude.{◌≡◌, ◌++◌, ◌∷◌, [], IfErr, IfOk, OnOk, string_bytes};
ghost use Rattle.std.specs.List.{AllZip};
ghost use Rattle.kp_results.specs.View.{next_view, nexts_view};
ghost use Rattle.kp_rule_sets.specs.RuleSets.{RunsAs};
ghost use Rattle.kp_kore.specs.Theory.{Theory};
ghost use Rattle.kp_kore.specs.Steps.{AnyByRecursion};
ghost use Rattle.kp_outward.specs.Errors.{IsNoInjection};
ghost use Rattle.kp_symbolic.specs.Languages.{language_view};
ghost use Rattle.kp_execute.specs.Wants.{CasesWant, NextWants, RemainderWants};
ghost use Rattle.kp_execute.specs.Written.{AreCasesWritten, IsIdAt, IsNextWritten, IsRemainderWritten};

use crate::written::{added_predicate, state_parts};
use kp_outward::WritingError;
use kp_results::NextState;
use kp_rule_sets::RuleSet;
use kp_step::Next;
use kp_symbolic::Language;
use kp_unify::Part;
use std::alloc::{AllocError, Global};

/// The id of the rule at this place. Want of memory where there is none.
pub fn id_at(alloc: Global, rules: &RuleSet, place: usize) -> Result<String, WritingError>
    ensures found { (t : Theory) → RunsAs t rules.now → IfOk result (λ id. IsIdAt t place (string_bytes id)) }
    ensures refused { IfErr result (λ e. ¬ IsNoInjection e) }
{
    match rules.rule_at(place) {
        Some(rule) => Ok(String::from_str(alloc, rule.id.as_str())?),
        None => Err(WritingError::Memory),
    }
}

/// What is written for a next state.
pub fn next_parts(
    alloc: Global,
    language: &Language,
    rules: &RuleSet,
    next: &Next,
) -> Result<NextState, WritingError>
    ensures written { (t : Theory) → RunsAs t rules.now → language_view language.now ≡ t.signature → IfOk result (λ x. IsNextWritten t next.now (next_view x)) }
    ensures wants { IfErr result (λ e. IsNoInjection e → NextWants (language_view language.now) next.now) }
{
    let rule = id_at(alloc, rules, next.rule)?;
    let predicate = added_predicate(alloc, language, &next.part.state.sort, &next.part.added)?;
    match state_parts(alloc, language, &next.state) {
        Ok(state) => Ok(NextState {
            rule: Some(rule),
            predicate,
            state,
        }),
        Err(error) => Err(error),
    }
}

/// What is written for a part where no rule fires.
fn remainder_parts(
    alloc: Global,
    language: &Language,
    part: &Part,
) -> Result<NextState, WritingError>
    ensures written { (t : Theory) → language_view language.now ≡ t.signature → IfOk result (λ x. IsRemainderWritten t part.now (next_view x)) }
    ensures wants { IfErr result (λ e. IsNoInjection e → RemainderWants (language_view language.now) part.now) }
{
    let predicate = added_predicate(alloc, language, &part.state.sort, &part.added)?;
    match state_parts(alloc, language, &part.state) {
        Ok(state) => Ok(NextState {
            rule: None,
            predicate,
            state,
        }),
        Err(error) => Err(error),
    }
}

/// Adds a next state behind the others.
pub fn add(found: &mut Vec<NextState>, next: NextState) -> Result<(), AllocError>
    ensures { OnOk result (found.new.items ≡ found.old.items ++ next ∷ []) }
{
    Ok(found.push(next)?)
}

/// What is written for the next states.
fn all_next_parts(
    alloc: Global,
    language: &Language,
    rules: &RuleSet,
    nexts: &[Next],
) -> Result<Vec<NextState>, WritingError>
    ensures written { (t : Theory) → RunsAs t rules.now → language_view language.now ≡ t.signature → IfOk result (λ xs. AllZip (IsNextWritten t) nexts.now (nexts_view xs.items)) }
    ensures wants { IfErr result (λ e. IsNoInjection e → AnyByRecursion (NextWants (language_view language.now)) nexts.now) }
{
    let mut found = Vec::new(alloc);
    for next in nexts {
        add(&mut found, next_parts(alloc, language, rules, next)?)?;
    }
    Ok(found)
}

/// What is written for the parts where no rule fires.
fn remainders(
    alloc: Global,
    language: &Language,
    remainder: &[Part],
) -> Result<Vec<NextState>, WritingError>
    ensures written { (t : Theory) → language_view language.now ≡ t.signature → IfOk result (λ xs. AllZip (IsRemainderWritten t) remainder.now (nexts_view xs.items)) }
    ensures wants { IfErr result (λ e. IsNoInjection e → AnyByRecursion (RemainderWants (language_view language.now)) remainder.now) }
{
    let mut found = Vec::new(alloc);
    for part in remainder {
        add(&mut found, remainder_parts(alloc, language, part)?)?;
    }
    Ok(found)
}

/// What is written for the cases of a step: the next states, then the parts where no rule fires.
pub fn case_parts(
    alloc: Global,
    language: &Language,
    rules: &RuleSet,
    nexts: &[Next],
    remainder: &[Part],
) -> Result<Vec<NextState>, WritingError>
    ensures written { let g = language_view language.now in
        (t : Theory) → RunsAs t rules.now → g ≡ t.signature → IfOk result (λ xs. AreCasesWritten t nexts.now remainder.now (nexts_view xs.items)) }
    ensures wants { IfErr result (λ e. IsNoInjection e → CasesWant (language_view language.now) nexts.now remainder.now) }
{
    let mut found = all_next_parts(alloc, language, rules, nexts)?;
    let mut others = remainders(alloc, language, remainder)?;
    found.append(&mut others)?;
    Ok(found)
}
