// What execute answers of a pattern.
ghost use Rattle.std.specs.Prelude.{◌≡◌, None, IfErr, IfOk, OnOk, map, string_bytes};
ghost use Rattle.kp_clauses.specs.Faults.{state_fault};
ghost use Rattle.kp_clauses.specs.View.{IsToldOf};
ghost use Rattle.kp_heads.specs.Made.{IsHeadTableOf};
ghost use Rattle.kp_kore.specs.Syntax.{KorePattern};
ghost use Rattle.kp_kore.specs.Signature.{KoreSignature};
ghost use Rattle.kp_kore.specs.Theory.{Theory};
ghost use Rattle.kp_kore.specs.Executions as model;
ghost use Rattle.kp_kore.specs.View.{view, sort_view};
ghost use Rattle.kp_names.specs.Met.{Lists};
ghost use Rattle.kp_outward.specs.Errors.{IsNoInjection};
ghost use Rattle.kp_kore.specs.Parts.{variable_names};
ghost use Rattle.kp_results.specs.View.{options_view};
ghost use Rattle.kp_rule_sets.specs.RuleSets.{RunsAs};
ghost use Rattle.kp_signature.specs.Verify.{VerifiesAs};
ghost use Rattle.kp_signature.specs.View.{signature_view};
ghost use Rattle.kp_symbolic.specs.Languages.{language_view};
ghost use Rattle.kp_symbolic.specs.View.{state_view};
ghost use Rattle.kp_unify.specs.Views.{signature_of};
ghost use Rattle.kp_execute.specs.Answers.{AnswersRight, IsUnexecuted};
ghost use Rattle.kp_execute.specs.Known.{Begins, IsRunOf};
ghost use Rattle.kp_execute.specs.Told.{IsReadRight};
ghost use Rattle.kp_execute.specs.Wants.{LacksInjection, RunWants, TellsNoInjection};

use crate::answer::{Answer, ExecuteError};
use crate::answered::answer_of;
use crate::ending::Run;
use crate::part_tests::have_own_ids;
use crate::runs::run;
use indexmap::IndexMap;
use kp_clauses::TermFault;
use kp_compile::{CompileError, has_injection};
use kp_heads::HeadTable;
use kp_kore::{Name, Pattern, Sort};
use kp_names::names::{Names, note};
use kp_outward::WritingError;
use kp_outward::incoming_names::add_variable_names;
use kp_results::Options;
use kp_rule_sets::RuleSet;
use kp_signature::Signature;
use kp_solving::inward;
use kp_symbolic::{Language, State};
use kp_unify::Setting;
use std::alloc::{AllocError, Global};

/// These names, each once.
fn noted(alloc: Global, found: &[Name]) -> Result<Names, AllocError>
    ensures { IfOk result (Lists (map string_bytes found.now)) }
{
    let mut names: Names = IndexMap::new(alloc);
    for name in found {
        note(&mut names, name)?;
    }
    Ok(names)
}

/// The names in a pattern.
fn names_of(alloc: Global, pattern: &Pattern) -> Result<Names, AllocError>
    ensures { IfOk result (Lists (variable_names (view pattern.now))) }
{
    let mut found: Vec<Name> = Vec::new(alloc);
    add_variable_names(alloc, &mut found, pattern)?;
    noted(alloc, &found)
}

/// Why the pattern isn't read. The literals of a verified pattern can be read.
fn unread(error: TermFault) -> ExecuteError
    ensures told { (g : KoreSignature) (p : KorePattern) → IsToldOf (state_fault g p) error → IsUnexecuted g p result }
    ensures wants { ¬ TellsNoInjection result }
{
    match error {
        TermFault::Memory | TermFault::Unread => ExecuteError::Memory,
        TermFault::ForeignSymbol { name } => ExecuteError::ForeignSymbol { name },
        TermFault::OtherShape => ExecuteError::OtherShape,
    }
}

/// Why an `inj` isn't written: where the signature has it, for want of memory.
fn without_injection(signature: &Signature) -> ExecuteError
    ensures { (p : KorePattern) → IsUnexecuted (signature_view signature.now) p result }
{
    if has_injection(signature) {
        return ExecuteError::Memory;
    }
    ExecuteError::NoInjection
}

/// Why a run isn't written. The numbers of a verified pattern can be read.
fn unwritten(signature: &Signature, error: WritingError) -> ExecuteError
    ensures told { (p : KorePattern) → IsUnexecuted (signature_view signature.now) p result }
    ensures wants { TellsNoInjection result → IsNoInjection error }
{
    match error {
        WritingError::Memory | WritingError::Shape => ExecuteError::Memory,
        WritingError::NoInjection => without_injection(signature),
    }
}

/// Why a run isn't made.
fn unstepped(error: CompileError) -> ExecuteError
    ensures told { (g : KoreSignature) (p : KorePattern) → IsUnexecuted g p result }
    ensures wants { ¬ TellsNoInjection result }
{
    match error {
        CompileError::Memory => ExecuteError::Memory,
        CompileError::Shape => ExecuteError::NoStep,
    }
}

/// The answer of a run.
fn answered(
    alloc: Global,
    language: &Language,
    rules: &RuleSet,
    run: &Run,
) -> Result<Answer, ExecuteError>
    ensures found { let g = language_view language.now in
        (t : Theory) (o : model.Options) (p : KorePattern) → RunsAs t rules.now → g ≡ t.signature → IsRunOf t o p run.now → IfOk result (AnswersRight t o p) }
    ensures refused { (p : KorePattern) → IfErr result (IsUnexecuted (language_view language.now) p) }
    ensures wants { IfErr result (λ e. TellsNoInjection e → RunWants (language_view language.now) run.now) }
{
    match answer_of(alloc, language, rules, run) {
        Ok(answer) => Ok(answer),
        Err(error) => Err(unwritten(language.signature, error)),
    }
}

/// The answer of the run from a state, where no two rules have one id: else want of memory is told.
fn by_run(
    alloc: Global,
    setting: Setting<'_>,
    rules: &RuleSet,
    state: State,
    options: &Options,
) -> Result<Answer, ExecuteError>
    requires { IsHeadTableOf (signature_of setting) setting.table.now }
    ensures found { let options' = options_view options.now in
        (t : Theory) (p : KorePattern) → Begins t p (state_view state) setting.entry rules.now → IfOk result (AnswersRight t options' p) }
    ensures refused { (p : KorePattern) → IfErr result (IsUnexecuted (signature_of setting.entry) p) }
    ensures wants { let options' = options_view options.now in
        (t : Theory) (p : KorePattern) → Begins t p (state_view state) setting.entry rules.now → IfErr result (λ e. TellsNoInjection e → LacksInjection t options' p) }
{
    if !have_own_ids(alloc, rules)? {
        return Err(ExecuteError::Memory);
    }
    match run(alloc, setting, rules, state, 1, options) {
        Ok(run) => answered(alloc, setting.language, rules, &run),
        Err(error) => Err(unstepped(error)),
    }
}

/// The answer of the run from a state that a pattern is read as.
fn executed(
    alloc: Global,
    language: &Language,
    table: &HeadTable,
    rules: &RuleSet,
    pattern: &Pattern,
    state: State,
    options: &Options,
) -> Result<Answer, ExecuteError>
    requires { IsHeadTableOf (language_view language.now) table.now }
    ensures found { (t : Theory) → let p = view pattern.now in RunsAs t rules.now → language_view language.now ≡ t.signature → IsReadRight t.signature p (state_view state) →
        IfOk result (AnswersRight t (options_view options.now) p) }
    ensures refused { (p : KorePattern) → IfErr result (IsUnexecuted (language_view language.now) p) }
    ensures wants { (t : Theory) → let p = view pattern.now in RunsAs t rules.now → language_view language.now ≡ t.signature → IsReadRight t.signature p (state_view state) →
        IfErr result (λ e. TellsNoInjection e → LacksInjection t (options_view options.now) p) }
{
    let met = names_of(alloc, pattern)?;
    let setting = Setting {
        language,
        table,
        met: &met,
    };
    by_run(alloc, setting, rules, state, options)
}

/// What execute answers of a verified pattern of this sort, over the table of its signature's heads.
/// Source: the K Haskell backend's JSON-RPC documentation (execute).
///
/// # Errors
/// T1 or T2 of the first thing from the left that can't stand in a state; `NoInjection` where an `inj` would stand in what is
/// written that the signature doesn't have; `NoStep` where a step is refused.
pub fn execute(
    alloc: Global,
    language: &Language,
    table: &HeadTable,
    rules: &RuleSet,
    pattern: &Pattern,
    sort: Sort,
    options: &Options,
) -> Result<Answer, ExecuteError>
    requires { IsHeadTableOf (language_view language.now) table.now }
    ensures found { (t : Theory) → let p = view pattern.now in RunsAs t rules.now → language_view language.now ≡ t.signature → VerifiesAs t.signature p (sort_view sort) →
        IfOk result (AnswersRight t (options_view options.now) p) }
    ensures clear { OnOk result (state_fault (language_view language.now) (view pattern.now) ≡ None) }
    ensures refused { IfErr result (IsUnexecuted (language_view language.now) (view pattern.now)) }
    ensures wants { (t : Theory) → let p = view pattern.now in RunsAs t rules.now → language_view language.now ≡ t.signature → VerifiesAs t.signature p (sort_view sort) →
        IfErr result (λ e. TellsNoInjection e → LacksInjection t (options_view options.now) p) }
{
    match inward(alloc, language, pattern, sort) {
        Ok(state) => executed(alloc, language, table, rules, pattern, state, options),
        Err(error) => Err(unread(error)),
    }
}
