// The run of a symbolic state.
ghost use Rattle.std.specs.Prelude.{◌≡◌, IfOk, None};
ghost use Rattle.kp_clauses.specs.Faults.{state_fault};
ghost use Rattle.kp_heads.specs.Made.{IsHeadTableOf};
ghost use Rattle.kp_kore.specs.Syntax.{KorePattern};
ghost use Rattle.kp_kore.specs.View.{view, sort_view};
ghost use Rattle.kp_results.specs.View as results;
ghost use Rattle.kp_rpc.specs.Request.{ExecuteOptions as RequestOptions};
ghost use Rattle.kp_rpc.specs.View.{id_view, options_view};
ghost use Rattle.kp_replies.specs.RightReplies.{asked_options};
ghost use Rattle.kp_rule_sets.specs.RuleSets.{RunsAs};
ghost use Rattle.kp_methods.specs.ServedTheory.{ServedTheory};
ghost use Rattle.kp_signature.specs.Verify.{VerifiesAs};
ghost use Rattle.kp_symbolic.specs.Languages.{language_view};
ghost use Rattle.kp_methods.specs.Prepared.{IsPrepared, signature_in};
ghost use Rattle.kp_execute.specs.Answers.{IsRightAnswer, IsUnexecuted, answer_view};
ghost use Rattle.kp_execute.specs.Wants.{LacksInjection, TellsNoInjection};
ghost use Rattle.kp_methods.specs.Executed.{IsUnderstoodLine, reply_of};
ghost use Rattle.kp_methods.specs.ExecutedLines.{IsLineOf};

use crate::{Prepared, not_answered};
use kp_execute::{Answer, ExecuteError, execute};
use kp_heads::HeadTable;
use kp_kore::{Pattern, Sort};
use kp_replies::{aborted_text, executed_text};
use kp_results::Options;
use kp_rpc::{ExecuteOptions, Id, PatternFault, StateFault, bound_of, fault_text};
use kp_rule_sets::RuleSet;
use kp_symbolic::Language;
use std::alloc::{AllocError, Global};

/// What a run is asked for.
fn asked_of(options: ExecuteOptions) -> Options
    ensures { results.options_view result ≡ asked_options (options_view options) }
{
    Options {
        bound: bound_of(&options),
        cut_points: options.cut_points,
        terminals: options.terminals,
    }
}

/// The line of the reply that tells an answer, where there is one.
fn line_of(alloc: Global, id: &Id, answer: &Answer) -> Result<Option<Vec<u8>>, AllocError>
    ensures { IfOk result (λ line. IsLineOf line (reply_of (id_view id.now) (answer_view answer.now))) }
{
    match answer {
        Answer::Executed { executed } => executed_text(alloc, id, executed),
        Answer::UndecidedStep {
            depth,
            state,
            undecided,
        } => aborted_text(alloc, id, *depth, state, undecided),
    }
}

/// The line that tells an answer. No state that is read leads to a pattern for which Kore JSON has no tag; where one did, want of memory is
/// told.
fn answer_line(alloc: Global, id: &Id, answer: &Answer) -> Result<Vec<u8>, AllocError>
    ensures { (s : ServedTheory) (options : RequestOptions) (p : KorePattern) → let t = s.theory in state_fault t.signature p ≡ None → IsRightAnswer t (asked_options options) p (answer_view answer.now) →
        IfOk result (IsUnderstoodLine s (id_view id.now) options p) }
{
    match line_of(alloc, id, answer)? {
        Some(line) => Ok(line),
        None => Err(AllocError),
    }
}

/// The line that tells why a pattern isn't executed.
fn refused_line(alloc: Global, id: &Id, error: ExecuteError) -> Result<Vec<u8>, AllocError>
    ensures { (s : ServedTheory) (options : RequestOptions) (p : KorePattern) → let t = s.theory in IsUnexecuted t.signature p error → (TellsNoInjection error → LacksInjection t (asked_options options) p) →
        IfOk result (IsUnderstoodLine s (id_view id.now) options p) }
{
    match error {
        ExecuteError::Memory => Err(AllocError),
        ExecuteError::NoStep => Err(AllocError),
        ExecuteError::ForeignSymbol { name } => fault_text(
            alloc,
            id,
            &StateFault::Verify(PatternFault::ForeignSymbol { name }),
        ),
        ExecuteError::OtherShape => fault_text(alloc, id, &not_answered()),
        ExecuteError::NoInjection => fault_text(alloc, id, &not_answered()),
    }
}

/// The line of the reply to a verified pattern of this sort, over the language with its table of heads, where this is asked for.
fn asked_line(
    alloc: Global,
    language: &Language,
    table: &HeadTable,
    rules: &RuleSet,
    id: &Id,
    pattern: &Pattern,
    sort: Sort,
    asked: &Options,
) -> Result<Vec<u8>, AllocError>
    requires { IsHeadTableOf (language_view language.now) table.now }
    ensures { let pattern' = view pattern.now in
        (s : ServedTheory) (options : RequestOptions) → RunsAs s.theory rules.now → language_view language.now ≡ s.theory.signature → results.options_view asked.now ≡ asked_options options →
        VerifiesAs s.theory.signature pattern' (sort_view sort) → IfOk result (IsUnderstoodLine s (id_view id.now) options pattern') }
{
    match execute(alloc, language, table, rules, pattern, sort, asked) {
        Ok(answer) => answer_line(alloc, id, &answer),
        Err(error) => refused_line(alloc, id, error),
    }
}

/// The same with what the options of a request ask for.
fn line_over(
    alloc: Global,
    language: &Language,
    table: &HeadTable,
    rules: &RuleSet,
    id: &Id,
    pattern: &Pattern,
    sort: Sort,
    options: ExecuteOptions,
) -> Result<Vec<u8>, AllocError>
    requires { IsHeadTableOf (language_view language.now) table.now }
    ensures { let pattern' = view pattern.now in
        (s : ServedTheory) → RunsAs s.theory rules.now → language_view language.now ≡ s.theory.signature → VerifiesAs s.theory.signature pattern' (sort_view sort) →
        IfOk result (IsUnderstoodLine s (id_view id.now) (options_view options) pattern') }
{
    let asked = asked_of(options);
    asked_line(alloc, language, table, rules, id, pattern, sort, &asked)
}

/// The line of the reply to execute of a verified pattern of this sort, by symbolic steps.
pub fn symbolic_line(
    alloc: Global,
    prepared: &Prepared,
    rules: &RuleSet,
    id: &Id,
    pattern: &Pattern,
    sort: Sort,
    options: ExecuteOptions,
) -> Result<Vec<u8>, AllocError>
    requires { IsPrepared prepared.now }
    ensures { let pattern' = view pattern.now in
        (s : ServedTheory) → RunsAs s.theory rules.now → signature_in prepared.now ≡ s.theory.signature → VerifiesAs s.theory.signature pattern' (sort_view sort) →
        IfOk result (IsUnderstoodLine s (id_view id.now) (options_view options) pattern') }
{
    let language = prepared.language()?;
    line_over(
        alloc,
        &language,
        &prepared.heads,
        rules,
        id,
        pattern,
        sort,
        options,
    )
}
