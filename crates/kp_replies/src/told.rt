ghost use Rattle.std.specs.Prelude.{◌≡◌, ◌≢◌, ◌∷◌, ◌++◌, [], ℕ, List, Some, IfOk, IfSome, IfNone, option_map, option_and_then, codes};
ghost use Rattle.serde_json.specs.Find.{get};
ghost use Rattle.serde_json.specs.View.{view};
ghost use Rattle.kp_kore.specs.Causes.{foreign};
ghost use Rattle.kp_results.specs.Results.{cut_point, terminal, aborted};
ghost use Rattle.kp_results.specs.View.{reason_view, nexts_view, executed_view};
ghost use Rattle.kp_replies.specs.Read.{read_rule, one_alone, ending_named, read_ending, read_next_states, nexts_of as spec_nexts_of, read_executed, read_run, is_word, text_in, unfinished, read_unfinished, read_result, read_code, read_reply, ServerReply as SpecReply};
ghost use Rattle.kp_replies.specs.Replies.{IsFrameReply, IsReplyOf};
ghost use Rattle.kp_replies.specs.View.{method_view, reply_view};

use crate::implied::implied_of;
use crate::named::{module_at, rule_at, told_limit_at};
use crate::patterns::wrapped_at;
use crate::read_states::{nexts_at, state_at};
use kp_kore::Pattern;
use kp_results::{Cause, Executed, Implied, NextState, Reason, ReplyState};
use kp_rpc::{FrameError, frame_of, is_version_two, member_text};
use serde_json::Value;
use std::alloc::{AllocError, Global};

/// A method of the server.
/// Source: the K Haskell backend's JSON-RPC documentation.
#[derive(Clone, Copy, Drop)]
pub enum Method {
    Execute,
    Implies,
    Simplify,
    AddModule,
}

/// What a client is told by a reply.
#[derive(Drop)]
pub enum ServerReply {
    Executed(Executed),
    /// A run that is aborted by what isn't decided: how far it came, and the name of a limit where that alone is told.
    Unfinished {
        depth: u64,
        state: ReplyState,
        limit: Option<String>,
    },
    Implied(Implied),
    /// The simplified state.
    Simplified(Pattern),
    /// The added module's id.
    Added(String),
    /// An error's code.
    Failed {
        code: i64,
    },
}

// ---- execute

/// The reason of a run that is cut before a rule.
fn cut_at(alloc: Global, value: &Value) -> Result<Option<Reason>, AllocError>
    ensures { IfOk result (λ o. option_map reason_view o ≡ option_map cut_point (read_rule (get (codes "rule") (view value.now)))) }
{
    match rule_at(alloc, value, "rule")? {
        Some(rule) => Ok(Some(Reason::CutPoint { rule })),
        None => Ok(None),
    }
}

/// The reason of a run that ends behind a rule.
fn terminal_at(alloc: Global, value: &Value) -> Result<Option<Reason>, AllocError>
    ensures { IfOk result (λ o. option_map reason_view o ≡ option_map terminal (read_rule (get (codes "rule") (view value.now)))) }
{
    match rule_at(alloc, value, "rule")? {
        Some(rule) => Ok(Some(Reason::Terminal { rule })),
        None => Ok(None),
    }
}

/// The reason of a run that a foreign rule aborts.
fn aborted_at(alloc: Global, value: &Value) -> Result<Option<Reason>, AllocError>
    ensures { IfOk result (λ o. option_map reason_view o ≡ option_map (λ id. aborted (foreign id)) (read_rule (get (codes "foreign-rule") (view value.now)))) }
{
    match rule_at(alloc, value, "foreign-rule")? {
        Some(id) => Ok(Some(Reason::Aborted {
            cause: Cause::ForeignRule { id },
        })),
        None => Ok(None),
    }
}

/// The reason that a word names.
fn reason_named(alloc: Global, value: &Value, word: &str) -> Result<Option<Reason>, AllocError>
    ensures { IfOk result (λ o. option_map reason_view o ≡ ending_named (view value.now) word.now) }
{
    if word == "stuck" {
        return Ok(Some(Reason::Stuck));
    }
    if word == "depth-bound" {
        return Ok(Some(Reason::DepthBound));
    }
    if word == "vacuous" {
        return Ok(Some(Reason::Vacuous));
    }
    if word == "branching" {
        return Ok(Some(Reason::Branching));
    }
    if word == "cut-point-rule" {
        return cut_at(alloc, value);
    }
    if word == "terminal-rule" {
        return terminal_at(alloc, value);
    }
    if word == "aborted" {
        return aborted_at(alloc, value);
    }
    Ok(None)
}

/// The reason of a run.
fn reason_at(alloc: Global, value: &Value) -> Result<Option<Reason>, AllocError>
    ensures { IfOk result (λ o. option_map reason_view o ≡ read_ending (view value.now)) }
{
    match member_text(value, "reason") {
        Some(word) => reason_named(alloc, value, word),
        None => Ok(None),
    }
}

/// The one next state of a cut point.
fn one_next_at(alloc: Global, value: &Value) -> Result<Option<Vec<NextState>>, AllocError>
    ensures { IfOk result (λ o. option_map (λ ns. nexts_view ns.items) o ≡ option_and_then one_alone (read_next_states (view value.now))) }
{
    match nexts_at(alloc, value)? {
        Some(nexts) => if nexts.len() == 1 {
            Ok(Some(nexts))
        } else {
            Ok(None)
        },
        None => Ok(None),
    }
}

/// The next states that stand with a reason.
fn nexts_of(
    alloc: Global,
    value: &Value,
    reason: &Reason,
) -> Result<Option<Vec<NextState>>, AllocError>
    ensures { IfOk result (λ o. option_map (λ ns. nexts_view ns.items) o ≡ spec_nexts_of (view value.now) (reason_view reason.now)) }
{
    match reason {
        Reason::Vacuous => Ok(Some(Vec::new(alloc))),
        Reason::DepthBound => Ok(Some(Vec::new(alloc))),
        Reason::Stuck => Ok(Some(Vec::new(alloc))),
        Reason::Branching => nexts_at(alloc, value),
        Reason::CutPoint { rule: _ } => one_next_at(alloc, value),
        Reason::Terminal { rule: _ } => Ok(Some(Vec::new(alloc))),
        Reason::Aborted { cause: _ } => Ok(Some(Vec::new(alloc))),
    }
}

/// The result of execute.
fn executed_of(alloc: Global, value: &Value) -> Result<Option<Executed>, AllocError>
    ensures { IfOk result (λ o. option_map executed_view o ≡ read_executed (view value.now)) }
{
    let Some(depth) = value.get("depth").and_then(Value::as_u64) else {
        return Ok(None);
    };
    let Some(state) = state_at(alloc, value)? else {
        return Ok(None);
    };
    let Some(reason) = reason_at(alloc, value)? else {
        return Ok(None);
    };
    let Some(next_states) = nexts_of(alloc, value, &reason)? else {
        return Ok(None);
    };
    Ok(Some(Executed {
        depth,
        state,
        reason,
        next_states,
    }))
}

/// Whether a member's text is this word.
fn is_member_word(value: &Value, key: &str, word: &str) -> bool
    ensures { result ≡ is_word (text_in (get key.now (view value.now))) word.now }
{
    match member_text(value, key) {
        Some(text) => text == word,
        None => false,
    }
}

/// A run that is aborted by what isn't decided.
fn unfinished_of(alloc: Global, value: &Value) -> Result<Option<ServerReply>, AllocError>
    ensures { IfOk result (λ o. option_map reply_view o ≡ option_map unfinished (read_unfinished (view value.now))) }
{
    if !is_member_word(value, "reason", "aborted") {
        return Ok(None);
    }
    let Some(depth) = value.get("depth").and_then(Value::as_u64) else {
        return Ok(None);
    };
    let Some(state) = state_at(alloc, value)? else {
        return Ok(None);
    };
    let Some(limit) = told_limit_at(alloc, value)? else {
        return Ok(None);
    };
    Ok(Some(ServerReply::Unfinished {
        depth,
        state,
        limit,
    }))
}

/// What the result of execute tells.
fn run_told(alloc: Global, value: &Value) -> Result<Option<ServerReply>, AllocError>
    ensures { IfOk result (λ o. option_map reply_view o ≡ read_run (read_executed (view value.now)) (view value.now)) }
{
    match executed_of(alloc, value)? {
        Some(executed) => Ok(Some(ServerReply::Executed(executed))),
        None => unfinished_of(alloc, value),
    }
}

// ---- replies

/// The result of a method.
fn result_of(
    alloc: Global,
    method: Method,
    value: &Value,
) -> Result<Option<ServerReply>, AllocError>
    ensures { IfOk result (λ o. option_map reply_view o ≡ read_result (method_view method) (view value.now)) }
{
    match method {
        Method::Execute => run_told(alloc, value),
        Method::Implies => match implied_of(alloc, value)? {
            Some(implied) => Ok(Some(ServerReply::Implied(implied))),
            None => Ok(None),
        },
        Method::Simplify => match wrapped_at(alloc, value, "state")? {
            Some(state) => Ok(Some(ServerReply::Simplified(state))),
            None => Ok(None),
        },
        Method::AddModule => match module_at(alloc, value)? {
            Some(id) => Ok(Some(ServerReply::Added(id))),
            None => Ok(None),
        },
    }
}

/// The code of an error.
fn failure_of(error: &Value) -> Option<ServerReply>
    ensures { option_map reply_view result ≡ read_code (view error.now) }
{
    match error.get("code").and_then(Value::as_i64) {
        Some(code) => Some(ServerReply::Failed { code }),
        None => None,
    }
}

/// What the tree of a reply tells.
fn tree_reply(
    alloc: Global,
    method: Method,
    value: &Value,
) -> Result<Option<ServerReply>, AllocError>
    ensures { IfOk result (λ o. option_map reply_view o ≡ read_reply (method_view method) (view value.now)) }
{
    if !is_version_two(value) {
        return Ok(None);
    }
    match value.get("error") {
        Some(error) => match value.get("result") {
            Some(_) => Ok(None),
            None => Ok(failure_of(error)),
        },
        None => match value.get("result") {
            Some(outcome) => result_of(alloc, method, outcome),
            None => Ok(None),
        },
    }
}

/// What the text of a reply tells.
fn frame_reply(
    alloc: Global,
    method: Method,
    text: &[u8],
) -> Result<Option<ServerReply>, AllocError>
    ensures told { IfOk result (λ o. IfSome o (λ reply. IsFrameReply (method_view method) text.now (reply_view reply))) }
    ensures none { IfOk result (λ o. IfNone o ((reply : SpecReply) → ¬ IsFrameReply (method_view method) text.now reply)) }
{
    match frame_of(alloc, text) {
        Ok(value) => tree_reply(alloc, method, &value),
        Err(FrameError::NoFrame) => Ok(None),
        Err(FrameError::Memory) => Err(AllocError),
    }
}

/// The text of one line.
fn line_text(line: &[u8]) -> Option<&[u8]>
    ensures some { IfSome result (λ text. line.now ≡ text.now ++ 10 ∷ []) }
    ensures none { IfNone result ((text : List ℕ) → line.now ≢ text ++ 10 ∷ []) }
{
    match line {
        [text @ .., last] => if *last == b'\n' { Some(text) } else { None },
        [] => None,
    }
}

/// What a client is told by the line that a reply to this method is: a result, or an error's code. None exactly where
/// the bytes are no such reply; a rule's id is one or more characters from 33 to 126, a module's m and 64 digits. The
/// reply's own id isn't looked at.
/// Source: JSON-RPC 2.0; the K Haskell backend's JSON-RPC documentation (execute, implies, simplify, add-module).
///
/// # Errors
/// Where memory runs out.
pub fn reply_of(
    alloc: Global,
    method: Method,
    line: &[u8],
) -> Result<Option<ServerReply>, AllocError>
    ensures told { IfOk result (λ o. IfSome o (λ reply. IsReplyOf (method_view method) line.now (reply_view reply))) }
    ensures none { IfOk result (λ o. IfNone o ((reply : SpecReply) → ¬ IsReplyOf (method_view method) line.now reply)) }
{
    match line_text(line) {
        Some(text) => frame_reply(alloc, method, text),
        None => Ok(None),
    }
}
