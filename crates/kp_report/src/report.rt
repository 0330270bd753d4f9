ghost use Rattle.std.specs.Prelude.{◌≡◌, ◌++◌, ℕ, List, map, IfOk, codes, string_bytes};
ghost use Rattle.std.specs.Fmt.{decimal, signed_decimal};
ghost use Rattle.kp_graph.specs.View.{why_view};
ghost use Rattle.kp_results.specs.View.{reason_view};
ghost use Rattle.kp_replies.specs.Read.{execute};
ghost use Rattle.kp_replies.specs.Replies.{IsReplyOf};
ghost use Rattle.kp_replies.specs.View.{reply_view};
ghost use Rattle.kp_report.specs.Report.{IsLine, IsReplyWhy, IsReport, IsWhy, run_why as run_why_text};
ghost use Rattle.kp_client.specs.Rounds.{failed_at, pending_at, refused_with};
ghost use Rattle.kp_client.specs.View.{outcome_view};
ghost use Rattle.kp_report.specs.View.{line_view};

use kp_client::ProofEnd;
use kp_graph::Why;
use kp_kore::Name;
use kp_replies::{Method, ServerReply, reply_of};
use kp_results::{Cause, Reason};
use std::alloc::{AllocError, Global};

/// A claim's label, and how its proof ended.
#[derive(Drop)]
pub struct Line {
    pub label: Name,
    pub result: ProofEnd,
}

/// Why a run is no further.
fn run_why(alloc: Global, reason: &Reason) -> Result<String, AllocError>
    ensures { IfOk result (λ t. string_bytes t ≡ run_why_text (reason_view reason.now)) }
{
    match reason {
        Reason::Aborted {
            cause: Cause::ForeignRule { id },
        } => format!(in alloc; "foreign {id}"),
        Reason::DepthBound => String::from_str(alloc, "bound"),
        Reason::Stuck => undecided(alloc),
        Reason::Vacuous => undecided(alloc),
        Reason::Branching => undecided(alloc),
        Reason::CutPoint { rule: _ } => undecided(alloc),
        Reason::Terminal { rule: _ } => undecided(alloc),
    }
}

/// The word for what isn't decided.
fn undecided(alloc: Global) -> Result<String, AllocError>
    ensures { IfOk result (λ t. string_bytes t ≡ codes "undecided") }
{
    String::from_str(alloc, "undecided")
}

/// Why a node is held by what its line tells.
fn told_why(alloc: Global, reply: ServerReply) -> Result<String, AllocError>
    ensures { (line : List ℕ) → IsReplyOf execute line (reply_view reply) → IfOk result (λ t. IsReplyWhy line (string_bytes t)) }
{
    match reply {
        ServerReply::Executed(run) => run_why(alloc, &run.reason),
        ServerReply::Unfinished { .. } => undecided(alloc),
        ServerReply::Failed { code: _ } => undecided(alloc),
        ServerReply::Implied(_) => undecided(alloc),
        ServerReply::Simplified(_) => undecided(alloc),
        ServerReply::Added(_) => undecided(alloc),
    }
}

/// Why a node is held by this line.
fn line_why(alloc: Global, line: &[u8]) -> Result<String, AllocError>
    ensures { IfOk result (λ t. IsReplyWhy line.now (string_bytes t)) }
{
    match reply_of(alloc, Method::Execute, line)? {
        Some(reply) => told_why(alloc, reply),
        None => undecided(alloc),
    }
}

/// Why a node is held.
fn why_text(alloc: Global, why: &Why) -> Result<String, AllocError>
    ensures { IfOk result (λ t. IsWhy (why_view why.now) (string_bytes t)) }
{
    match why {
        Why::Held(line) => line_why(alloc, line),
        Why::Rounds => String::from_str(alloc, "rounds"),
        Why::Nodes => String::from_str(alloc, "nodes"),
    }
}

/// The line of a failed proof.
fn failed_line(alloc: Global, label: &Name, number: usize) -> Result<String, AllocError>
    ensures { IfOk result (λ t. IsLine (string_bytes label.now) (failed_at number) (string_bytes t)) }
{
    format!(in alloc; "failed {label} node {number}\n")
}

/// The line of a pending proof, of which this says why.
fn pending_text(
    alloc: Global,
    label: &Name,
    number: usize,
    why: &String,
) -> Result<String, AllocError>
    ensures { let label' = string_bytes label.now in let why' = string_bytes why.now in IfOk result (λ t. string_bytes t ≡ codes "pending " ++ label' ++ codes " node " ++ decimal number ++ codes " " ++ why' ++ codes "\n") }
{
    format!(in alloc; "pending {label} node {number} {why}\n")
}

/// The line of a pending proof.
fn pending_line(alloc: Global, label: &Name, number: usize, why: &Why) -> Result<String, AllocError>
    ensures { IfOk result (λ t. IsLine (string_bytes label.now) (pending_at number (why_view why.now)) (string_bytes t)) }
{
    let why = why_text(alloc, why)?;
    Ok(pending_text(alloc, label, number, &why)?)
}

/// A code's digits.
fn code_text(alloc: Global, code: i64) -> Result<String, AllocError>
    ensures { IfOk result (λ t. string_bytes t ≡ signed_decimal code) }
{
    code.to_string(alloc)
}

/// The line of a proof that the refusal of a question ends, with the code's digits.
fn refused_text(alloc: Global, label: &Name, code: &String) -> Result<String, AllocError>
    ensures { IfOk result (λ t. string_bytes t ≡ codes "refused " ++ string_bytes label.now ++ codes " code " ++ string_bytes code.now ++ codes "\n") }
{
    format!(in alloc; "refused {label} code {code}\n")
}

/// The line of a proof that the refusal of a question ends.
fn refused_line(alloc: Global, label: &Name, code: i64) -> Result<String, AllocError>
    ensures { IfOk result (λ t. IsLine (string_bytes label.now) (refused_with code) (string_bytes t)) }
{
    let code = code_text(alloc, code)?;
    Ok(refused_text(alloc, label, &code)?)
}

/// The line of a proof.
fn line_text(alloc: Global, line: &Line) -> Result<String, AllocError>
    ensures { IfOk result (λ t. IsLine (string_bytes line.now.label) (outcome_view line.now.result) (string_bytes t)) }
{
    let label = &line.label;
    match &line.result {
        ProofEnd::Passed => format!(in alloc; "passed {label}\n"),
        ProofEnd::Failed { node } => failed_line(alloc, label, node.number),
        ProofEnd::Pending { node, why } => pending_line(alloc, label, node.number, why),
        ProofEnd::Refused { code } => refused_line(alloc, label, *code),
    }
}

/// The report of proofs: the line of each, in order.
pub fn report_text(alloc: Global, lines: &[Line]) -> Result<Vec<u8>, AllocError>
    ensures { IfOk result (λ b. IsReport (map line_view lines.now) b.items) }
{
    let mut text = Vec::new(alloc);
    for line in lines {
        let piece = line_text(alloc, line)?;
        text.extend_from_slice(piece.as_bytes())?;
    }
    Ok(text)
}
