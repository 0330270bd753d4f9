ghost use Rattle.std.specs.Prelude.{◌≡◌, ◌≢◌, ◌∷◌, [], true, false, IfOk, OnErr, IsErrOf, List, Some, option_map, ℕ};
ghost use Rattle.kp_io.specs.Outside.{Rose};
ghost use Rattle.kp_kore.specs.Syntax.{KorePattern, conjunction};
ghost use Rattle.kp_kore.specs.View.{view, sort_view, patterns_view};
ghost use Rattle.kp_results.specs.Results.{IsPatternOf, stuck};
ghost use Rattle.kp_results.specs.View.{executed_view, reason_view, state_view};
ghost use Rattle.kp_replies.specs.Read.{execute, executed};
ghost use Rattle.kp_replies.specs.View.{reply_view};
ghost use Rattle.serde_json.specs.Data.{unsigned};
ghost use Rattle.kp_rpc.specs.Request.{RequestId, id_number};
ghost use Rattle.kp_rpc.specs.View.{question_view};
ghost use Rattle.kp_client.specs.Answers.{IsHeard, IsStepAnswer, Made, sort_beside as beside, stated_sort as sort_stated};
ghost use Rattle.kp_client.specs.Links.{Exchange, Makes};
ghost use Rattle.kp_client.specs.Rounds.{IsGivenId, MayAsk, is_followed as goes_by, step_question, Tells};
ghost use Rattle.kp_client.specs.declared.outcome.ProveFault.TheVariants.{LinkFault};

use crate::cover::{NO_PATTERN, PARSE_ERROR, UNSUPPORTED};
use crate::hear::{Heard, hear};
use crate::link::Link;
use crate::outcome::ProveFault;
use kp_kore::{Pattern, Sort};
use kp_replies::{Method, ServerReply};
use kp_results::{Executed, Reason, ReplyState};
use kp_rpc::{ExecuteOptions, Id, Question};
use std::alloc::{AllocError, Global};

/// Where the steps from a state lead.
#[derive(Drop)]
pub enum StepAnswer {
    /// So many steps on is this state.
    Stepped(u64, Pattern),
    /// Nowhere: the state is stuck.
    Stuck,
    /// No step is known, by this line.
    Held(Vec<u8>),
    /// The question is refused with this code.
    Refused(i64),
}

/// The question where so many steps from a state lead.
fn step_question_of(
    alloc: Global,
    id: u64,
    depth: u64,
    state: &Pattern,
) -> Result<Question, AllocError>
    ensures { IfOk result (λ q. question_view q ≡ step_question depth (view state.now) (id_number (unsigned id))) }
{
    Ok(Question::Execute {
        id: Id::Unsigned(id),
        state: state.copy(alloc)?,
        options: ExecuteOptions {
            max_depth: Some(depth),
            module_name: None,
            cut_points: Vec::new(alloc),
            terminals: Vec::new(alloc),
        },
    })
}

/// The sort that a pattern states of itself, where it states one.
fn stated_sort(pattern: &Pattern) -> Option<&Sort>
    ensures { option_map (λ s. sort_view s.now) result ≡ sort_stated (view pattern.now) }
{
    match pattern {
        Pattern::Variable { sort, .. }
        | Pattern::SetVariable { sort, .. }
        | Pattern::Literal { sort, .. }
        | Pattern::Top { sort }
        | Pattern::Bottom { sort }
        | Pattern::Not { sort, .. }
        | Pattern::Next { sort, .. }
        | Pattern::And { sort, .. }
        | Pattern::Or { sort, .. }
        | Pattern::Implies { sort, .. }
        | Pattern::Iff { sort, .. }
        | Pattern::Rewrites { sort, .. }
        | Pattern::Exists { sort, .. }
        | Pattern::Forall { sort, .. }
        | Pattern::Ceil { sort, .. }
        | Pattern::Floor { sort, .. }
        | Pattern::Equals { sort, .. }
        | Pattern::In { sort, .. } => Some(sort),
        Pattern::Application { .. }
        | Pattern::StringLiteral { .. }
        | Pattern::Mu { .. }
        | Pattern::Nu { .. } => None,
    }
}

/// The sort at which a term is joined with this predicate: the predicate's own, else that of whole configurations.
fn sort_beside(alloc: Global, predicate: &Pattern) -> Result<Sort, AllocError>
    ensures { IfOk result (λ s. sort_view s ≡ beside (view predicate.now)) }
{
    match stated_sort(predicate) {
        Some(sort) => sort.copy(alloc),
        None => Ok(Sort::App {
            name: String::from_str(alloc, "SortGeneratedTopCell")?,
            arguments: Vec::new(alloc),
        }),
    }
}

/// A conjunction of these patterns.
fn conjunction_of(sort: Sort, patterns: Vec<Pattern>) -> Pattern
    ensures { view result ≡ conjunction (sort_view sort) (patterns_view patterns.items) }
{
    Pattern::And { sort, patterns }
}

/// The conjunction of a term and a predicate, at the predicate's sort.
fn joined(alloc: Global, term: Pattern, predicate: Pattern) -> Result<Pattern, AllocError>
    ensures sort { IfOk result (λ p. sort_stated (view p) ≡ Some (beside (view predicate))) }
    ensures pattern { IfOk result (λ p. IsPatternOf (record { term = view term; predicate = Some (view predicate) }) (view p)) }
{
    let sort = sort_beside(alloc, &predicate)?;
    let mut patterns = Vec::new(alloc);
    patterns.push(term)?;
    patterns.push(predicate)?;
    Ok(conjunction_of(sort, patterns))
}

/// The state that a run ends in.
fn state_of(alloc: Global, state: ReplyState) -> Result<Pattern, AllocError>
    ensures { IfOk result (λ p. IsPatternOf (state_view state) (view p)) }
{
    let ReplyState { term, predicate } = state;
    match predicate {
        None => Ok(term),
        Some(predicate) => joined(alloc, term, predicate),
    }
}

/// Whether the prover goes by a run that ends for this reason; it can't use the others yet.
fn is_followed(reason: &Reason) -> bool
    ensures { result ≡ goes_by (reason_view reason.now) }
{
    match reason {
        Reason::Vacuous => false,
        Reason::DepthBound => true,
        Reason::Stuck => true,
        Reason::Branching => false,
        Reason::CutPoint { rule: _ } => false,
        Reason::Terminal { rule: _ } => false,
        Reason::Aborted { cause: _ } => true,
    }
}

/// Whether no rule fires on a run's last state.
fn is_stuck(reason: &Reason) -> bool
    ensures yes { result ≡ true → reason_view reason.now ≡ stuck }
    ensures no { result ≡ false → reason_view reason.now ≢ stuck }
{
    match reason {
        Reason::Vacuous => false,
        Reason::DepthBound => false,
        Reason::Stuck => true,
        Reason::Branching => false,
        Reason::CutPoint { rule: _ } => false,
        Reason::Terminal { rule: _ } => false,
        Reason::Aborted { cause: _ } => false,
    }
}

/// What a run says of the steps.
fn run_answer(alloc: Global, run: Executed, line: Vec<u8>) -> Result<StepAnswer, AllocError>
    ensures { IfOk result (λ a. (depth : ℕ) (s : KorePattern) (e : Exchange) → let question = step_question depth s in e.reply ≡ line.items → Tells question execute e (executed (executed_view run))
        → IsStepAnswer depth s (e ∷ []) a) }
{
    if !is_followed(&run.reason) {
        return Ok(StepAnswer::Refused(UNSUPPORTED));
    }
    let depth = run.depth;
    if depth > 0 {
        return Ok(StepAnswer::Stepped(depth, state_of(alloc, run.state)?));
    }
    if is_stuck(&run.reason) {
        return Ok(StepAnswer::Stuck);
    }
    Ok(StepAnswer::Held(line))
}

/// What a reply says of the steps.
fn told_steps(alloc: Global, reply: ServerReply, line: Vec<u8>) -> Result<StepAnswer, AllocError>
    ensures { IfOk result (λ a. (depth : ℕ) (s : KorePattern) (e : Exchange) → let question = step_question depth s in e.reply ≡ line.items → Tells question execute e (reply_view reply)
        → IsStepAnswer depth s (e ∷ []) a) }
{
    match reply {
        ServerReply::Executed(run) => run_answer(alloc, run, line),
        ServerReply::Unfinished { .. } => Ok(StepAnswer::Refused(UNSUPPORTED)),
        ServerReply::Failed { code } => Ok(StepAnswer::Refused(code)),
        ServerReply::Implied(_) => Ok(StepAnswer::Refused(PARSE_ERROR)),
        ServerReply::Simplified(_) => Ok(StepAnswer::Refused(PARSE_ERROR)),
        ServerReply::Added(_) => Ok(StepAnswer::Refused(PARSE_ERROR)),
    }
}

/// What a question comes to says of the steps.
fn step_answer_of(alloc: Global, heard: Heard) -> Result<StepAnswer, AllocError>
    ensures { IfOk result (λ a. (depth : ℕ) (s : KorePattern) (i : RequestId) (es : List Exchange) → let question = step_question depth s i in IsGivenId i →
        IsHeard execute question es heard → IsStepAnswer depth s es a) }
{
    match heard {
        Heard::Told(reply, line) => told_steps(alloc, reply, line),
        Heard::Nothing => Ok(StepAnswer::Refused(PARSE_ERROR)),
        Heard::Unasked => Ok(StepAnswer::Refused(NO_PATTERN)),
    }
}

/// Asks where so many steps from a state lead.
pub fn ask_steps<L: Link>(
    alloc: Global,
    link: &mut L,
    id: u64,
    depth: u64,
    state: &Pattern,
) -> Result<StepAnswer, ProveFault>
    ensures answer { IfOk result (λ a. (es : List Exchange) × Makes (L.told link.old) (L.told link.new) es × IsStepAnswer depth (view state.now) es a) }
    ensures broken { OnErr result (Made (L.told link.old) (L.told link.new) (MayAsk (step_question depth (view state.now)))) }
    ensures link_fault { IsErrOf result LinkFault → Rose (L.told link.old).faults (L.told link.new).faults }
{
    let question = step_question_of(alloc, id, depth, state)?;
    let heard = hear(alloc, link, Method::Execute, &question)?;
    Ok(step_answer_of(alloc, heard)?)
}
