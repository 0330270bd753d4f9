ghost use Rattle.std.specs.Prelude.{◌≡◌, ◌∷◌, [], IfOk, OnErr, IsErrOf, List};
ghost use Rattle.kp_io.specs.Outside.{Rose};
ghost use Rattle.kp_kore.specs.Syntax.{KorePattern};
ghost use Rattle.kp_kore.specs.View.{view};
ghost use Rattle.kp_kore.specs.Claims.{ReachabilityClaim};
ghost use Rattle.kp_kore.specs.ClaimView.{claim_view};
ghost use Rattle.kp_replies.specs.Read.{implies, failed};
ghost use Rattle.kp_replies.specs.View.{reply_view};
ghost use Rattle.serde_json.specs.Data.{unsigned};
ghost use Rattle.kp_rpc.specs.Request.{RequestId, id_number};
ghost use Rattle.kp_rpc.specs.View.{question_view};
ghost use Rattle.kp_client.specs.Answers.{IsHeard, IsCoverAnswer, Made};
ghost use Rattle.kp_client.specs.Links.{Exchange, Makes};
ghost use Rattle.kp_client.specs.Rounds.{IsGivenId, MayAsk, cover_question, Tells};
ghost use Rattle.kp_client.specs.declared.outcome.ProveFault.TheVariants.{LinkFault};

use crate::hear::{Heard, hear};
use crate::link::Link;
use crate::outcome::ProveFault;
use kp_kore::{Claim, Pattern};
use kp_replies::{Method, ServerReply};
use kp_results::Implied;
use kp_rpc::{Id, Question};
use std::alloc::{AllocError, Global};

/// The code of a server that can't decide an implication.
const UNDECIDED: i64 = 5;

/// The code of a run that the prover can't go by yet.
pub const UNSUPPORTED: i64 = 2;

/// The code of bytes that aren't read.
pub const PARSE_ERROR: i64 = -32700;

/// The code of a pattern that has no Kore JSON.
pub const NO_PATTERN: i64 = 1;

/// Whether a state is one of the claim's right side.
#[derive(Drop)]
pub enum CoverAnswer {
    Covered,
    Uncovered,
    /// That can't be decided, by this line.
    Undecided(Vec<u8>),
    /// The question is refused with this code.
    Refused(i64),
}

/// The question whether a state is one of the claim's right side.
fn cover_question_of(
    alloc: Global,
    id: u64,
    claim: &Claim,
    state: &Pattern,
) -> Result<Question, AllocError>
    ensures { IfOk result (λ q. question_view q ≡ cover_question (claim_view claim.now) (view state.now) (id_number (unsigned id))) }
{
    Ok(Question::Implies {
        id: Id::Unsigned(id),
        antecedent: state.copy(alloc)?,
        consequent: claim.right.copy(alloc)?,
        module_name: None,
    })
}

/// What an error's code says of the cover.
fn failed_cover(code: i64, line: Vec<u8>) -> CoverAnswer
    ensures { (claim : ReachabilityClaim) (s : KorePattern) (e : Exchange) → let question = cover_question claim s in e.reply ≡ line.items → Tells question implies e (failed code)
        → IsCoverAnswer claim s (e ∷ []) result }
{
    if code == UNDECIDED {
        return CoverAnswer::Undecided(line);
    }
    CoverAnswer::Refused(code)
}

/// What a reply says of the cover.
fn told_cover(reply: ServerReply, line: Vec<u8>) -> CoverAnswer
    ensures { (claim : ReachabilityClaim) (s : KorePattern) (e : Exchange) → let question = cover_question claim s in e.reply ≡ line.items → Tells question implies e (reply_view reply)
        → IsCoverAnswer claim s (e ∷ []) result }
{
    match reply {
        ServerReply::Implied(Implied::Valid { .. }) => CoverAnswer::Covered,
        ServerReply::Implied(Implied::NotValid) => CoverAnswer::Uncovered,
        ServerReply::Failed { code } => failed_cover(code, line),
        ServerReply::Executed(_) => CoverAnswer::Refused(PARSE_ERROR),
        ServerReply::Unfinished { .. } => CoverAnswer::Refused(UNSUPPORTED),
        ServerReply::Simplified(_) => CoverAnswer::Refused(PARSE_ERROR),
        ServerReply::Added(_) => CoverAnswer::Refused(PARSE_ERROR),
    }
}

/// What a question comes to says of the cover.
fn cover_answer_of(heard: Heard) -> CoverAnswer
    ensures { (claim : ReachabilityClaim) (s : KorePattern) (i : RequestId) (es : List Exchange) → let question = cover_question claim s i in IsGivenId i →
        IsHeard implies question es heard → IsCoverAnswer claim s es result }
{
    match heard {
        Heard::Told(reply, line) => told_cover(reply, line),
        Heard::Nothing => CoverAnswer::Refused(PARSE_ERROR),
        Heard::Unasked => CoverAnswer::Refused(NO_PATTERN),
    }
}

/// Asks whether a state is one of the claim's right side.
pub fn ask_cover<L: Link>(
    alloc: Global,
    link: &mut L,
    id: u64,
    claim: &Claim,
    state: &Pattern,
) -> Result<CoverAnswer, ProveFault>
    ensures answer { let claim' = claim_view claim.now in IfOk result (λ a. (es : List Exchange) × Makes (L.told link.old) (L.told link.new) es × IsCoverAnswer claim' (view state.now) es a) }
    ensures broken { OnErr result (Made (L.told link.old) (L.told link.new) (MayAsk (cover_question (claim_view claim.now) (view state.now)))) }
    ensures link_fault { IsErrOf result LinkFault → Rose (L.told link.old).faults (L.told link.new).faults }
{
    let question = cover_question_of(alloc, id, claim, state)?;
    Ok(cover_answer_of(hear(alloc, link, Method::Implies, &question)?))
}
