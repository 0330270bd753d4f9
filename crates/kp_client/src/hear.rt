ghost use Rattle.std.specs.Prelude.{IfOk, OnErr, IsErrOf, List};
ghost use Rattle.kp_io.specs.Outside.{Rose};
ghost use Rattle.kp_replies.specs.View.{method_view};
ghost use Rattle.kp_rpc.specs.View.{question_view};
ghost use Rattle.kp_client.specs.Answers.{IsHeard, Made, MaySend};
ghost use Rattle.kp_client.specs.Links.{Exchange, Makes};
ghost use Rattle.kp_client.specs.declared.outcome.ProveFault.TheVariants.{LinkFault};

use crate::link::Link;
use crate::outcome::ProveFault;
use kp_replies::{Method, ServerReply, reply_of};
use kp_rpc::{Question, question_text};
use std::alloc::Global;

/// What a question comes to.
#[derive(Drop)]
pub enum Heard {
    /// Its reply tells this, by this line.
    Told(ServerReply, Vec<u8>),
    /// Its reply is none to the method.
    Nothing,
    /// A pattern in it has no Kore JSON, so it wasn't asked.
    Unasked,
}

/// Asks a question, and reads the reply.
pub fn hear<L: Link>(
    alloc: Global,
    link: &mut L,
    method: Method,
    question: &Question,
) -> Result<Heard, ProveFault>
    ensures heard { let method' = method_view method in IfOk result (λ h. (es : List Exchange) × Makes (L.told link.old) (L.told link.new) es × IsHeard method' (question_view question.now) es h) }
    ensures broken { OnErr result (Made (L.told link.old) (L.told link.new) (MaySend (question_view question.now))) }
    ensures link_fault { IsErrOf result LinkFault → Rose (L.told link.old).faults (L.told link.new).faults }
{
    let Some(frame) = question_text(alloc, question)? else {
        return Ok(Heard::Unasked);
    };
    let line = link.ask(alloc, &frame)?;
    match reply_of(alloc, method, &line)? {
        Some(reply) => Ok(Heard::Told(reply, line)),
        None => Ok(Heard::Nothing),
    }
}
