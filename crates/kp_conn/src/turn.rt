ghost use Rattle.std.specs.Prelude.{◌≡◌, ◌≤◌, ◌∷◌, ◌++◌, [], ℕ, take, IfOk, OnOk, OnErr, IsErrOf, false};
ghost use Rattle.std.specs.Io.KnownBytes.{Appends};
ghost use Rattle.kp_io.specs.Outside.{Rose};
ghost use Rattle.kp_io.specs.declared.fault.OutsideFault.TheVariants.{Failed};
ghost use Rattle.kp_frames.specs.Held.{frames_of};
ghost use Rattle.kp_conn.specs.Conversations.{ForEachSeen};
ghost use Rattle.kp_conn.specs.Turns.{AreAnswered, BreakOff, BrokenTurn, EndsMany, IsTurn};

use crate::answerer::Answerer;
use kp_frames::Cutter;
use kp_io::{OutsideFault, Sink, put_all};
use std::alloc::Global;
use std::sync::Wait;

/// Answers a frame, and writes its reply as a line.
fn answer_frame<R: Wait, A: Answerer, K: Sink>(
    rt: &R,
    alloc: Global,
    answerer: &A,
    pass: &mut A::Pass,
    sink: &mut K,
    frame: &[u8],
) -> Result<(), OutsideFault>
    requires pass { A.is_pass answerer.now pass.old }
    ensures pass { A.is_pass answerer.now pass.new }
    ensures whole { let Has = A.has_seen answerer.now in OnOk result (ForEachSeen (Has pass.old) (Has pass.new) (λ o before. AreAnswered (A.answers answerer.now o) before (frame.now ∷ []) (K.held sink.old) (K.held sink.new))) }
    ensures broken { let Has = A.has_seen answerer.now in OnErr result (ForEachSeen (Has pass.old) (Has pass.new) (λ o before. BreakOff (A.answers answerer.now o) (A.begins answerer.now o) before (frame.now ∷ []) (K.held sink.old) (K.held sink.new))) }
    ensures never_falls { K.fault_count sink.old ≤ K.fault_count sink.new }
    ensures rose { IsErrOf result Failed → Rose (K.fault_count sink.old) (K.fault_count sink.new) }
    ensures stays { OnOk result (K.fault_count sink.new ≡ K.fault_count sink.old) }
{
    match answerer.answer(rt, alloc, pass, frame)? {
        Some(reply) => put_line(sink, reply),
        None => Ok(()),
    }
}

/// Writes a reply and a line feed.
fn put_line<K: Sink>(sink: &mut K, reply: Vec<u8>) -> Result<(), OutsideFault>
    ensures whole { OnOk result (Appends (K.held sink.old) (K.held sink.new) (reply.items ++ 10 ∷ [])) }
    ensures front { OnErr result ((n : ℕ) × Appends (K.held sink.old) (K.held sink.new) (take n (reply.items ++ 10 ∷ []))) }
    ensures never_falls { K.fault_count sink.old ≤ K.fault_count sink.new }
    ensures rose { IsErrOf result Failed → Rose (K.fault_count sink.old) (K.fault_count sink.new) }
    ensures stays { OnOk result (K.fault_count sink.new ≡ K.fault_count sink.old) }
{
    let mut line = reply;
    match line.push(b'\n') {
        Ok(()) => put_all(sink, &line),
        Err(_) => Err(OutsideFault::Memory),
    }
}

/// Answers these frames in order.
fn answer_all<R: Wait, A: Answerer, K: Sink>(
    rt: &R,
    alloc: Global,
    answerer: &A,
    pass: &mut A::Pass,
    sink: &mut K,
    frames: &[Vec<u8>],
) -> Result<(), OutsideFault>
    requires pass { A.is_pass answerer.now pass.old }
    ensures pass { A.is_pass answerer.now pass.new }
    ensures whole { let Has = A.has_seen answerer.now in OnOk result (ForEachSeen (Has pass.old) (Has pass.new) (λ o before. AreAnswered (A.answers answerer.now o) before (frames_of frames.now) (K.held sink.old) (K.held sink.new))) }
    ensures broken { let Has = A.has_seen answerer.now in OnErr result (ForEachSeen (Has pass.old) (Has pass.new) (λ o before. BreakOff (A.answers answerer.now o) (A.begins answerer.now o) before (frames_of frames.now) (K.held sink.old) (K.held sink.new))) }
    ensures never_falls { K.fault_count sink.old ≤ K.fault_count sink.new }
    ensures rose { IsErrOf result Failed → Rose (K.fault_count sink.old) (K.fault_count sink.new) }
    ensures stays { OnOk result (K.fault_count sink.new ≡ K.fault_count sink.old) }
{
    for at in 0..frames.len() {
        answer_frame(rt, alloc, answerer, pass, sink, &frames[at])?;
    }
    Ok(())
}

/// Answers the frames that a piece ends, and says how many there are.
pub fn take_turn<R: Wait, A: Answerer, K: Sink>(
    rt: &R,
    alloc: Global,
    answerer: &A,
    pass: &mut A::Pass,
    sink: &mut K,
    cutter: &mut Cutter,
    piece: &[u8],
) -> Result<usize, OutsideFault>
    requires pass { A.is_pass answerer.now pass.old }
    requires memory { cutter.old.is_out_of_memory ≡ false }
    ensures pass { A.is_pass answerer.now pass.new }
    ensures limit { cutter.new.limit ≡ cutter.old.limit }
    ensures many { IfOk result (EndsMany cutter.old cutter.new piece.now) }
    ensures whole { let Has = A.has_seen answerer.now in IfOk result (λ count. ForEachSeen (Has pass.old) (Has pass.new) (λ o before after. IsTurn (A.answers answerer.now o) before cutter.old cutter.new piece.now (K.held sink.old) (K.held sink.new) after count)) }
    ensures memory { OnOk result (cutter.new.is_out_of_memory ≡ false) }
    ensures broken { let Has = A.has_seen answerer.now in OnErr result (ForEachSeen (Has pass.old) (Has pass.new) (λ o before. BrokenTurn (A.answers answerer.now o) (A.begins answerer.now o) before cutter.old cutter.new piece.now (K.held sink.old) (K.held sink.new))) }
    ensures never_falls { K.fault_count sink.old ≤ K.fault_count sink.new }
    ensures rose { IsErrOf result Failed → Rose (K.fault_count sink.old) (K.fault_count sink.new) }
    ensures stays { OnOk result (K.fault_count sink.new ≡ K.fault_count sink.old) }
{
    let ended = cutter.feed(alloc, piece)?;
    answer_all(rt, alloc, answerer, pass, sink, &ended)?;
    Ok(ended.len())
}
