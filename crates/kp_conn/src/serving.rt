ghost use Rattle.std.specs.Prelude.{◌≡◌, ◌≤◌, ◌<◌, ◌+◌, ◌++◌, ◌∷◌, [], ℕ, length, take, IfOk, OnOk, OnErr, IsErr};
ghost use Rattle.std.specs.Io.KnownBytes.{Appends, Consumes, Keeps, IsAtEnd};
ghost use Rattle.kp_io.specs.Outside.{CountsFault, Rose};
ghost use Rattle.kp_frames.specs.Frames.{begins_bracketed};
ghost use Rattle.kp_conn.specs.Conversations.{ForEachSeen, IsServed, most_taken, parse_error};
ghost use Rattle.kp_conn.specs.Turns.{IsLastPut, IsRestTold, end_behind};
ghost use Rattle.kp_conn.specs.declared.served.Served.TheVariants.{ReadFault, WriteFault, Memory};

use crate::answerer::Answerer;
use crate::served::{Served, broken_by};
use crate::turn::take_turn;
use kp_frames::{Cutter, MOST_FRAME};
use kp_io::{Failed, OutsideFault, Sink, Source, put_all};
use std::alloc::Global;
use std::sync::Wait;

/// A connection ends after so many bytes.
const MOST_TAKEN: u64 = 1_099_511_627_776;

/// The bytes that are asked for at once.
const PIECE: usize = 65_536;

/// The reply to bytes that are no frame, as a line.
const PARSE_ERROR_LINE: &str =
    "{\"error\":{\"code\":-32700,\"message\":\"Parse error\"},\"id\":null,\"jsonrpc\":\"2.0\"}\n";

/// How many bytes are asked for, where so many were taken: never more than may be.
fn room_for(taken: u64) -> usize
    requires { taken < most_taken }
    ensures some { 0 < result }
    ensures piece { result ≤ 65536 }
    ensures within { taken + result ≤ most_taken }
{
    if MOST_TAKEN - taken < PIECE as u64 {
        (MOST_TAKEN - taken) as usize
    } else {
        PIECE
    }
}

/// Takes at most `room` bytes into a piece's front, and says how many.
fn take_piece<S: Source>(source: &mut S, piece: &mut [u8], room: usize) -> Result<usize, Failed>
    requires some { 0 < room }
    requires fits { room ≤ length piece.old }
    ensures len { length piece.new ≡ length piece.old }
    ensures within { IfOk result (λ n. n ≤ room) }
    ensures taken { IfOk result (λ n. Consumes (S.left source.old) (S.left source.new) (take n piece.new)) }
    ensures at_end { IfOk result (λ n. n ≡ 0 → IsAtEnd (S.left source.new)) }
    ensures kept { OnErr result (Keeps (S.left source.old) (S.left source.new)) }
    ensures faults { CountsFault (S.fault_count source.old) (S.fault_count source.new) (IsErr result) }
{
    source.take(&mut piece[..room])
}

/// Answers what isn't ended as a frame that can't be read.
fn put_parse_error<K: Sink>(sink: &mut K) -> Result<(), OutsideFault>
    ensures whole { OnOk result (Appends (K.held sink.old) (K.held sink.new) (parse_error ++ 10 ∷ [])) }
    ensures front { OnErr result ((n : ℕ) × Appends (K.held sink.old) (K.held sink.new) (take n (parse_error ++ 10 ∷ []))) }
    ensures faults { CountsFault (K.fault_count sink.old) (K.fault_count sink.new) (IsErr result) }
{
    put_all(sink, PARSE_ERROR_LINE.as_bytes())
}

/// Answers what isn't ended, and that is the end.
fn put_last<K: Sink>(sink: &mut K, end: Served) -> Served
    requires { ¬ (end ≡ WriteFault) × ¬ (end ≡ Memory) }
    ensures told { IsLastPut end (K.held sink.old) (K.held sink.new) result }
    ensures never_falls { K.fault_count sink.old ≤ K.fault_count sink.new }
    ensures rose { result ≡ WriteFault → Rose (K.fault_count sink.old) (K.fault_count sink.new) }
    ensures stays { ¬ (result ≡ WriteFault) → ¬ (result ≡ Memory) → K.fault_count sink.new ≡ K.fault_count sink.old }
{
    match put_parse_error(sink) {
        Ok(()) => end,
        Err(fault) => broken_by(fault),
    }
}

/// Whether a rest begins with a bracket.
fn is_bracketed(rest: &[u8]) -> bool
    ensures { result ≡ begins_bracketed rest.now }
{
    match rest {
        [] => false,
        [first, ..] => *first == b'{' || *first == b'[',
    }
}

/// How a connection ends behind a rest, where so many frames were read before it.
fn end_of(rest: &[u8], frames: u64) -> Served
    requires { frames ≤ most_taken }
    ensures { result ≡ end_behind rest.now frames }
{
    if is_bracketed(rest) {
        Served::Truncated
    } else {
        Served::Ended { frames: frames + 1 }
    }
}

/// How a connection ends at the end of its source.
fn end<K: Sink>(sink: &mut K, rest: &[u8], frames: u64) -> Served
    requires { frames ≤ most_taken }
    ensures told { IsRestTold rest.now frames (K.held sink.old) (K.held sink.new) result }
    ensures never_falls { K.fault_count sink.old ≤ K.fault_count sink.new }
    ensures rose { result ≡ WriteFault → Rose (K.fault_count sink.old) (K.fault_count sink.new) }
    ensures stays { ¬ (result ≡ WriteFault) → ¬ (result ≡ Memory) → K.fault_count sink.new ≡ K.fault_count sink.old }
{
    if rest.is_empty() {
        return Served::Ended { frames };
    }
    put_last(sink, end_of(rest, frames))
}

/// Serves one connection: takes bytes of the source as they come, answers each frame before more is taken, and writes
/// each reply as a line. Ends where the source does, where a frame is too long, after 1,099,511,627,776 bytes, or at a
/// fault of the outside.
pub fn serve<R: Wait, A: Answerer, S: Source, K: Sink>(
    rt: &R,
    alloc: Global,
    answerer: &A,
    pass: &mut A::Pass,
    source: &mut S,
    sink: &mut K,
) -> Served
    requires pass { A.is_pass answerer.now pass.old }
    ensures pass { A.is_pass answerer.now pass.new }
    ensures served { let Has = A.has_seen answerer.now in ForEachSeen (Has pass.old) (Has pass.new) (λ o before after. IsServed (A.answers answerer.now o) (A.begins answerer.now o) before (S.left source.old) (S.left source.new) (K.held sink.old) (K.held sink.new) after result) }
    ensures read { CountsFault (S.fault_count source.old) (S.fault_count source.new) (result ≡ ReadFault) }
    ensures never_falls { K.fault_count sink.old ≤ K.fault_count sink.new }
    ensures rose { result ≡ WriteFault → Rose (K.fault_count sink.old) (K.fault_count sink.new) }
    ensures stays { ¬ (result ≡ WriteFault) → ¬ (result ≡ Memory) → K.fault_count sink.new ≡ K.fault_count sink.old }
{
    let mut cutter = Cutter::new(alloc, MOST_FRAME);
    let mut piece = [0u8; PIECE];
    let mut taken: u64 = 0;
    let mut frames: u64 = 0;
    while taken < MOST_TAKEN {
        let count = match take_piece(source, &mut piece, room_for(taken)) {
            Ok(count) => count,
            Err(_) => return Served::ReadFault,
        };
        if count == 0 {
            return end(sink, &cutter.finish(), frames);
        }
        match take_turn(
            rt,
            alloc,
            answerer,
            pass,
            sink,
            &mut cutter,
            &piece[..count],
        ) {
            Ok(ended) => {
                taken += count as u64;
                frames += ended as u64;
            }
            Err(fault) => return broken_by(fault),
        }
        if cutter.is_full() {
            return put_last(sink, Served::TooLong);
        }
    }
    Served::Spent
}
