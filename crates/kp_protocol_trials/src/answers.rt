use crate::table::bytes;
use kp_frames::Cutter;
use kp_json::JsonFault;
use kp_requests::{Asked, Call, Parsed, Reading, Request, request_of};
use kp_rpc::{Id, Refusal, StateFault, fault_text, refusal_text};
use std::alloc::Global;
use std::process::Abort;

/// The most bytes of a frame.
const LIMIT: usize = 4_194_304;

/// What stands for the reply to a request that was read whole.
const READ: &str = "read\n";

/// The first example's request.
pub const FIRST: &str =
    r#"{"jsonrpc":"2.0","id":1,"method":"execute","params":{"state":{"format":"KORE","version":1,"term":{"tag":"App","name":"Lblcount","sorts":[],"args":[{"tag":"DV","sort":{"tag":"SortApp","name":"SortInt","args":[]},"value":"2"}]}}}}"#;

/// The reply that tells the fault of a tree.
pub fn fault_line(rt: &impl Abort, alloc: Global, id: &Id, fault: JsonFault) -> Vec<u8> {
    fault_text(alloc, id, &StateFault::Json(fault)).expect(rt, "memory")
}

/// The reply to a request of one state.
fn of_state(rt: &impl Abort, alloc: Global, id: &Id, state: Reading) -> Vec<u8> {
    match state {
        Reading::Pattern(_) => bytes(rt, alloc, READ),
        Reading::Fault(fault) => fault_line(rt, alloc, id, fault),
    }
}

/// The reply to a request.
fn of_request(rt: &impl Abort, alloc: Global, id: &Id, request: Request) -> Vec<u8> {
    match request {
        Request::Execute { state, options: _ } => of_state(rt, alloc, id, state),
        Request::Implies {
            antecedent,
            consequent: _,
            module_name: _,
        } => of_state(rt, alloc, id, antecedent),
        Request::Simplify {
            state,
            module_name: _,
        } => of_state(rt, alloc, id, state),
        Request::AddModule {
            text: _,
            name_as_id: _,
        } => bytes(rt, alloc, READ),
    }
}

/// The reply of a refusal.
fn refused(rt: &impl Abort, alloc: Global, id: &Id, refusal: Refusal) -> Vec<u8> {
    refusal_text(alloc, id, refusal).expect(rt, "memory")
}

/// The reply to what is asked.
fn of_asked(rt: &impl Abort, alloc: Global, id: &Id, asked: Asked) -> Vec<u8> {
    match asked {
        Asked::Request(request) => of_request(rt, alloc, id, request),
        Asked::Refused(refusal) => refused(rt, alloc, id, refusal),
    }
}

/// Adds a line to the replies.
fn add(rt: &impl Abort, out: &mut Vec<u8>, line: &[u8]) {
    out.extend_from_slice(line).expect(rt, "memory");
}

/// Adds the reply to a call, none for a notification.
fn add_call(rt: &impl Abort, alloc: Global, call: Call, out: &mut Vec<u8>) {
    let Call { id, asked } = call;
    match id {
        Some(id) => add(rt, out, &of_asked(rt, alloc, &id, asked)),
        None => {}
    }
}

/// Adds the replies to the calls of a batch, between lines of brackets.
fn add_batch(rt: &impl Abort, alloc: Global, calls: Vec<Call>, out: &mut Vec<u8>) {
    add(rt, out, b"[\n");
    for call in calls {
        add_call(rt, alloc, call, out);
    }
    add(rt, out, b"]\n");
}

/// Adds the reply to a frame.
fn add_frame(rt: &impl Abort, alloc: Global, frame: &[u8], out: &mut Vec<u8>) {
    match request_of(alloc, frame).expect(rt, "memory") {
        Parsed::Single(call) => add_call(rt, alloc, call, out),
        Parsed::Batch(calls) => add_batch(rt, alloc, calls, out),
        Parsed::Refused(refusal) => add(rt, out, &refused(rt, alloc, &Id::Null, refusal)),
    }
}

/// Feeds a piece, and adds the replies to the frames that it ends.
fn feed(rt: &impl Abort, alloc: Global, cutter: &mut Cutter, piece: &[u8], out: &mut Vec<u8>) {
    for frame in cutter.feed(alloc, piece).expect(rt, "memory") {
        add_frame(rt, alloc, &frame, out);
    }
}

/// The replies to a stream that comes in two pieces; what is left at its end is no frame.
pub fn in_two(rt: &impl Abort, alloc: Global, first: &[u8], second: &[u8]) -> Vec<u8> {
    let mut out = Vec::new(alloc);
    let mut cutter = Cutter::new(alloc, LIMIT);
    feed(rt, alloc, &mut cutter, first, &mut out);
    feed(rt, alloc, &mut cutter, second, &mut out);
    if !cutter.finish().is_empty() {
        add(
            rt,
            &mut out,
            &refused(rt, alloc, &Id::Null, Refusal::ParseError),
        );
    }
    out
}

/// Some bytes and a text behind them.
fn joined(rt: &impl Abort, alloc: Global, first: &[u8], second: &str) -> Vec<u8> {
    let mut both = Vec::from_slice(alloc, first).expect(rt, "memory");
    add(rt, &mut both, second.as_bytes());
    both
}

/// Whether a frame has this reply, and the first example's request behind it is read, cut after each byte.
pub fn is_row(rt: &impl Abort, alloc: Global, frame: &[u8], reply: &str) -> bool {
    let stream = joined(rt, alloc, frame, FIRST);
    let replies = joined(rt, alloc, reply.as_bytes(), READ);
    for at in 0..=stream.len() {
        if in_two(rt, alloc, &stream[..at], &stream[at..]) != replies {
            return false;
        }
    }
    true
}

/// Ends the test at the first frame of which this doesn't hold, and prints it.
pub fn each_is_answered(rt: &impl Abort, alloc: Global, rows: &[(&str, &str)]) {
    for (frame, reply) in rows {
        assert!(rt; is_row(rt, alloc, frame.as_bytes(), reply), "{frame}");
    }
}
