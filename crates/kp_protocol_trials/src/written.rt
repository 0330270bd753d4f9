use crate::table::{Subject, each_is_told, text, written};
use kp_kore::{Pattern, Sort};
use kp_requests::{
    Asked, Call, Parsed, Reading, Request, add_module_text, request_of, simplify_text,
};
use kp_rpc::{ExecuteOptions, Id, Question, question_text};
use std::alloc::Global;
use std::process::Abort;

/// Whether a state was read.
fn kind_of(state: &Reading) -> &'static str {
    match state {
        Reading::Pattern(_) => "pattern",
        Reading::Fault(_) => "fault",
    }
}

/// What a request asks.
fn request_text(rt: &impl Abort, alloc: Global, request: &Request) -> String {
    match request {
        Request::Execute { state, options } => {
            let kind = kind_of(state);
            let depth = options.max_depth.unwrap_or(0);
            let count = options.cut_points.len();
            format!(in alloc; "execute {kind}, depth {depth}, cut points {count}").expect(
                rt, "memory",
            )
        }
        Request::Implies {
            antecedent: _,
            consequent: _,
            module_name: _,
        } => text(rt, alloc, "implies"),
        Request::Simplify { state, module_name } => {
            let kind = kind_of(state);
            let is_named = module_name.is_some();
            format!(in alloc; "simplify {kind}, named module {is_named}").expect(rt, "memory")
        }
        Request::AddModule { text, name_as_id } => {
            format!(in alloc; "add-module {text}, own name {name_as_id}").expect(rt, "memory")
        }
    }
}

/// What is read of one request.
fn parsed_text(rt: &impl Abort, alloc: Global, parsed: &Parsed) -> String {
    match parsed {
        Parsed::Single(
            Call {
                id: _,
                asked: Asked::Request(request),
            },
        ) => request_text(rt, alloc, request),
        Parsed::Single(_) | Parsed::Batch(_) | Parsed::Refused(_) => text(rt, alloc, "refused"),
    }
}

/// `\top` of some sort.
fn top(rt: &impl Abort, alloc: Global) -> Pattern {
    Pattern::Top {
        sort: Sort::App {
            name: text(rt, alloc, "SortS"),
            arguments: Vec::new(alloc),
        },
    }
}

/// A question of execute from `\top` with a bound and a cut point.
fn question(rt: &impl Abort, alloc: Global) -> Question {
    Question::Execute {
        id: Id::Unsigned(1),
        state: top(rt, alloc),
        options: ExecuteOptions {
            max_depth: Some(12_000),
            module_name: None,
            cut_points: vec![in alloc; text(rt, alloc, "A.b")].expect(rt, "memory"),
            terminals: Vec::new(alloc),
        },
    }
}

/// A question to add a module.
fn addition(rt: &impl Abort, alloc: Global) -> Question {
    Question::AddModule {
        id: Id::Unsigned(1),
        text: text(rt, alloc, "module M endmodule []"),
    }
}

/// What a client asks.
#[derive(Clone, Copy)]
enum Wanted {
    Simplify,
    AddModule,
    AddNothing,
    AskToAdd,
    Execute,
}

/// The bytes of what a client asks.
fn bytes_of(rt: &impl Abort, alloc: Global, wanted: Wanted) -> Vec<u8> {
    match wanted {
        Wanted::Simplify => written(
            rt,
            simplify_text(alloc, &Id::Unsigned(7), &top(rt, alloc), &None),
        ),
        Wanted::AddModule => add_module_text(
            alloc,
            &Id::Null,
            "module M endmodule []",
            true,
        ).expect(rt, "memory"),
        Wanted::AddNothing => add_module_text(alloc, &Id::Signed(-1), "", false).expect(
            rt, "memory",
        ),
        Wanted::AskToAdd => written(rt, question_text(alloc, &addition(rt, alloc))),
        Wanted::Execute => written(rt, question_text(alloc, &question(rt, alloc))),
    }
}

impl Subject for Wanted {
    /// The bytes, and in a line of their own what is read of them.
    fn told(&self, rt: &impl Abort, alloc: Global) -> Vec<u8> {
        let mut told = bytes_of(rt, alloc, *self);
        let parsed = request_of(alloc, &told).expect(rt, "memory");
        let read = parsed_text(rt, alloc, &parsed);
        told.extend_from_slice(b"\n").expect(rt, "memory");
        told.extend_from_slice(read.as_bytes()).expect(rt, "memory");
        told
    }
}

/// What a client asks, its bytes, and behind them what is read of them. The own name is bound only where it is asked.
const ROWS: [(Wanted, &str); 5] = [
    (
        Wanted::Simplify,
        "{\"id\":7,\"jsonrpc\":\"2.0\",\"method\":\"simplify\",\"params\":{\"state\":{\"format\":\"KORE\",\"term\":{\"sort\":{\"args\":[],\"name\":\"SortS\",\"tag\":\"SortApp\"},\"tag\":\"Top\"},\"version\":1}}}\nsimplify pattern, named module false",
    ),
    (
        Wanted::AddModule,
        "{\"id\":null,\"jsonrpc\":\"2.0\",\"method\":\"add-module\",\"params\":{\"module\":\"module M endmodule []\",\"name-as-id\":true}}\nadd-module module M endmodule [], own name true",
    ),
    (
        Wanted::AddNothing,
        "{\"id\":-1,\"jsonrpc\":\"2.0\",\"method\":\"add-module\",\"params\":{\"module\":\"\"}}\nadd-module , own name false",
    ),
    (
        Wanted::AskToAdd,
        "{\"id\":1,\"jsonrpc\":\"2.0\",\"method\":\"add-module\",\"params\":{\"module\":\"module M endmodule []\"}}\nadd-module module M endmodule [], own name false",
    ),
    (
        Wanted::Execute,
        "{\"id\":1,\"jsonrpc\":\"2.0\",\"method\":\"execute\",\"params\":{\"cut-point-rules\":[\"A.b\"],\"max-depth\":12000,\"state\":{\"format\":\"KORE\",\"term\":{\"sort\":{\"args\":[],\"name\":\"SortS\",\"tag\":\"SortApp\"},\"tag\":\"Top\"},\"version\":1}}}\nexecute pattern, depth 12000, cut points 1",
    ),
];

/// What a client asks is written byte by byte, and read back.
#[test]
fn what_a_client_asks_is_read_back(rt: HostRuntime) {
    each_is_told(&rt, rt.alloc(), &ROWS);
}
