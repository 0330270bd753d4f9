use crate::definitions::Asked;
use crate::replies::{Row, are_replied, is_replied};
use crate::running::add_often;
use std::alloc::{AllocError, Global};
use std::sync::Wait;
use std::test::Fail;

/// Batches, calls without a line feed between them, malformed inputs, and modules that are added and refused.
static ROWS: [Row; 19] = [
    (
        "a member of a batch is no request",
        "[1]",
        r#"[{"error":{"code":-32600,"message":"Invalid Request"},"id":null,"jsonrpc":"2.0"}]"#,
    ),
    (
        "an empty batch is no request",
        "[]",
        r#"{"error":{"code":-32600,"message":"Invalid Request"},"id":null,"jsonrpc":"2.0"}"#,
    ),
    (
        "a batch of notifications has no reply",
        r#"[{"jsonrpc":"2.0","method":"x"},{"jsonrpc":"2.0","method":"y"}]"#,
        "",
    ),
    (
        "a batch has a reply for each member that has an id or is none",
        r#"[{"jsonrpc":"2.0","id":2,"method":"get-model"},7]"#,
        r#"[{"error":{"code":-32601,"message":"Method not found"},"id":2,"jsonrpc":"2.0"},{"error":{"code":-32600,"message":"Invalid Request"},"id":null,"jsonrpc":"2.0"}]"#,
    ),
    (
        "an input that breaks off is no frame",
        r#"{"jsonrpc":"2.0","method":"exec"#,
        r#"{"error":{"code":-32700,"message":"Parse error"},"id":null,"jsonrpc":"2.0"}"#,
    ),
    ("white space at the end is none", " \n", ""),
    (
        "a malformed line is answered before what follows",
        r#"so not
{"jsonrpc":"2.0","id":2,"method":"get-model"}"#,
        r#"{"error":{"code":-32700,"message":"Parse error"},"id":null,"jsonrpc":"2.0"}
{"error":{"code":-32601,"message":"Method not found"},"id":2,"jsonrpc":"2.0"}"#,
    ),
    (
        "a module that imports an unknown one is refused",
        r#"{"jsonrpc":"2.0","id":1,"method":"add-module","params":{"module":"module E2 import NOPE [] endmodule []"}}"#,
        r#"{"error":{"code":8,"data":{"kind":"M1","name":"NOPE"},"message":"Invalid module"},"id":1,"jsonrpc":"2.0"}"#,
    ),
    (
        "a module with a declaration is refused",
        r#"{"jsonrpc":"2.0","id":1,"method":"add-module","params":{"module":"module E3 sort SortZ{} [] endmodule []"}}"#,
        r#"{"error":{"code":8,"data":{"kind":"M7","sentence":1},"message":"Invalid module"},"id":1,"jsonrpc":"2.0"}"#,
    ),
    (
        "a text of no module is refused",
        r#"{"jsonrpc":"2.0","id":1,"method":"add-module","params":{"module":"module E3"}}"#,
        r#"{"error":{"code":8,"data":{"at":9,"kind":"text","number":5},"message":"Invalid module"},"id":1,"jsonrpc":"2.0"}"#,
    ),
    (
        "a module with a faulty rule is refused",
        r#"{"jsonrpc":"2.0","id":1,"method":"add-module","params":{"module":"module E4 axiom{} LblNone{}() [] axiom{} \\rewrites{SortS{}}(LblOne{}(), LblNone{}()) [] endmodule []"}}"#,
        r#"{"error":{"code":8,"data":{"axiom":2,"kind":"M6"},"message":"Invalid module"},"id":1,"jsonrpc":"2.0"}"#,
    ),
    (
        "an unknown module is refused",
        r#"{"jsonrpc":"2.0","id":3,"method":"execute","params":{"state":{"format":"KORE","version":1,"term":{"tag":"App","name":"LblTwo","sorts":[],"args":[]}},"module":"NOPE"}}"#,
        r#"{"error":{"code":3,"data":{"name":"NOPE"},"message":"Could not find module"},"id":3,"jsonrpc":"2.0"}"#,
    ),
    (
        "a depth below zero is refused",
        r#"{"jsonrpc":"2.0","id":3,"method":"execute","params":{"state":{"format":"KORE","version":1,"term":{"tag":"App","name":"LblTwo","sorts":[],"args":[]}},"max-depth":-1}}"#,
        r#"{"error":{"code":-32602,"message":"Invalid params"},"id":3,"jsonrpc":"2.0"}"#,
    ),
    (
        "the calls of a batch are answered in order",
        r#"[{"jsonrpc":"2.0","id":3,"method":"execute","params":{"state":{"format":"KORE","version":1,"term":{"tag":"App","name":"LblTwo","sorts":[],"args":[]}}}},{"jsonrpc":"2.0","id":2,"method":"get-model"}]"#,
        r#"[{"id":3,"jsonrpc":"2.0","result":{"depth":0,"reason":"stuck","state":{"term":{"format":"KORE","term":{"args":[],"name":"LblTwo","sorts":[],"tag":"App"},"version":1}}}},{"error":{"code":-32601,"message":"Method not found"},"id":2,"jsonrpc":"2.0"}]"#,
    ),
    (
        "calls without a line feed between them are answered in order",
        r#"{"jsonrpc":"2.0","id":3,"method":"execute","params":{"state":{"format":"KORE","version":1,"term":{"tag":"App","name":"LblTwo","sorts":[],"args":[]}}}}{"jsonrpc":"2.0","id":2,"method":"get-model"}"#,
        r#"{"id":3,"jsonrpc":"2.0","result":{"depth":0,"reason":"stuck","state":{"term":{"format":"KORE","term":{"args":[],"name":"LblTwo","sorts":[],"tag":"App"},"version":1}}}}
{"error":{"code":-32601,"message":"Method not found"},"id":2,"jsonrpc":"2.0"}"#,
    ),
    (
        "a module is added before what follows, and found by both its names",
        r#"{"jsonrpc":"2.0","id":1,"method":"add-module","params":{"module":"module BACK axiom{} \\rewrites{SortS{}}(LblTwo{}(), LblOne{}()) [] endmodule []","name-as-id":true}}{"jsonrpc":"2.0","id":3,"method":"execute","params":{"state":{"format":"KORE","version":1,"term":{"tag":"App","name":"LblTwo","sorts":[],"args":[]}},"module":"BACK"}}{"jsonrpc":"2.0","id":3,"method":"execute","params":{"state":{"format":"KORE","version":1,"term":{"tag":"App","name":"LblTwo","sorts":[],"args":[]}},"module":"m0f63ff68878456a550d36ed8937b38ebe2a31700c8bee22483e5700fd97caff4"}}{"jsonrpc":"2.0","id":3,"method":"execute","params":{"state":{"format":"KORE","version":1,"term":{"tag":"App","name":"LblTwo","sorts":[],"args":[]}}}}"#,
        r#"{"id":1,"jsonrpc":"2.0","result":{"module":"m0f63ff68878456a550d36ed8937b38ebe2a31700c8bee22483e5700fd97caff4"}}
{"id":3,"jsonrpc":"2.0","result":{"depth":1,"reason":"stuck","state":{"term":{"format":"KORE","term":{"args":[],"name":"LblOne","sorts":[],"tag":"App"},"version":1}}}}
{"id":3,"jsonrpc":"2.0","result":{"depth":1,"reason":"stuck","state":{"term":{"format":"KORE","term":{"args":[],"name":"LblOne","sorts":[],"tag":"App"},"version":1}}}}
{"id":3,"jsonrpc":"2.0","result":{"depth":0,"reason":"stuck","state":{"term":{"format":"KORE","term":{"args":[],"name":"LblTwo","sorts":[],"tag":"App"},"version":1}}}}"#,
    ),
    (
        "so it is in a batch",
        r#"[{"jsonrpc":"2.0","id":1,"method":"add-module","params":{"module":"module BACK axiom{} \\rewrites{SortS{}}(LblTwo{}(), LblOne{}()) [] endmodule []","name-as-id":true}},{"jsonrpc":"2.0","id":3,"method":"execute","params":{"state":{"format":"KORE","version":1,"term":{"tag":"App","name":"LblTwo","sorts":[],"args":[]}},"module":"BACK"}},{"jsonrpc":"2.0","id":3,"method":"execute","params":{"state":{"format":"KORE","version":1,"term":{"tag":"App","name":"LblTwo","sorts":[],"args":[]}},"module":"m0f63ff68878456a550d36ed8937b38ebe2a31700c8bee22483e5700fd97caff4"}},{"jsonrpc":"2.0","id":3,"method":"execute","params":{"state":{"format":"KORE","version":1,"term":{"tag":"App","name":"LblTwo","sorts":[],"args":[]}}}}]"#,
        r#"[{"id":1,"jsonrpc":"2.0","result":{"module":"m0f63ff68878456a550d36ed8937b38ebe2a31700c8bee22483e5700fd97caff4"}},{"id":3,"jsonrpc":"2.0","result":{"depth":1,"reason":"stuck","state":{"term":{"format":"KORE","term":{"args":[],"name":"LblOne","sorts":[],"tag":"App"},"version":1}}}},{"id":3,"jsonrpc":"2.0","result":{"depth":1,"reason":"stuck","state":{"term":{"format":"KORE","term":{"args":[],"name":"LblOne","sorts":[],"tag":"App"},"version":1}}}},{"id":3,"jsonrpc":"2.0","result":{"depth":0,"reason":"stuck","state":{"term":{"format":"KORE","term":{"args":[],"name":"LblTwo","sorts":[],"tag":"App"},"version":1}}}}]"#,
    ),
    (
        "a name keeps its text: the same text has the same id, another one is refused",
        r#"{"jsonrpc":"2.0","id":1,"method":"add-module","params":{"module":"module EXTRA import TOYS [] endmodule []","name-as-id":true}}{"jsonrpc":"2.0","id":1,"method":"add-module","params":{"module":"module EXTRA import TOYS [] endmodule []","name-as-id":true}}{"jsonrpc":"2.0","id":1,"method":"add-module","params":{"module":"module EXTRA endmodule []","name-as-id":true}}"#,
        r#"{"id":1,"jsonrpc":"2.0","result":{"module":"m4cb774d0d4c18ea0bbfe56b628e236ac962c9d8c71aac5714b37e9d0b3740b38"}}
{"id":1,"jsonrpc":"2.0","result":{"module":"m4cb774d0d4c18ea0bbfe56b628e236ac962c9d8c71aac5714b37e9d0b3740b38"}}
{"error":{"code":9,"data":{"entry":1,"name":"EXTRA"},"message":"Duplicate module"},"id":1,"jsonrpc":"2.0"}"#,
    ),
    (
        "an added module has the rules that it imports",
        r#"{"jsonrpc":"2.0","id":1,"method":"add-module","params":{"module":"module EXTRA import TOYS [] endmodule []","name-as-id":true}}{"jsonrpc":"2.0","id":3,"method":"execute","params":{"state":{"format":"KORE","version":1,"term":{"tag":"App","name":"LblTwo","sorts":[],"args":[]}},"module":"EXTRA"}}"#,
        r#"{"id":1,"jsonrpc":"2.0","result":{"module":"m4cb774d0d4c18ea0bbfe56b628e236ac962c9d8c71aac5714b37e9d0b3740b38"}}
{"id":3,"jsonrpc":"2.0","result":{"depth":0,"reason":"stuck","state":{"term":{"format":"KORE","term":{"args":[],"name":"LblTwo","sorts":[],"tag":"App"},"version":1}}}}"#,
    ),
];

#[test]
fn inputs_are_answered(rt: HostRuntime) -> Result<(), Fail> {
    are_replied(&rt, rt.alloc(), Asked::Small, &ROWS)
}

/// Brackets that open and close so often.
fn brackets(alloc: Global, depth: u64) -> Result<String, AllocError> {
    let mut text = String::new(alloc);
    add_often(&mut text, "[", depth)?;
    add_often(&mut text, "]", depth)?;
    Ok(text)
}

/// Depths of brackets, and what is replied: a member that is no request, or an input that is none.
static DEPTHS: [(u64, &str); 2] = [
    (
        127,
        r#"[{"error":{"code":-32600,"message":"Invalid Request"},"id":null,"jsonrpc":"2.0"}]"#,
    ),
    (
        128,
        r#"{"error":{"code":-32700,"message":"Parse error"},"id":null,"jsonrpc":"2.0"}"#,
    ),
];

/// Whether an input of so many brackets gets this line.
fn is_nested<R: Wait>(rt: &R, alloc: Global, depth: u64, line: &str) -> bool {
    match brackets(alloc, depth) {
        Ok(input) => is_replied(rt, alloc, Asked::Small, &input, line),
        Err(_) => false,
    }
}

#[test]
fn arrays_nest_127_deep(rt: HostRuntime) -> Result<(), Fail> {
    for (depth, line) in &DEPTHS {
        if !is_nested(&rt, rt.alloc(), *depth, line) {
            return Err(Fail::new(*depth));
        }
    }
    Ok(())
}
