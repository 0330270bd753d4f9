use crate::definitions::Asked;
use crate::replies::{Row, are_replied};
use std::test::Fail;

/// Modules of a definition, and the ids of their rules in order.
static ROWS: [Row; 6] = [
    (
        "main",
        r#"{"jsonrpc":"2.0","id":2,"method":"execute","params":{"state":{"format":"KORE","version":1,"term":{"args":[],"name":"LblOne","sorts":[],"tag":"App"}},"module":"MAIN"}}"#,
        r#"{"id":2,"jsonrpc":"2.0","result":{"depth":0,"next-states":[{"rule-id":"A#1","rule-predicate":{"format":"KORE","term":{"sort":{"args":[],"name":"SortS","tag":"SortApp"},"tag":"Top"},"version":1},"term":{"format":"KORE","term":{"args":[],"name":"LblA","sorts":[],"tag":"App"},"version":1}},{"rule-id":"B#1","rule-predicate":{"format":"KORE","term":{"sort":{"args":[],"name":"SortS","tag":"SortApp"},"tag":"Top"},"version":1},"term":{"format":"KORE","term":{"args":[],"name":"LblB","sorts":[],"tag":"App"},"version":1}},{"rule-id":"X#1","rule-predicate":{"format":"KORE","term":{"sort":{"args":[],"name":"SortS","tag":"SortApp"},"tag":"Top"},"version":1},"term":{"format":"KORE","term":{"args":[],"name":"LblX","sorts":[],"tag":"App"},"version":1}},{"rule-id":"MAIN#1","rule-predicate":{"format":"KORE","term":{"sort":{"args":[],"name":"SortS","tag":"SortApp"},"tag":"Top"},"version":1},"term":{"format":"KORE","term":{"args":[],"name":"LblMain","sorts":[],"tag":"App"},"version":1}}],"reason":"branching","state":{"term":{"format":"KORE","term":{"args":[],"name":"LblOne","sorts":[],"tag":"App"},"version":1}}}}"#,
    ),
    (
        "a module that imports B before A",
        r#"{"jsonrpc":"2.0","id":2,"method":"execute","params":{"state":{"format":"KORE","version":1,"term":{"args":[],"name":"LblOne","sorts":[],"tag":"App"}},"module":"X"}}"#,
        r#"{"id":2,"jsonrpc":"2.0","result":{"depth":0,"next-states":[{"rule-id":"B#1","rule-predicate":{"format":"KORE","term":{"sort":{"args":[],"name":"SortS","tag":"SortApp"},"tag":"Top"},"version":1},"term":{"format":"KORE","term":{"args":[],"name":"LblB","sorts":[],"tag":"App"},"version":1}},{"rule-id":"go","rule-predicate":{"format":"KORE","term":{"sort":{"args":[],"name":"SortS","tag":"SortApp"},"tag":"Top"},"version":1},"term":{"format":"KORE","term":{"args":[],"name":"LblA","sorts":[],"tag":"App"},"version":1}},{"rule-id":"X#1","rule-predicate":{"format":"KORE","term":{"sort":{"args":[],"name":"SortS","tag":"SortApp"},"tag":"Top"},"version":1},"term":{"format":"KORE","term":{"args":[],"name":"LblX","sorts":[],"tag":"App"},"version":1}}],"reason":"branching","state":{"term":{"format":"KORE","term":{"args":[],"name":"LblOne","sorts":[],"tag":"App"},"version":1}}}}"#,
    ),
    (
        "a label of one module",
        r#"{"jsonrpc":"2.0","id":2,"method":"execute","params":{"state":{"format":"KORE","version":1,"term":{"args":[],"name":"LblOne","sorts":[],"tag":"App"}},"module":"A","cut-point-rules":["go"]}}"#,
        r#"{"id":2,"jsonrpc":"2.0","result":{"depth":0,"next-states":[{"rule-id":"go","rule-predicate":{"format":"KORE","term":{"sort":{"args":[],"name":"SortS","tag":"SortApp"},"tag":"Top"},"version":1},"term":{"format":"KORE","term":{"args":[],"name":"LblA","sorts":[],"tag":"App"},"version":1}}],"reason":"cut-point-rule","rule":"go","state":{"term":{"format":"KORE","term":{"args":[],"name":"LblOne","sorts":[],"tag":"App"},"version":1}}}}"#,
    ),
    (
        "no label",
        r#"{"jsonrpc":"2.0","id":2,"method":"execute","params":{"state":{"format":"KORE","version":1,"term":{"args":[],"name":"LblOne","sorts":[],"tag":"App"}},"module":"B","cut-point-rules":["B#1"]}}"#,
        r#"{"id":2,"jsonrpc":"2.0","result":{"depth":0,"next-states":[{"rule-id":"B#1","rule-predicate":{"format":"KORE","term":{"sort":{"args":[],"name":"SortS","tag":"SortApp"},"tag":"Top"},"version":1},"term":{"format":"KORE","term":{"args":[],"name":"LblB","sorts":[],"tag":"App"},"version":1}}],"reason":"cut-point-rule","rule":"B#1","state":{"term":{"format":"KORE","term":{"args":[],"name":"LblOne","sorts":[],"tag":"App"},"version":1}}}}"#,
    ),
    (
        "no rule",
        r#"{"jsonrpc":"2.0","id":2,"method":"execute","params":{"state":{"format":"KORE","version":1,"term":{"args":[],"name":"LblOne","sorts":[],"tag":"App"}},"module":"SORTS"}}"#,
        r#"{"id":2,"jsonrpc":"2.0","result":{"depth":0,"reason":"stuck","state":{"term":{"format":"KORE","term":{"args":[],"name":"LblOne","sorts":[],"tag":"App"},"version":1}}}}"#,
    ),
    (
        "a module that main doesn't reach",
        r#"{"jsonrpc":"2.0","id":2,"method":"execute","params":{"state":{"format":"KORE","version":1,"term":{"args":[],"name":"LblOne","sorts":[],"tag":"App"}},"module":"Y"}}"#,
        r#"{"error":{"code":3,"data":{"name":"Y"},"message":"Could not find module"},"id":2,"jsonrpc":"2.0"}"#,
    ),
];

#[test]
fn each_module_has_the_order_of_its_own_walk(rt: HostRuntime) -> Result<(), Fail> {
    are_replied(&rt, rt.alloc(), Asked::Crossed, &ROWS)
}
