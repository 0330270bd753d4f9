use crate::additions::{self, are_added};
use crate::definitions::Asked;
use crate::replies::{Row, are_replied};
use std::test::Fail;

/// A module with a rule of a label, or without one, behind an axiom that is no rule: the ids of main's rule and its own in its
/// rule set, and main's own stays. A rule that is run tells its id.
static LABELS: [Row; 3] = [
    (
        "main's label once more",
        r#"{"jsonrpc":"2.0","id":1,"method":"add-module","params":{"module":"module X import TOYS [] axiom{} \\top{SortS{}}() [] axiom{} \\rewrites{SortS{}}(LblTwo{}(), LblOne{}()) [label{}(\"TOYS.go\")] endmodule []"}}
{"jsonrpc":"2.0","id":2,"method":"execute","params":{"state":{"format":"KORE","version":1,"term":{"args":[],"name":"LblOne","sorts":[],"tag":"App"}},"module":"ma1ebb4bc9a5f6aa6c9279504fdd9be16148b0b707996f3952cf0379cac48e757","terminal-rules":["TOYS.go","TOYS#1","X.back","ma1ebb4bc9a5f6aa6c9279504fdd9be16148b0b707996f3952cf0379cac48e757#2"]}}
{"jsonrpc":"2.0","id":2,"method":"execute","params":{"state":{"format":"KORE","version":1,"term":{"args":[],"name":"LblTwo","sorts":[],"tag":"App"}},"module":"ma1ebb4bc9a5f6aa6c9279504fdd9be16148b0b707996f3952cf0379cac48e757","terminal-rules":["TOYS.go","TOYS#1","X.back","ma1ebb4bc9a5f6aa6c9279504fdd9be16148b0b707996f3952cf0379cac48e757#2"]}}
{"jsonrpc":"2.0","id":2,"method":"execute","params":{"state":{"format":"KORE","version":1,"term":{"args":[],"name":"LblOne","sorts":[],"tag":"App"}},"module":"TOYS","terminal-rules":["TOYS.go","TOYS#1","X.back","ma1ebb4bc9a5f6aa6c9279504fdd9be16148b0b707996f3952cf0379cac48e757#2"]}}"#,
        r#"{"id":1,"jsonrpc":"2.0","result":{"module":"ma1ebb4bc9a5f6aa6c9279504fdd9be16148b0b707996f3952cf0379cac48e757"}}
{"id":2,"jsonrpc":"2.0","result":{"depth":1,"reason":"terminal-rule","rule":"TOYS#1","state":{"term":{"format":"KORE","term":{"args":[],"name":"LblTwo","sorts":[],"tag":"App"},"version":1}}}}
{"id":2,"jsonrpc":"2.0","result":{"depth":1,"reason":"terminal-rule","rule":"ma1ebb4bc9a5f6aa6c9279504fdd9be16148b0b707996f3952cf0379cac48e757#2","state":{"term":{"format":"KORE","term":{"args":[],"name":"LblOne","sorts":[],"tag":"App"},"version":1}}}}
{"id":2,"jsonrpc":"2.0","result":{"depth":1,"reason":"terminal-rule","rule":"TOYS.go","state":{"term":{"format":"KORE","term":{"args":[],"name":"LblTwo","sorts":[],"tag":"App"},"version":1}}}}"#,
    ),
    (
        "another label",
        r#"{"jsonrpc":"2.0","id":1,"method":"add-module","params":{"module":"module X import TOYS [] axiom{} \\top{SortS{}}() [] axiom{} \\rewrites{SortS{}}(LblTwo{}(), LblOne{}()) [label{}(\"X.back\")] endmodule []"}}
{"jsonrpc":"2.0","id":2,"method":"execute","params":{"state":{"format":"KORE","version":1,"term":{"args":[],"name":"LblOne","sorts":[],"tag":"App"}},"module":"m13942e9e5173087047b8d210c6ce6439848a699f330f3fa08b6db5c9aa3e7dea","terminal-rules":["TOYS.go","TOYS#1","X.back","m13942e9e5173087047b8d210c6ce6439848a699f330f3fa08b6db5c9aa3e7dea#2"]}}
{"jsonrpc":"2.0","id":2,"method":"execute","params":{"state":{"format":"KORE","version":1,"term":{"args":[],"name":"LblTwo","sorts":[],"tag":"App"}},"module":"m13942e9e5173087047b8d210c6ce6439848a699f330f3fa08b6db5c9aa3e7dea","terminal-rules":["TOYS.go","TOYS#1","X.back","m13942e9e5173087047b8d210c6ce6439848a699f330f3fa08b6db5c9aa3e7dea#2"]}}
{"jsonrpc":"2.0","id":2,"method":"execute","params":{"state":{"format":"KORE","version":1,"term":{"args":[],"name":"LblOne","sorts":[],"tag":"App"}},"module":"TOYS","terminal-rules":["TOYS.go","TOYS#1","X.back","m13942e9e5173087047b8d210c6ce6439848a699f330f3fa08b6db5c9aa3e7dea#2"]}}"#,
        r#"{"id":1,"jsonrpc":"2.0","result":{"module":"m13942e9e5173087047b8d210c6ce6439848a699f330f3fa08b6db5c9aa3e7dea"}}
{"id":2,"jsonrpc":"2.0","result":{"depth":1,"reason":"terminal-rule","rule":"TOYS.go","state":{"term":{"format":"KORE","term":{"args":[],"name":"LblTwo","sorts":[],"tag":"App"},"version":1}}}}
{"id":2,"jsonrpc":"2.0","result":{"depth":1,"reason":"terminal-rule","rule":"X.back","state":{"term":{"format":"KORE","term":{"args":[],"name":"LblOne","sorts":[],"tag":"App"},"version":1}}}}
{"id":2,"jsonrpc":"2.0","result":{"depth":1,"reason":"terminal-rule","rule":"TOYS.go","state":{"term":{"format":"KORE","term":{"args":[],"name":"LblTwo","sorts":[],"tag":"App"},"version":1}}}}"#,
    ),
    (
        "no label",
        r#"{"jsonrpc":"2.0","id":1,"method":"add-module","params":{"module":"module X import TOYS [] axiom{} \\top{SortS{}}() [] axiom{} \\rewrites{SortS{}}(LblTwo{}(), LblOne{}()) [] endmodule []"}}
{"jsonrpc":"2.0","id":2,"method":"execute","params":{"state":{"format":"KORE","version":1,"term":{"args":[],"name":"LblOne","sorts":[],"tag":"App"}},"module":"m59c192f9386eeb78767c51499d08a9270ab4b9fc3a4d19b46dad5f1125883821","terminal-rules":["TOYS.go","TOYS#1","X.back","m59c192f9386eeb78767c51499d08a9270ab4b9fc3a4d19b46dad5f1125883821#2"]}}
{"jsonrpc":"2.0","id":2,"method":"execute","params":{"state":{"format":"KORE","version":1,"term":{"args":[],"name":"LblTwo","sorts":[],"tag":"App"}},"module":"m59c192f9386eeb78767c51499d08a9270ab4b9fc3a4d19b46dad5f1125883821","terminal-rules":["TOYS.go","TOYS#1","X.back","m59c192f9386eeb78767c51499d08a9270ab4b9fc3a4d19b46dad5f1125883821#2"]}}
{"jsonrpc":"2.0","id":2,"method":"execute","params":{"state":{"format":"KORE","version":1,"term":{"args":[],"name":"LblOne","sorts":[],"tag":"App"}},"module":"TOYS","terminal-rules":["TOYS.go","TOYS#1","X.back","m59c192f9386eeb78767c51499d08a9270ab4b9fc3a4d19b46dad5f1125883821#2"]}}"#,
        r#"{"id":1,"jsonrpc":"2.0","result":{"module":"m59c192f9386eeb78767c51499d08a9270ab4b9fc3a4d19b46dad5f1125883821"}}
{"id":2,"jsonrpc":"2.0","result":{"depth":1,"reason":"terminal-rule","rule":"TOYS.go","state":{"term":{"format":"KORE","term":{"args":[],"name":"LblTwo","sorts":[],"tag":"App"},"version":1}}}}
{"id":2,"jsonrpc":"2.0","result":{"depth":1,"reason":"terminal-rule","rule":"m59c192f9386eeb78767c51499d08a9270ab4b9fc3a4d19b46dad5f1125883821#2","state":{"term":{"format":"KORE","term":{"args":[],"name":"LblOne","sorts":[],"tag":"App"},"version":1}}}}
{"id":2,"jsonrpc":"2.0","result":{"depth":1,"reason":"terminal-rule","rule":"TOYS.go","state":{"term":{"format":"KORE","term":{"args":[],"name":"LblTwo","sorts":[],"tag":"App"},"version":1}}}}"#,
    ),
];

#[test]
fn ids_go_by_all_labels_of_a_rule_set(rt: HostRuntime) -> Result<(), Fail> {
    are_replied(&rt, rt.alloc(), Asked::Small, &LABELS)
}

/// Modules that reach main's rule by several ways: next states are told in the order of the rules.
static DIAMONDS: [Row; 2] = [
    (
        "two modules over main, and one over both",
        r#"{"jsonrpc":"2.0","id":1,"method":"add-module","params":{"module":"module A import TOYS [] axiom{} \\rewrites{SortS{}}(LblOne{}(), LblA{}()) [] endmodule []","name-as-id":true}}
{"jsonrpc":"2.0","id":1,"method":"add-module","params":{"module":"module B import TOYS [] axiom{} \\rewrites{SortS{}}(LblOne{}(), LblB{}()) [] endmodule []","name-as-id":true}}
{"jsonrpc":"2.0","id":1,"method":"add-module","params":{"module":"module C import B [] import A [] axiom{} \\rewrites{SortS{}}(LblOne{}(), LblC{}()) [] endmodule []","name-as-id":true}}
{"jsonrpc":"2.0","id":2,"method":"execute","params":{"state":{"format":"KORE","version":1,"term":{"args":[],"name":"LblOne","sorts":[],"tag":"App"}},"module":"A"}}
{"jsonrpc":"2.0","id":2,"method":"execute","params":{"state":{"format":"KORE","version":1,"term":{"args":[],"name":"LblOne","sorts":[],"tag":"App"}},"module":"B"}}
{"jsonrpc":"2.0","id":2,"method":"execute","params":{"state":{"format":"KORE","version":1,"term":{"args":[],"name":"LblOne","sorts":[],"tag":"App"}},"module":"C"}}"#,
        r#"{"id":1,"jsonrpc":"2.0","result":{"module":"ma27f1fe3f73e7bbe586f0ddc9fabda77e01f8ff537a88576da0b2402a1047581"}}
{"id":1,"jsonrpc":"2.0","result":{"module":"m9748d318bb557ccee68a49bc299553638b7537ff5bc444b9b5bdf4656624bed8"}}
{"id":1,"jsonrpc":"2.0","result":{"module":"m3c5fa96f989ff0dfc282dab3301368ca9a7aecc8d4eb32cbd3e694292e2251a7"}}
{"id":2,"jsonrpc":"2.0","result":{"depth":0,"next-states":[{"rule-id":"TOYS.go","rule-predicate":{"format":"KORE","term":{"sort":{"args":[],"name":"SortS","tag":"SortApp"},"tag":"Top"},"version":1},"term":{"format":"KORE","term":{"args":[],"name":"LblTwo","sorts":[],"tag":"App"},"version":1}},{"rule-id":"ma27f1fe3f73e7bbe586f0ddc9fabda77e01f8ff537a88576da0b2402a1047581#1","rule-predicate":{"format":"KORE","term":{"sort":{"args":[],"name":"SortS","tag":"SortApp"},"tag":"Top"},"version":1},"term":{"format":"KORE","term":{"args":[],"name":"LblA","sorts":[],"tag":"App"},"version":1}}],"reason":"branching","state":{"term":{"format":"KORE","term":{"args":[],"name":"LblOne","sorts":[],"tag":"App"},"version":1}}}}
{"id":2,"jsonrpc":"2.0","result":{"depth":0,"next-states":[{"rule-id":"TOYS.go","rule-predicate":{"format":"KORE","term":{"sort":{"args":[],"name":"SortS","tag":"SortApp"},"tag":"Top"},"version":1},"term":{"format":"KORE","term":{"args":[],"name":"LblTwo","sorts":[],"tag":"App"},"version":1}},{"rule-id":"m9748d318bb557ccee68a49bc299553638b7537ff5bc444b9b5bdf4656624bed8#1","rule-predicate":{"format":"KORE","term":{"sort":{"args":[],"name":"SortS","tag":"SortApp"},"tag":"Top"},"version":1},"term":{"format":"KORE","term":{"args":[],"name":"LblB","sorts":[],"tag":"App"},"version":1}}],"reason":"branching","state":{"term":{"format":"KORE","term":{"args":[],"name":"LblOne","sorts":[],"tag":"App"},"version":1}}}}
{"id":2,"jsonrpc":"2.0","result":{"depth":0,"next-states":[{"rule-id":"TOYS.go","rule-predicate":{"format":"KORE","term":{"sort":{"args":[],"name":"SortS","tag":"SortApp"},"tag":"Top"},"version":1},"term":{"format":"KORE","term":{"args":[],"name":"LblTwo","sorts":[],"tag":"App"},"version":1}},{"rule-id":"m9748d318bb557ccee68a49bc299553638b7537ff5bc444b9b5bdf4656624bed8#1","rule-predicate":{"format":"KORE","term":{"sort":{"args":[],"name":"SortS","tag":"SortApp"},"tag":"Top"},"version":1},"term":{"format":"KORE","term":{"args":[],"name":"LblB","sorts":[],"tag":"App"},"version":1}},{"rule-id":"ma27f1fe3f73e7bbe586f0ddc9fabda77e01f8ff537a88576da0b2402a1047581#1","rule-predicate":{"format":"KORE","term":{"sort":{"args":[],"name":"SortS","tag":"SortApp"},"tag":"Top"},"version":1},"term":{"format":"KORE","term":{"args":[],"name":"LblA","sorts":[],"tag":"App"},"version":1}},{"rule-id":"m3c5fa96f989ff0dfc282dab3301368ca9a7aecc8d4eb32cbd3e694292e2251a7#1","rule-predicate":{"format":"KORE","term":{"sort":{"args":[],"name":"SortS","tag":"SortApp"},"tag":"Top"},"version":1},"term":{"format":"KORE","term":{"args":[],"name":"LblC","sorts":[],"tag":"App"},"version":1}}],"reason":"branching","state":{"term":{"format":"KORE","term":{"args":[],"name":"LblOne","sorts":[],"tag":"App"},"version":1}}}}"#,
    ),
    (
        "main between two modules that import it",
        r#"{"jsonrpc":"2.0","id":1,"method":"add-module","params":{"module":"module A import TOYS [] axiom{} \\top{SortS{}}() [] axiom{} \\rewrites{SortS{}}(LblOne{}(), LblA{}()) [] endmodule []","name-as-id":true}}
{"jsonrpc":"2.0","id":1,"method":"add-module","params":{"module":"module B import TOYS [] axiom{} \\top{SortS{}}() [] axiom{} \\rewrites{SortS{}}(LblOne{}(), LblB{}()) [] endmodule []","name-as-id":true}}
{"jsonrpc":"2.0","id":1,"method":"add-module","params":{"module":"module C import B [] import TOYS [] import A [] axiom{} \\top{SortS{}}() [] axiom{} \\rewrites{SortS{}}(LblOne{}(), LblC{}()) [] endmodule []","name-as-id":true}}
{"jsonrpc":"2.0","id":2,"method":"execute","params":{"state":{"format":"KORE","version":1,"term":{"args":[],"name":"LblOne","sorts":[],"tag":"App"}},"module":"C"}}"#,
        r#"{"id":1,"jsonrpc":"2.0","result":{"module":"m66e4096044b1cb3da13af3769d62f254df424e62efa3eb21523d3aa7fc39750e"}}
{"id":1,"jsonrpc":"2.0","result":{"module":"mc78bd66a64dba7d6ec56501f0f147a4c4281d2bd4781fb794b6b6de3541f76e0"}}
{"id":1,"jsonrpc":"2.0","result":{"module":"mb7dd63bda8fee604003720b35155c16ae5a38d9143a5ea9514cb62af956d871e"}}
{"id":2,"jsonrpc":"2.0","result":{"depth":0,"next-states":[{"rule-id":"TOYS.go","rule-predicate":{"format":"KORE","term":{"sort":{"args":[],"name":"SortS","tag":"SortApp"},"tag":"Top"},"version":1},"term":{"format":"KORE","term":{"args":[],"name":"LblTwo","sorts":[],"tag":"App"},"version":1}},{"rule-id":"mc78bd66a64dba7d6ec56501f0f147a4c4281d2bd4781fb794b6b6de3541f76e0#2","rule-predicate":{"format":"KORE","term":{"sort":{"args":[],"name":"SortS","tag":"SortApp"},"tag":"Top"},"version":1},"term":{"format":"KORE","term":{"args":[],"name":"LblB","sorts":[],"tag":"App"},"version":1}},{"rule-id":"m66e4096044b1cb3da13af3769d62f254df424e62efa3eb21523d3aa7fc39750e#2","rule-predicate":{"format":"KORE","term":{"sort":{"args":[],"name":"SortS","tag":"SortApp"},"tag":"Top"},"version":1},"term":{"format":"KORE","term":{"args":[],"name":"LblA","sorts":[],"tag":"App"},"version":1}},{"rule-id":"mb7dd63bda8fee604003720b35155c16ae5a38d9143a5ea9514cb62af956d871e#2","rule-predicate":{"format":"KORE","term":{"sort":{"args":[],"name":"SortS","tag":"SortApp"},"tag":"Top"},"version":1},"term":{"format":"KORE","term":{"args":[],"name":"LblC","sorts":[],"tag":"App"},"version":1}}],"reason":"branching","state":{"term":{"format":"KORE","term":{"args":[],"name":"LblOne","sorts":[],"tag":"App"},"version":1}}}}"#,
    ),
];

#[test]
fn each_rule_of_a_diamond_comes_once(rt: HostRuntime) -> Result<(), Fail> {
    are_replied(&rt, rt.alloc(), Asked::Fan, &DIAMONDS)
}

/// Modules that are taken or refused for a sentence, and the number of the next entry.
static FAULTS: [additions::Row; 7] = [
    (
        "a module without sentences",
        &[("module X endmodule []", false)],
        &[
            r#"{"id":1,"jsonrpc":"2.0","result":{"module":"mfe718d27d84d393370c4a0b468031e0bf9629b87e285bbff9744770e0a59e5b8"}}"#,
        ],
        "2",
    ),
    (
        "a sort behind an import",
        &[(
            "module X import TOYS [] sort SortT{} [] endmodule []",
            false,
        )],
        &[
            r#"{"error":{"code":8,"data":{"kind":"M7","sentence":2},"message":"Invalid module"},"id":1,"jsonrpc":"2.0"}"#,
        ],
        "1",
    ),
    (
        "a symbol",
        &[("module X symbol LblX{}() : SortS{} [] endmodule []", false)],
        &[
            r#"{"error":{"code":8,"data":{"kind":"M7","sentence":1},"message":"Invalid module"},"id":1,"jsonrpc":"2.0"}"#,
        ],
        "1",
    ),
    (
        "a claim",
        &[(
            r#"module X axiom{} \\top{SortS{}}() [] claim{} \\top{SortS{}}() [] endmodule []"#,
            false,
        )],
        &[
            r#"{"error":{"code":8,"data":{"kind":"M7","sentence":2},"message":"Invalid module"},"id":1,"jsonrpc":"2.0"}"#,
        ],
        "1",
    ),
    (
        "the second axiom behind a sort",
        &[(
            r#"module X sort SortT{} [] axiom{} \\top{SortS{}}() [] axiom{} \\rewrites{SortS{}}(LblOne{}(), LblNone{}()) [] endmodule []"#,
            false,
        )],
        &[
            r#"{"error":{"code":8,"data":{"axiom":2,"kind":"M6"},"message":"Invalid module"},"id":1,"jsonrpc":"2.0"}"#,
        ],
        "1",
    ),
    (
        "foreign by its sort parameter, and faulty",
        &[(
            r#"module X axiom{R} \\rewrites{SortS{}}(LblOne{}(), LblNone{}()) [] endmodule []"#,
            false,
        )],
        &[
            r#"{"error":{"code":8,"data":{"axiom":1,"kind":"M6"},"message":"Invalid module"},"id":1,"jsonrpc":"2.0"}"#,
        ],
        "1",
    ),
    (
        "foreign by its priority, and not faulty",
        &[(
            r#"module X axiom{} \\rewrites{SortS{}}(LblOne{}(), LblTwo{}()) [priority{}(\"many\")] endmodule []"#,
            false,
        )],
        &[
            r#"{"id":1,"jsonrpc":"2.0","result":{"module":"ma9660b5490e7fab9913326dc163105c66d7af161196b06dd04d3f73212ba912b"}}"#,
        ],
        "2",
    ),
];

#[test]
fn faults_of_added_modules(rt: HostRuntime) -> Result<(), Fail> {
    are_added(&rt, rt.alloc(), &FAULTS)
}
