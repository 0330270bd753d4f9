use crate::definitions::Asked;
use crate::replies::{Row, are_replied};
use std::test::Fail;

/// How a module is added over main: what main, its id and its own name mean before and behind it, told by runs of at most two
/// steps. Main has one rule, the module has it and one that leads back.
static ROWS: [Row; 2] = [
    (
        "with its own name: by its id and that name",
        r#"{"jsonrpc":"2.0","id":2,"method":"execute","params":{"state":{"format":"KORE","version":1,"term":{"args":[],"name":"LblOne","sorts":[],"tag":"App"}},"module":"TOYS","max-depth":2}}
{"jsonrpc":"2.0","id":2,"method":"execute","params":{"state":{"format":"KORE","version":1,"term":{"args":[],"name":"LblOne","sorts":[],"tag":"App"}},"module":"m0d2a6fa375f09b4ee7f29c12d9caf51c07d31400eb28dc08de5099bb4200e142","max-depth":2}}
{"jsonrpc":"2.0","id":2,"method":"execute","params":{"state":{"format":"KORE","version":1,"term":{"args":[],"name":"LblOne","sorts":[],"tag":"App"}},"module":"NEXT","max-depth":2}}
{"jsonrpc":"2.0","id":1,"method":"add-module","params":{"module":"module NEXT import TOYS [] axiom{} \\rewrites{SortS{}}(LblTwo{}(), LblOne{}()) [] endmodule []","name-as-id":true}}
{"jsonrpc":"2.0","id":2,"method":"execute","params":{"state":{"format":"KORE","version":1,"term":{"args":[],"name":"LblOne","sorts":[],"tag":"App"}},"module":"TOYS","max-depth":2}}
{"jsonrpc":"2.0","id":2,"method":"execute","params":{"state":{"format":"KORE","version":1,"term":{"args":[],"name":"LblOne","sorts":[],"tag":"App"}},"module":"m0d2a6fa375f09b4ee7f29c12d9caf51c07d31400eb28dc08de5099bb4200e142","max-depth":2}}
{"jsonrpc":"2.0","id":2,"method":"execute","params":{"state":{"format":"KORE","version":1,"term":{"args":[],"name":"LblOne","sorts":[],"tag":"App"}},"module":"NEXT","max-depth":2}}"#,
        r#"{"id":2,"jsonrpc":"2.0","result":{"depth":1,"reason":"stuck","state":{"term":{"format":"KORE","term":{"args":[],"name":"LblTwo","sorts":[],"tag":"App"},"version":1}}}}
{"error":{"code":3,"data":{"name":"m0d2a6fa375f09b4ee7f29c12d9caf51c07d31400eb28dc08de5099bb4200e142"},"message":"Could not find module"},"id":2,"jsonrpc":"2.0"}
{"error":{"code":3,"data":{"name":"NEXT"},"message":"Could not find module"},"id":2,"jsonrpc":"2.0"}
{"id":1,"jsonrpc":"2.0","result":{"module":"m0d2a6fa375f09b4ee7f29c12d9caf51c07d31400eb28dc08de5099bb4200e142"}}
{"id":2,"jsonrpc":"2.0","result":{"depth":1,"reason":"stuck","state":{"term":{"format":"KORE","term":{"args":[],"name":"LblTwo","sorts":[],"tag":"App"},"version":1}}}}
{"id":2,"jsonrpc":"2.0","result":{"depth":2,"reason":"depth-bound","state":{"term":{"format":"KORE","term":{"args":[],"name":"LblOne","sorts":[],"tag":"App"},"version":1}}}}
{"id":2,"jsonrpc":"2.0","result":{"depth":2,"reason":"depth-bound","state":{"term":{"format":"KORE","term":{"args":[],"name":"LblOne","sorts":[],"tag":"App"},"version":1}}}}"#,
    ),
    (
        "without it: by its id alone",
        r#"{"jsonrpc":"2.0","id":2,"method":"execute","params":{"state":{"format":"KORE","version":1,"term":{"args":[],"name":"LblOne","sorts":[],"tag":"App"}},"module":"TOYS","max-depth":2}}
{"jsonrpc":"2.0","id":2,"method":"execute","params":{"state":{"format":"KORE","version":1,"term":{"args":[],"name":"LblOne","sorts":[],"tag":"App"}},"module":"m0d2a6fa375f09b4ee7f29c12d9caf51c07d31400eb28dc08de5099bb4200e142","max-depth":2}}
{"jsonrpc":"2.0","id":2,"method":"execute","params":{"state":{"format":"KORE","version":1,"term":{"args":[],"name":"LblOne","sorts":[],"tag":"App"}},"module":"NEXT","max-depth":2}}
{"jsonrpc":"2.0","id":1,"method":"add-module","params":{"module":"module NEXT import TOYS [] axiom{} \\rewrites{SortS{}}(LblTwo{}(), LblOne{}()) [] endmodule []"}}
{"jsonrpc":"2.0","id":2,"method":"execute","params":{"state":{"format":"KORE","version":1,"term":{"args":[],"name":"LblOne","sorts":[],"tag":"App"}},"module":"TOYS","max-depth":2}}
{"jsonrpc":"2.0","id":2,"method":"execute","params":{"state":{"format":"KORE","version":1,"term":{"args":[],"name":"LblOne","sorts":[],"tag":"App"}},"module":"m0d2a6fa375f09b4ee7f29c12d9caf51c07d31400eb28dc08de5099bb4200e142","max-depth":2}}
{"jsonrpc":"2.0","id":2,"method":"execute","params":{"state":{"format":"KORE","version":1,"term":{"args":[],"name":"LblOne","sorts":[],"tag":"App"}},"module":"NEXT","max-depth":2}}"#,
        r#"{"id":2,"jsonrpc":"2.0","result":{"depth":1,"reason":"stuck","state":{"term":{"format":"KORE","term":{"args":[],"name":"LblTwo","sorts":[],"tag":"App"},"version":1}}}}
{"error":{"code":3,"data":{"name":"m0d2a6fa375f09b4ee7f29c12d9caf51c07d31400eb28dc08de5099bb4200e142"},"message":"Could not find module"},"id":2,"jsonrpc":"2.0"}
{"error":{"code":3,"data":{"name":"NEXT"},"message":"Could not find module"},"id":2,"jsonrpc":"2.0"}
{"id":1,"jsonrpc":"2.0","result":{"module":"m0d2a6fa375f09b4ee7f29c12d9caf51c07d31400eb28dc08de5099bb4200e142"}}
{"id":2,"jsonrpc":"2.0","result":{"depth":1,"reason":"stuck","state":{"term":{"format":"KORE","term":{"args":[],"name":"LblTwo","sorts":[],"tag":"App"},"version":1}}}}
{"id":2,"jsonrpc":"2.0","result":{"depth":2,"reason":"depth-bound","state":{"term":{"format":"KORE","term":{"args":[],"name":"LblOne","sorts":[],"tag":"App"},"version":1}}}}
{"error":{"code":3,"data":{"name":"NEXT"},"message":"Could not find module"},"id":2,"jsonrpc":"2.0"}"#,
    ),
];

#[test]
fn a_module_is_found_by_its_names(rt: HostRuntime) -> Result<(), Fail> {
    are_replied(&rt, rt.alloc(), Asked::Small, &ROWS)
}
