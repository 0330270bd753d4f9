use crate::answers::each_is_answered;

/// Batches, and their replies between lines of brackets.
const BATCHES: [(&str, &str); 6] = [
    // each member is a call of its own
    (
        "[1]",
        "[\n{\"error\":{\"code\":-32600,\"message\":\"Invalid Request\"},\"id\":null,\"jsonrpc\":\"2.0\"}\n]\n",
    ),
    (
        r#"[[{"jsonrpc":"2.0","id":1,"method":"x"}]]"#,
        "[\n{\"error\":{\"code\":-32600,\"message\":\"Invalid Request\"},\"id\":null,\"jsonrpc\":\"2.0\"}\n]\n",
    ),
    // replies stand in the order of their calls
    (
        r#"[{"jsonrpc":"2.0","id":1,"method":"add-module","params":{"module":"m"}},{"jsonrpc":"2.0","id":2,"method":"get-model"}]"#,
        "[\nread\n{\"error\":{\"code\":-32601,\"message\":\"Method not found\"},\"id\":2,\"jsonrpc\":\"2.0\"}\n]\n",
    ),
    (
        r#"[{"jsonrpc":"2.0","id":2,"method":"x"},{"jsonrpc":"2.0","id":1,"method":"execute"}]"#,
        "[\n{\"error\":{\"code\":-32601,\"message\":\"Method not found\"},\"id\":2,\"jsonrpc\":\"2.0\"}\n{\"error\":{\"code\":-32602,\"message\":\"Invalid params\"},\"id\":1,\"jsonrpc\":\"2.0\"}\n]\n",
    ),
    // notifications in a batch have no reply
    (
        r#"[{"jsonrpc":"2.0","method":"x"},{"jsonrpc":"2.0","method":"execute"}]"#,
        "[\n]\n",
    ),
    (
        r#"[{"jsonrpc":"2.0","method":"x"},{"jsonrpc":"2.0","id":null,"method":"x"}]"#,
        "[\n{\"error\":{\"code\":-32601,\"message\":\"Method not found\"},\"id\":null,\"jsonrpc\":\"2.0\"}\n]\n",
    ),
];

/// Each call of a batch is answered on its own.
#[test]
fn batches_are_answered_call_by_call(rt: HostRuntime) {
    each_is_answered(&rt, rt.alloc(), &BATCHES);
}
