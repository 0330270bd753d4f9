use kp_registry::id_of;
use std::test::Fail;

/// Whether the id of this text is that.
fn is_id(text: &str, id: &str) -> bool {
    id_of(text.as_bytes()).as_slice() == id.as_bytes()
}

/// Texts and their ids.
static IDS: [(&str, &str); 2] = [
    (
        "abc",
        "mba7816bf8f01cfea414140de5dae2223b00361a396177a9cb410ff61f20015ad",
    ),
    (
        "",
        "me3b0c44298fc1c149afbf4c8996fb92427ae41e4649b934ca495991b7852b855",
    ),
];

#[test]
fn ids_are_digests(_rt: HostRuntime) -> Result<(), Fail> {
    for (text, id) in &IDS {
        if !is_id(text, id) {
            return Err(Fail::new(*id));
        }
    }
    Ok(())
}
