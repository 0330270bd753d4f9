use kp_kore::Module;
use kp_text::{FaultKind, ReadError, TextFault, read_definition, read_pattern};
use std::alloc::Global;

/// The first fault of a pattern's text.
fn fault_of(alloc: Global, text: &str) -> Option<TextFault> {
    match read_pattern(alloc, text.as_bytes()) {
        Err(ReadError::Fault(fault)) => Some(fault),
        Err(ReadError::Memory) | Ok(_) => None,
    }
}

/// Texts, and the place and the kind of their first fault.
static FAULTS: [(&str, usize, FaultKind); 3] = [
    ("\\top{S{}}(", 10, FaultKind::End),
    ("\\dv{S{}}(\"a\\q\")", 9, FaultKind::String),
    ("/* x", 4, FaultKind::End),
];

#[test]
fn first_faults(rt: HostRuntime) {
    for (text, at, kind) in &FAULTS {
        let fault = TextFault {
            at: *at,
            kind: *kind,
        };
        assert_eq!(rt; fault_of(rt.alloc(), text), Some(fault));
    }
}

/// A definition of two modules, the first with three sentences.
const TWO: &str =
    "[] module M sort S{} [] symbol f{R}(S{}, R) : S{} [hook{}(\"f\")] axiom{R} \\left-assoc{}(f{R}(X:S{}, @Y:R, \\and{S{}}())) [] endmodule [] module N import M [] claim{} \\top{S{}}() [] endmodule []";

/// The number of sentences in the first of these modules, 0 where there is none.
fn first_length(modules: &[Module]) -> usize {
    match modules.first() {
        Some(module) => module.sentences.len(),
        None => 0,
    }
}

/// The number of modules, and of sentences in the first.
fn counts(alloc: Global, text: &str) -> Option<(usize, usize)> {
    match read_definition(alloc, text.as_bytes()) {
        Ok(definition) => Some((definition.modules.len(), first_length(&definition.modules))),
        Err(_) => None,
    }
}

#[test]
fn a_definition_is_read(rt: HostRuntime) {
    assert_eq!(rt; counts(rt.alloc(), TWO), Some((2, 3)));
}
