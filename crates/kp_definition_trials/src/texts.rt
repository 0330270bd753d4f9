// What texts spell.
use kp_compile::state_of;
use kp_ground::Value;
use kp_kore::{Module, Pattern, Sort};
use kp_signature::Signature;
use kp_text::{read_module, read_pattern};
use std::alloc::{AllocError, Global};
use std::test::Fail;

/// The pattern of a text.
pub(crate) fn pattern(alloc: Global, text: &str) -> Result<Pattern, Fail> {
    match read_pattern(alloc, text.as_bytes()) {
        Ok(pattern) => Ok(pattern),
        Err(_) => Err(Fail::from("no pattern")),
    }
}

/// The module of a text.
pub(crate) fn module(alloc: Global, text: &str) -> Result<Module, Fail> {
    match read_module(alloc, text.as_bytes()) {
        Ok(module) => Ok(module),
        Err(_) => Err(Fail::from("no module")),
    }
}

/// The signature of a module's text.
pub(crate) fn signature(alloc: Global, text: &str) -> Result<Signature, Fail> {
    let module = module(alloc, text)?;
    Ok(Signature::new(alloc, &[&module])?)
}

/// A sort of this name, without arguments.
pub(crate) fn sort(alloc: Global, name: &str) -> Result<Sort, AllocError> {
    let name = String::from_str(alloc, name)?;
    Ok(Sort::App {
        name,
        arguments: Vec::new(alloc),
    })
}

/// The value of a closed term's text; its sort isn't asked.
pub(crate) fn value(alloc: Global, signature: &Signature, text: &str) -> Result<Value, Fail> {
    let pattern = pattern(alloc, text)?;
    match state_of(alloc, signature, &pattern, sort(alloc, "S")?) {
        Ok(state) => Ok(state.value.share(alloc)?),
        Err(_) => Err(Fail::from("no value")),
    }
}
