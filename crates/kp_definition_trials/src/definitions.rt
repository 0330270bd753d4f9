use crate::rows::{Asked, NONE, first_failed};
use kp_imports::LoadError;
use kp_kore::Module;
use kp_modules::reached;
use kp_text::read_definition;
use std::alloc::{AllocError, Global};

/// Adds the names of modules, each ended by a semicolon.
fn add_names(modules: &[&Module], told: &mut String) -> Result<(), AllocError> {
    for module in modules {
        told.push_str(module.name.as_str())?;
        told.push_str(";")?;
    }
    Ok(())
}

/// What is told where nothing is loaded.
fn fault(error: &LoadError) -> &'static str {
    match error {
        LoadError::Memory => "memory",
        LoadError::Fault(fault) => fault.code(),
    }
}

/// Adds what is reached of MAIN in a text's definition, in order, or the fault's code.
pub(crate) fn reached_told(alloc: Global, text: &str, told: &mut String) -> Result<(), AllocError> {
    let Ok(definition) = read_definition(alloc, text.as_bytes()) else {
        return told.push_str("no definition");
    };
    match reached(alloc, &definition, "MAIN") {
        Ok(modules) => add_names(&modules, told),
        Err(error) => told.push_str(fault(&error)),
    }
}

/// Modules, and what is reached of MAIN: imports come first and once.
const DEFINITIONS: &str =
    r"[] module MAIN import B [] import A [] import B [] endmodule [] module A import C [] endmodule [] module B import D [] import C [] endmodule [] module C endmodule [] module D endmodule [] module E import NOPE [] endmodule [] -> D;C;B;A;MAIN;
[] module MAIN import A [] endmodule [] module A import MAIN [] import NOPE [] endmodule [] -> M1
[] module MAIN import A [] endmodule [] module A import MAIN [] endmodule [] -> M2
[] module A import A [] endmodule [] -> M8
[] module A endmodule [] module A endmodule [] -> M5";

#[test]
fn imports_come_first_and_once(rt: HostRuntime) {
    assert_eq!(rt;
        first_failed(rt.alloc(), NONE, &[(Asked::Reached, DEFINITIONS)]),
        None
    );
}
