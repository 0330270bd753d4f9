// The hooks that have a meaning, by their names.
ghost use Rattle.std.specs.Prelude.{◌≡◌};
ghost use Rattle.std.specs.Option.{option_map};
ghost use Rattle.kp_kore.specs.Hooks.{found_under, hook_named};
ghost use Rattle.kp_signature.specs.Meanings.{function_view, rows_view};

use crate::function::Function;
use kp_kore::{Arithmetic, Comparison, Connective, Hook};

/// The names of hooks with their functions, in the order of the table of the definitions.
static HOOKS: [(&str, Function); 19] = [
    (
        "INT.add",
        Function::Two(Hook::Arithmetic(Arithmetic::Addition)),
    ),
    (
        "INT.sub",
        Function::Two(Hook::Arithmetic(Arithmetic::Subtraction)),
    ),
    (
        "INT.mul",
        Function::Two(Hook::Arithmetic(Arithmetic::Multiplication)),
    ),
    ("INT.eq", Function::Two(Hook::Comparison(Comparison::Equal))),
    (
        "INT.ne",
        Function::Two(Hook::Comparison(Comparison::Different)),
    ),
    ("INT.lt", Function::Two(Hook::Comparison(Comparison::Less))),
    (
        "INT.le",
        Function::Two(Hook::Comparison(Comparison::AtMost)),
    ),
    (
        "INT.gt",
        Function::Two(Hook::Comparison(Comparison::Greater)),
    ),
    (
        "INT.ge",
        Function::Two(Hook::Comparison(Comparison::AtLeast)),
    ),
    (
        "BOOL.and",
        Function::Two(Hook::Connective(Connective::Both)),
    ),
    (
        "BOOL.andThen",
        Function::Two(Hook::Connective(Connective::Both)),
    ),
    (
        "BOOL.or",
        Function::Two(Hook::Connective(Connective::Either)),
    ),
    (
        "BOOL.orElse",
        Function::Two(Hook::Connective(Connective::Either)),
    ),
    ("BOOL.not", Function::Negation),
    (
        "BOOL.implies",
        Function::Two(Hook::Connective(Connective::Implies)),
    ),
    ("BOOL.eq", Function::Two(Hook::Connective(Connective::Same))),
    (
        "BOOL.ne",
        Function::Two(Hook::Connective(Connective::Other)),
    ),
    ("KEQUAL.eq", Function::Two(Hook::Equal)),
    ("KEQUAL.ne", Function::Two(Hook::Different)),
];

/// The function of the first of these rows that has the name.
fn found_among(rows: &[(&str, Function)], name: &str) -> Option<Function>
    ensures { option_map function_view result ≡ found_under name.now (rows_view rows.now) }
{
    for row in rows {
        if row.0 == name {
            return Some(row.1);
        }
    }
    None
}

/// The function of a hook's name, where it is one of the table.
pub fn function_named(name: &str) -> Option<Function>
    ensures { option_map function_view result ≡ hook_named name.now }
{
    found_among(&HOOKS, name)
}
