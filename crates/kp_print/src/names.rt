ghost use Rattle.std.specs.Prelude.{◌≡◌, ◌++◌, [], OnOk, string_bytes};
ghost use Rattle.kp_kore.specs.View.{sort_view, sorts_view, names_view};
ghost use Rattle.kp_print.specs.Printed.{variable_text, names_after, parameters_text, signature_text};

use crate::sorts::{push_sort, push_sorts};
use kp_kore::{Name, Sort};
use std::alloc::AllocError;

/// `x:S`.
pub fn push_variable(name: &str, sort: &Sort, text: &mut String) -> Result<(), AllocError>
    ensures { OnOk result (string_bytes text.new ≡ string_bytes text.old ++ variable_text name.now (sort_view sort.now)) }
{
    text.push_str(name)?;
    text.push_str(":")?;
    push_sort(sort, text)
}

/// Names with commas between them.
fn push_names(names: &[Name], text: &mut String) -> Result<(), AllocError>
    ensures { OnOk result (string_bytes text.new ≡ string_bytes text.old ++ names_after [] (names_view names.now)) }
{
    let mut before = "";
    for name in names {
        text.push_str(before)?;
        push_name(name, text)?;
        before = ",";
    }
    Ok(())
}

/// A name.
fn push_name(name: &Name, text: &mut String) -> Result<(), AllocError>
    ensures { OnOk result (string_bytes text.new ≡ string_bytes text.old ++ string_bytes name.now) }
{
    text.push_str(name)
}

/// Names in braces.
pub fn push_parameters(names: &[Name], text: &mut String) -> Result<(), AllocError>
    ensures { OnOk result (string_bytes text.new ≡ string_bytes text.old ++ parameters_text (names_view names.now)) }
{
    text.push_str("{")?;
    push_names(names, text)?;
    text.push_str("}")
}

/// `name{parameters}(sorts):sort`.
pub fn push_signature(
    name: &str,
    parameters: &[Name],
    arguments: &[Sort],
    result_sort: &Sort,
    text: &mut String,
) -> Result<(), AllocError>
    ensures { let parameters' = names_view parameters.now in let arguments' = sorts_view arguments.now in OnOk result (string_bytes text.new ≡ string_bytes text.old ++ signature_text name.now parameters' arguments' (sort_view result_sort.now)) }
{
    text.push_str(name)?;
    push_parameters(parameters, text)?;
    text.push_str("(")?;
    push_sorts(arguments, text)?;
    text.push_str("):")?;
    push_sort(result_sort, text)
}
