ghost use Rattle.std.specs.Prelude.{◌≡◌, ◌++◌, OnOk, string_bytes};
ghost use Rattle.kp_kore.specs.View.{sort_view, sorts_view};
ghost use Rattle.kp_print.specs.Printed.{sort_text, sorts_text};

use kp_kore::Sort;
use std::alloc::AllocError;

/// A sort: `SortInt{}`, and the bare name of a sort variable.
#[cycle(sort)]
pub fn push_sort(sort: &Sort, text: &mut String) -> Result<(), AllocError>
    ensures { OnOk result (string_bytes text.new ≡ string_bytes text.old ++ sort_text (sort_view sort.now)) }
{
    match sort {
        Sort::App { name, arguments } => {
            text.push_str(name)?;
            text.push_str("{")?;
            push_sorts(arguments, text)?;
            text.push_str("}")
        }
        Sort::Variable { name } => text.push_str(name),
    }
}

/// Sorts with commas between them.
#[cycle(sort)]
pub fn push_sorts(sorts: &[Sort], text: &mut String) -> Result<(), AllocError>
    ensures { OnOk result (string_bytes text.new ≡ string_bytes text.old ++ sorts_text (sorts_view sorts.now)) }
{
    let mut before = "";
    for sort in sorts {
        text.push_str(before)?;
        push_sort(sort, text)?;
        before = ",";
    }
    Ok(())
}
