// Sorts as Kore text.
ghost use Rattle.std.specs.Prelude.{◌≡◌, ◌++◌, OnOk, IfOk, string_bytes};
ghost use Rattle.kp_kore.specs.View.{sort_view, sorts_view};
ghost use Rattle.kp_signature.specs.Texts.{comma_before};
ghost use Rattle.kp_signature.specs.Verify.{sort_text as text_of_sort, sorts_text};

use kp_kore::Sort;
use std::alloc::{AllocError, Global};

/// A sort as Kore text: `SortInt{}`, and the bare name of a sort variable.
pub fn sort_text(alloc: Global, sort: &Sort) -> Result<String, AllocError>
    ensures { IfOk result (λ t. string_bytes t ≡ text_of_sort (sort_view sort.now)) }
{
    let mut text = String::new(alloc);
    add_sort(sort, &mut text)?;
    Ok(text)
}

/// Adds a sort as it is written.
#[cycle(text)]
fn add_sort(sort: &Sort, text: &mut String) -> Result<(), AllocError>
    ensures { OnOk result (string_bytes text.new ≡ string_bytes text.old ++ text_of_sort (sort_view sort.now)) }
{
    match sort {
        Sort::App { name, arguments } => {
            text.push_str(name)?;
            text.push_str("{")?;
            add_sorts(arguments, text)?;
            Ok(text.push_str("}")?)
        }
        Sort::Variable { name } => Ok(text.push_str(name)?),
    }
}

/// Sorts with commas between them.
#[cycle(text)]
fn add_sorts(sorts: &[Sort], text: &mut String) -> Result<(), AllocError>
    ensures { OnOk result (string_bytes text.new ≡ string_bytes text.old ++ sorts_text (sorts_view sorts.now)) }
{
    for i in 0..sorts.len() {
        add_comma(i, text)?;
        add_sort(&sorts[i], text)?;
    }
    Ok(())
}

/// What stands before the sort at a place: nothing before the first.
fn add_comma(place: usize, text: &mut String) -> Result<(), AllocError>
    ensures { OnOk result (string_bytes text.new ≡ string_bytes text.old ++ comma_before place) }
{
    if place == 0 {
        return Ok(());
    }
    Ok(text.push_str(",")?)
}
