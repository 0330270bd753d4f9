// The pairs of sorts that attributes give.
ghost use Rattle.std.specs.Prelude.{◌≡◌, ◌++◌, OnOk, codes, map};
ghost use Rattle.std.specs.Option.{option_map};
ghost use Rattle.kp_kore.specs.Syntax.{application, next_pattern, no_patterns};
ghost use Rattle.kp_kore.specs.Attributes.{marked_sorts};
ghost use Rattle.kp_kore.specs.Signature.{subsorts_among};
ghost use Rattle.kp_kore.specs.View.{sort_view, sorts_view, view, patterns_view};
ghost use Rattle.kp_signature.specs.Pairs.{subsort_view};

use crate::Subsort;
use kp_kore::{Pattern, Sort};
use std::alloc::{AllocError, Global};

/// The two sorts of a subsort mark.
fn subsort_of(attribute: &Pattern) -> Option<(&Sort, &Sort)>
    ensures { option_map (λ p. (sort_view p.0.now, sort_view p.1.now)) result ≡ marked_sorts (codes "subsort") (view attribute.now) }
{
    match attribute {
        Pattern::Application {
            symbol,
            sorts,
            arguments,
        } => sorts_marked(symbol, sorts, arguments),
        _ => None,
    }
}

/// The two sorts of an application that is a subsort mark.
fn sorts_marked<'a>(
    symbol: &str,
    sorts: &'a [Sort],
    arguments: &[Pattern],
) -> Option<(&'a Sort, &'a Sort)>
    ensures { let sorts' = sorts_view sorts.now in let arguments' = patterns_view arguments.now in option_map (λ p. (sort_view p.0.now, sort_view p.1.now)) result ≡ marked_sorts (codes "subsort") (application symbol.now sorts' arguments') }
{
    if symbol == "subsort" && sorts.len() == 2 && arguments.len() == 0 {
        Some((&sorts[0], &sorts[1]))
    } else {
        None
    }
}

/// Adds the pairs of the attributes `subsort{A,B}()`.
pub fn add_subsorts(
    subsorts: &mut Vec<Subsort>,
    alloc: Global,
    attributes: &[Pattern],
) -> Result<(), AllocError>
    ensures { OnOk result (map subsort_view subsorts.new.items ≡ map subsort_view subsorts.old.items ++ subsorts_among (patterns_view attributes.now)) }
{
    for attribute in attributes {
        add_subsort(subsorts, alloc, attribute)?;
    }
    Ok(())
}

/// Adds the pair that an attribute states, if it does.
fn add_subsort(
    subsorts: &mut Vec<Subsort>,
    alloc: Global,
    attribute: &Pattern,
) -> Result<(), AllocError>
    ensures { let attribute' = view attribute.now in OnOk result (map subsort_view subsorts.new.items ≡ map subsort_view subsorts.old.items ++ subsorts_among (next_pattern attribute' no_patterns)) }
{
    match subsort_of(attribute) {
        Some((lower, upper)) => {
            let pair = Subsort {
                lower: lower.copy(alloc)?,
                upper: upper.copy(alloc)?,
            };
            Ok(subsorts.push(pair)?)
        }
        None => Ok(()),
    }
}
