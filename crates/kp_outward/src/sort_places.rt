// Variables and applications as patterns, at the sorts of their places.
ghost use Rattle.std.specs.Prelude.{◌≡◌, IfOk, string_bytes, unwrap_or};
ghost use Rattle.kp_kore.specs.Sorting.{result_sort};
ghost use Rattle.kp_kore.specs.Syntax.{application, no_sorts, variable as variable_pattern};
ghost use Rattle.kp_kore.specs.View.{view, sort_view, patterns_view};
ghost use Rattle.kp_signature.specs.Places.{own_sort as sort_of_pattern};
ghost use Rattle.kp_signature.specs.View.{signature_view};
ghost use Rattle.kp_compile.specs.Spelled.{placed};
ghost use Rattle.kp_symbolic.specs.View.{variable_view};

use kp_compile::placed_at;
use kp_kore::{Name, Pattern, Sort};
use kp_pattern_substitution::build::application_of;
use kp_signature::{Signature, own_sort};
use kp_symbolic::Variable;
use std::alloc::{AllocError, Global};

/// A variable as a pattern of its own sort.
pub fn variable_out(alloc: Global, variable: &Variable) -> Result<Pattern, AllocError>
    ensures { let x = variable_view variable.now in IfOk result (λ p. view p ≡ variable_pattern x.name x.sort) }
{
    Ok(Pattern::Variable {
        name: variable.name.clone()?,
        sort: variable.sort.copy(alloc)?,
    })
}

/// A variable as a pattern of this sort.
pub fn variable_at(alloc: Global, variable: &Variable, sort: &Sort) -> Result<Pattern, AllocError>
    ensures { let x = variable_view variable.now in IfOk result (λ p. view p ≡ placed x.sort (sort_view sort.now) (variable_pattern x.name x.sort)) }
{
    let own = variable.sort.copy(alloc)?;
    let inner = variable_out(alloc, variable)?;
    placed_at(alloc, own, sort, inner)
}

/// The sort of a pattern, or this sort where its symbol isn't declared.
fn sort_or(
    alloc: Global,
    signature: &Signature,
    pattern: &Pattern,
    sort: &Sort,
) -> Result<Sort, AllocError>
    ensures { let own = sort_of_pattern (signature_view signature.now) (view pattern.now) in IfOk result (λ s. sort_view s ≡ unwrap_or own (sort_view sort.now)) }
{
    match own_sort(alloc, signature, pattern)? {
        Some(own) => Ok(own),
        None => sort.copy(alloc),
    }
}

/// A symbol applied to these patterns, as a pattern of this sort.
pub fn applied_at(
    alloc: Global,
    signature: &Signature,
    symbol: &Name,
    sort: &Sort,
    arguments: Vec<Pattern>,
) -> Result<Pattern, AllocError>
    ensures { let f = string_bytes symbol.now in let s = sort_view sort.now in let own' = unwrap_or (result_sort (signature_view signature.now) f no_sorts) s in IfOk result (λ p. view p ≡ placed own' s (application f no_sorts (patterns_view arguments.items))) }
{
    let inner = application_of(alloc, symbol, &[], arguments)?;
    let own = sort_or(alloc, signature, &inner, sort)?;
    placed_at(alloc, own, sort, inner)
}
