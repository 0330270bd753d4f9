// A state's term as a skeleton.
ghost use Rattle.std.specs.Prelude.{◌≡◌, IfOk, map, string_bytes};
ghost use Rattle.std.specs.Option.{option_map};
ghost use Rattle.kp_kore.specs.Sorting.{result_sort};
ghost use Rattle.kp_kore.specs.Syntax.{no_sorts};
ghost use Rattle.kp_kore.specs.View.{sort_view};
ghost use Rattle.kp_ground.specs.View.{value_view};
ghost use Rattle.kp_signature.specs.View.{signature_view};
ghost use Rattle.kp_symbolic.specs.View.{variable_view, term_view, terms_of};
ghost use Rattle.kp_rules.specs.Skeletons as model;
ghost use Rattle.kp_rules.specs.Skeletons.{skeleton_view, forms_of, maybe_form};
ghost use Rattle.kp_overlap.specs.Overlaps.{term_form, term_forms};

use kp_ground::Value;
use kp_ground::names::share_name;
use kp_kore::Sort;
use kp_pattern_substitution::build::application_of;
use kp_rules::Skeleton;
use kp_rules::skeleton::{any_of, one_value};
use kp_signature::{Meaning, Signature, meaning_of, own_sort};
use kp_symbolic::{Term, Variable};
use std::alloc::{AllocError, Global};
use std::sync::Arc;

/// The value of the variable.
fn variable_skeleton(alloc: Global, variable: &Variable) -> Result<Skeleton, AllocError>
    ensures { let x = variable_view variable.now in IfOk result (λ k. skeleton_view k ≡ model.one_of x.name x.sort) }
{
    one_value(alloc, &variable.name, &variable.sort)
}

/// Any value of the variable's sort.
fn sort_skeleton(alloc: Global, variable: &Variable) -> Result<Skeleton, AllocError>
    ensures { let x = variable_view variable.now in IfOk result (λ k. skeleton_view k ≡ model.any_of x.sort) }
{
    Ok(Skeleton::Any {
        sort: variable.sort.copy(alloc)?,
    })
}

/// The value itself.
fn known_skeleton(alloc: Global, value: &Value) -> Result<Skeleton, AllocError>
    ensures { IfOk result (λ k. skeleton_view k ≡ model.fixed (value_view value.now)) }
{
    Ok(Skeleton::Fixed {
        value: value.share(alloc)?,
    })
}

/// The constructor with these arguments.
fn built_skeleton(
    constructor: &Arc<String>,
    arguments: Vec<Skeleton>,
) -> Result<Skeleton, AllocError>
    ensures { IfOk result (λ k. skeleton_view k ≡ model.built (string_bytes constructor.now.value) (forms_of (map skeleton_view arguments.items))) }
{
    let constructor = share_name(constructor)?;
    Ok(Skeleton::Built {
        constructor,
        arguments,
    })
}

/// Any value of the sort, if there is one, else any value.
fn maybe_of(alloc: Global, sort: Option<Sort>) -> Result<Skeleton, AllocError>
    ensures { IfOk result (λ k. skeleton_view k ≡ maybe_form (option_map sort_view sort)) }
{
    match sort {
        Some(sort) => any_of(alloc, &sort),
        None => Ok(Skeleton::Anything),
    }
}

/// Any value of the call's sort.
fn call_skeleton(
    alloc: Global,
    signature: &Signature,
    symbol: &Arc<String>,
) -> Result<Skeleton, AllocError>
    ensures { IfOk result (λ k. skeleton_view k ≡ maybe_form (result_sort (signature_view signature.now) (string_bytes symbol.now.value) no_sorts)) }
{
    let call = application_of(alloc, symbol, &[], Vec::new(alloc))?;
    maybe_of(alloc, own_sort(alloc, signature, &call)?)
}

/// What the term may mean, its calls any value of their sorts.
#[cycle(term)]
pub fn term_skeleton(
    alloc: Global,
    signature: &Signature,
    term: &Term,
) -> Result<Skeleton, AllocError>
    ensures { IfOk result (λ k. skeleton_view k ≡ term_form (signature_view signature.now) (term_view term.now)) }
{
    match term {
        Term::Unknown { variable } => variable_skeleton(alloc, variable),
        Term::Offset { variable, .. } => sort_skeleton(alloc, variable),
        Term::Known { value } => known_skeleton(alloc, value),
        Term::Headed { symbol, arguments } => match meaning_of(signature, symbol) {
            Meaning::Constructor => {
                let arguments = term_skeletons(alloc, signature, arguments)?;
                built_skeleton(symbol, arguments)
            }
            Meaning::Injection => Ok(Skeleton::Nothing),
            Meaning::Interpreted(_) => call_skeleton(alloc, signature, symbol),
            Meaning::Foreign => call_skeleton(alloc, signature, symbol),
        },
    }
}

/// The same of each of these.
#[cycle(term)]
fn term_skeletons(
    alloc: Global,
    signature: &Signature,
    terms: &[Term],
) -> Result<Vec<Skeleton>, AllocError>
    ensures { IfOk result (λ ks. forms_of (map skeleton_view ks.items) ≡ term_forms (signature_view signature.now) (terms_of (map term_view terms.now))) }
{
    let mut made = Vec::new(alloc);
    for term in terms {
        made.push(term_skeleton(alloc, signature, term)?)?;
    }
    Ok(made)
}
