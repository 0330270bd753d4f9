// The first fault of two sides.
ghost use Rattle.std.specs.Prelude.{◌≡◌, IfOk};
ghost use Rattle.std.specs.Option.{option_map};
ghost use Rattle.kp_kore.specs.Rules.{under_binders as body_of};
ghost use Rattle.kp_kore.specs.View.{view, sort_view};
ghost use Rattle.kp_signature.specs.View.{signature_view};
ghost use Rattle.kp_sides.specs.Decided.{are_one_sort as sorts_test, name_fault as name_fault_of, term_fault as term_fault_of, term_sort as term_sort_of};
ghost use Rattle.kp_sides.specs.Sides.{IsFirstFault};
ghost use Rattle.kp_sides.specs.View.{sides_fault_view};

use crate::binders::idle_binder;
use crate::side::body_of;
use crate::unclear::first_unclear;
use kp_compile::conjuncts;
use kp_formulas::equality::is_same_sort;
use kp_kore::{Name, Pattern, Sort};
use kp_rules::shape::{only, terms_among};
use kp_signature::{Signature, own_sort};
use std::alloc::{AllocError, Global};

/// Why two sides without a fault of their own aren't compared.
#[derive(Drop)]
pub enum ComparisonFault {
    /// I1: a binder that stands in no term, or behind which another has its name.
    Idle { name: Name },
    /// I2: sides that don't have one term each, of one sort.
    OtherTerms,
    /// I3: a free variable of two sorts, or with a binder's name.
    UnclearName { name: Name },
}

/// The sort of a side's one term.
fn term_sort(
    alloc: Global,
    signature: &Signature,
    pattern: &Pattern,
) -> Result<Option<Sort>, AllocError>
    ensures { IfOk result (λ o. option_map sort_view o ≡ term_sort_of (signature_view signature.now) (view pattern.now)) }
{
    let members = conjuncts(alloc, pattern)?;
    let terms = terms_among(alloc, &members)?;
    match only(&terms) {
        Some(term) => own_sort(alloc, signature, term),
        None => Ok(None),
    }
}

/// Whether there are two sorts, and they are one.
fn are_one_sort(sort: &Option<Sort>, other: &Option<Sort>) -> bool
    ensures { result ≡ sorts_test (option_map sort_view sort.now) (option_map sort_view other.now) }
{
    match (sort, other) {
        (Some(sort), Some(other)) => is_same_sort(sort, other),
        _ => false,
    }
}

/// Whether both sides have one term, of one sort.
fn have_one_term_each(
    alloc: Global,
    signature: &Signature,
    antecedent: &Pattern,
    consequent: &Pattern,
) -> Result<bool, AllocError>
    ensures { let g = signature_view signature.now in IfOk result (λ b. b ≡ sorts_test (term_sort_of g (view antecedent.now)) (term_sort_of g (body_of (view consequent.now)))) }
{
    let sort = term_sort(alloc, signature, antecedent)?;
    let other = term_sort(alloc, signature, body_of(consequent))?;
    Ok(are_one_sort(&sort, &other))
}

/// I3 of the first name that says two things.
fn name_fault(
    alloc: Global,
    antecedent: &Pattern,
    consequent: &Pattern,
) -> Result<Option<ComparisonFault>, AllocError>
    ensures { IfOk result (λ o. option_map sides_fault_view o ≡ name_fault_of (view antecedent.now) (view consequent.now)) }
{
    match first_unclear(alloc, antecedent, consequent)? {
        Some(name) => Ok(Some(ComparisonFault::UnclearName { name })),
        None => Ok(None),
    }
}

/// I2, else I3.
fn term_fault(
    alloc: Global,
    signature: &Signature,
    antecedent: &Pattern,
    consequent: &Pattern,
) -> Result<Option<ComparisonFault>, AllocError>
    ensures { IfOk result (λ o. option_map sides_fault_view o ≡ term_fault_of (signature_view signature.now) (view antecedent.now) (view consequent.now)) }
{
    if !have_one_term_each(alloc, signature, antecedent, consequent)? {
        return Ok(Some(ComparisonFault::OtherTerms));
    }
    name_fault(alloc, antecedent, consequent)
}

/// The first fault of two sides, the consequent's maybe under `\exists`: I1, then I2, then I3.
/// Source: the K Haskell backend's JSON-RPC documentation (implies, its error code 4).
///
/// # Errors
/// Where memory runs out.
pub fn sides_fault(
    alloc: Global,
    signature: &Signature,
    antecedent: &Pattern,
    consequent: &Pattern,
) -> Result<Option<ComparisonFault>, AllocError>
    ensures { IfOk result (λ o. IsFirstFault (signature_view signature.now) (view antecedent.now) (view consequent.now) (option_map sides_fault_view o)) }
{
    match idle_binder(alloc, consequent)? {
        Some(name) => Ok(Some(ComparisonFault::Idle { name })),
        None => term_fault(alloc, signature, antecedent, consequent),
    }
}
