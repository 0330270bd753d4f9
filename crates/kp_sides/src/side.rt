// What can't stand in one side of an implication.
ghost use Rattle.std.specs.Prelude.{◌≡◌, IfOk, false};
ghost use Rattle.std.specs.List.{filter};
ghost use Rattle.std.specs.Option.{is_some, option_map};
ghost use Rattle.kp_clauses.specs.Faults.{foreign_symbol, members_fault as members_fault_of};
ghost use Rattle.kp_clauses.specs.View.{misplaced_view};
ghost use Rattle.kp_compile.specs.Parts.{seen};
ghost use Rattle.kp_compile.specs.Spelled.{first_foreign as first_foreign_of};
ghost use Rattle.kp_kore.specs.Parts.{is_term as term_test};
ghost use Rattle.kp_kore.specs.Rules.{only_one, under_binders};
ghost use Rattle.kp_kore.specs.View.{view};
ghost use Rattle.kp_signature.specs.View.{signature_view};
ghost use Rattle.kp_sides.specs.Sides.{side_fault as fault_of};
ghost use Rattle.kp_sides.specs.View.{side_fault_view};

use kp_clauses::fault::{Misplaced, members_fault};
use kp_compile::{conjuncts, first_foreign};
use kp_kore::{Name, Pattern};
use kp_rules::shape::{only, terms_among};
use kp_signature::Signature;
use std::alloc::{AllocError, Global};

/// What can't stand in a side.
#[derive(Drop)]
pub enum SideFault {
    /// T1: a foreign symbol or an alias.
    ForeignSymbol { name: Name },
    /// T2: what is neither the one term nor a predicate.
    OtherShape,
}

/// What is told of a place in a state.
fn told(fault: Misplaced<'_>) -> Result<SideFault, AllocError>
    ensures { IfOk result (λ f. side_fault_view f ≡ misplaced_view fault.entry) }
{
    match fault {
        Misplaced::ForeignSymbol { name } => Ok(SideFault::ForeignSymbol {
            name: name.clone()?,
        }),
        Misplaced::OtherShape => Ok(SideFault::OtherShape),
    }
}

/// What stands under the binders of a consequent.
pub fn body_of(consequent: &Pattern) -> &Pattern
    ensures { view result.now ≡ under_binders (view consequent.now) }
{
    match consequent {
        Pattern::Exists { pattern, .. } => body_of(pattern),
        _ => consequent,
    }
}

/// Whether there is one term among these members.
fn has_one_term(alloc: Global, members: &[&Pattern]) -> Result<bool, AllocError>
    ensures { IfOk result (λ b. b ≡ is_some (only_one (filter term_test (seen members.now)))) }
{
    let terms = terms_among(alloc, members)?;
    match only(&terms) {
        Some(_) => Ok(true),
        None => Ok(false),
    }
}

/// The first thing from the left that can't stand in a state with these members.
fn misplaced_among(
    alloc: Global,
    signature: &Signature,
    members: &[&Pattern],
) -> Result<Option<SideFault>, AllocError>
    ensures { IfOk result (λ o. option_map side_fault_view o ≡ members_fault_of (signature_view signature.now) false (seen members.now)) }
{
    match members_fault(alloc, signature, members)? {
        Some(fault) => Ok(Some(told(fault)?)),
        None => Ok(None),
    }
}

/// The first foreign symbol that stands in a pattern.
fn foreign_in(
    alloc: Global,
    signature: &Signature,
    pattern: &Pattern,
) -> Result<Option<SideFault>, AllocError>
    ensures { IfOk result (λ o. option_map side_fault_view o ≡ option_map foreign_symbol (first_foreign_of (signature_view signature.now) (view pattern.now))) }
{
    match first_foreign(alloc, signature, pattern)? {
        Some(name) => Ok(Some(SideFault::ForeignSymbol { name })),
        None => Ok(None),
    }
}

/// What can't stand in a side: the first such thing from the left where the side has one term, else its first foreign symbol.
pub fn side_fault(
    alloc: Global,
    signature: &Signature,
    pattern: &Pattern,
) -> Result<Option<SideFault>, AllocError>
    ensures { IfOk result (λ o. option_map side_fault_view o ≡ fault_of (signature_view signature.now) (view pattern.now)) }
{
    let members = conjuncts(alloc, pattern)?;
    if has_one_term(alloc, &members)? {
        return misplaced_among(alloc, signature, &members);
    }
    foreign_in(alloc, signature, pattern)
}
