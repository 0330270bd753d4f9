// The sort of a pattern, or its first fault.
ghost use Rattle.std.specs.Prelude.{◌≡◌, ◌+◌, ◌++◌, IfErr, IfOk, OnOk, List, Some, None, length};
ghost use Rattle.kp_kore.specs.Parts.{SortedName, free_variables, all_free_variables};
ghost use Rattle.kp_kore.specs.View.{view, patterns_view, sort_view, sorts_view};
ghost use Rattle.kp_signature.specs.Faults.{fault_view, IfTold};
ghost use Rattle.kp_signature.specs.Places.{Place};
ghost use Rattle.kp_signature.specs.Scopes.{Knows, place_of, part_place};
ghost use Rattle.kp_signature.specs.Verify.{VerifyFault, first_fault, arguments_fault, members_fault, VerifiesAs, FailsWith};
ghost use Rattle.kp_signature.specs.View.{signature_view};

use crate::applications::check_application;
use crate::error::VerifyError;
use crate::literals::check_literal;
use crate::nodes::{check_binder, check_form, check_form_of_part, check_text, check_variable};
use crate::pattern_sort::own_sort;
use crate::scope::{Scope, bind_variable, unbind_variable};
use crate::signature::Signature;
use indexmap::IndexMap;
use kp_kore::{Pattern, Sort};
use std::alloc::Global;

/// The first fault of a pattern at its place, and what it brings into scope.
#[cycle(verify)]
fn verify_at(
    pattern: &Pattern,
    alloc: Global,
    signature: &Signature,
    wanted: Option<&Sort>,
    depth: usize,
    scope: &mut Scope,
) -> Result<(), VerifyError>
    ensures known { OnOk result ((s : List SortedName) → Knows s scope.old → Knows (s ++ free_variables (view pattern.now)) scope.new) }
    ensures ok { let g = signature_view signature.now in OnOk result ((s : List SortedName) → Knows s scope.old → first_fault g (place_of wanted.entry depth s) (view pattern.now) ≡ None) }
    ensures err { let g = signature_view signature.now in let pattern' = view pattern.now in IfErr result (λ e. (f : VerifyFault) → (s : List SortedName) → Knows s scope.old → fault_view e ≡ Some f → first_fault g (place_of wanted.entry depth s) pattern' ≡ Some f) }
{
    match pattern {
        Pattern::Variable { name, sort } => {
            check_variable(alloc, signature, wanted, depth, scope, name, sort)
        }
        Pattern::SetVariable { sort, .. } | Pattern::Top { sort } | Pattern::Bottom { sort } => {
            check_form(alloc, signature, wanted, depth, sort)
        }
        Pattern::StringLiteral { .. } => check_text(alloc, signature, wanted, depth),
        Pattern::Literal { sort, text } => {
            check_literal(alloc, signature, wanted, depth, sort, text)
        }
        Pattern::Application {
            symbol,
            sorts,
            arguments,
        } => {
            let places = check_application(
                alloc,
                signature,
                symbol,
                sorts,
                arguments.len(),
                wanted,
                depth,
            )?;
            Ok(verify_arguments(arguments, alloc, signature, &places, depth + 1, scope)?)
        }
        Pattern::Not { sort, pattern }
        | Pattern::Next { sort, pattern }
        | Pattern::Mu { sort, pattern, .. }
        | Pattern::Nu { sort, pattern, .. } => {
            check_form(alloc, signature, wanted, depth, sort)?;
            Ok(verify_at(pattern, alloc, signature, Some(sort), 1, scope)?)
        }
        Pattern::And { sort, patterns } | Pattern::Or { sort, patterns } => {
            check_form(alloc, signature, wanted, depth, sort)?;
            Ok(verify_members(patterns, alloc, signature, sort, scope)?)
        }
        Pattern::Implies { sort, left, right }
        | Pattern::Iff { sort, left, right }
        | Pattern::Rewrites { sort, left, right } => {
            check_form(alloc, signature, wanted, depth, sort)?;
            verify_at(left, alloc, signature, Some(sort), 1, scope)?;
            Ok(verify_at(right, alloc, signature, Some(sort), 1, scope)?)
        }
        Pattern::Exists {
            sort,
            name,
            name_sort,
            pattern,
        }
        | Pattern::Forall {
            sort,
            name,
            name_sort,
            pattern,
        } => {
            check_binder(alloc, signature, wanted, depth, sort, name_sort)?;
            let hidden = bind_variable(alloc, scope, name, name_sort)?;
            verify_at(pattern, alloc, signature, Some(sort), 1, scope)?;
            Ok(unbind_variable(scope, name, hidden)?)
        }
        Pattern::Ceil {
            argument_sort,
            sort,
            pattern,
        }
        | Pattern::Floor {
            argument_sort,
            sort,
            pattern,
        } => {
            check_form_of_part(alloc, signature, wanted, depth, argument_sort, sort)?;
            Ok(verify_at(pattern, alloc, signature, Some(argument_sort), 1, scope)?)
        }
        Pattern::Equals {
            argument_sort,
            sort,
            left,
            right,
        }
        | Pattern::In {
            argument_sort,
            sort,
            left,
            right,
        } => {
            check_form_of_part(alloc, signature, wanted, depth, argument_sort, sort)?;
            verify_at(left, alloc, signature, Some(argument_sort), 1, scope)?;
            Ok(verify_at(right, alloc, signature, Some(argument_sort), 1, scope)?)
        }
    }
}

/// The first fault of the arguments at their places.
#[cycle(verify)]
fn verify_arguments(
    arguments: &[Pattern],
    alloc: Global,
    signature: &Signature,
    places: &[Sort],
    depth: usize,
    scope: &mut Scope,
) -> Result<(), VerifyError>
    ensures known { let arguments' = patterns_view arguments.now in OnOk result (length places.now ≡ length arguments.now → (s : List SortedName) → Knows s scope.old → Knows (s ++ all_free_variables arguments') scope.new) }
    ensures ok { let g = signature_view signature.now in let places' = sorts_view places.now in OnOk result ((c : Place) → c.depth + 1 ≡ depth → Knows c.scope scope.old → arguments_fault g c places' (patterns_view arguments.now) ≡ None) }
    ensures err { let g = signature_view signature.now in let places' = sorts_view places.now in IfErr result (λ e. (f : VerifyFault) → (c : Place) → c.depth + 1 ≡ depth → Knows c.scope scope.old → IfTold e f (arguments_fault g c places' (patterns_view arguments.now))) }
{
    for (i, argument) in arguments.iter().enumerate() {
        if i >= places.len() {
            break;
        }
        verify_at(argument, alloc, signature, Some(&places[i]), depth, scope)?;
    }
    Ok(())
}

/// The first fault of the members of a connective.
#[cycle(verify)]
fn verify_members(
    members: &[Pattern],
    alloc: Global,
    signature: &Signature,
    sort: &Sort,
    scope: &mut Scope,
) -> Result<(), VerifyError>
    ensures known { OnOk result ((s : List SortedName) → Knows s scope.old → Knows (s ++ all_free_variables (patterns_view members.now)) scope.new) }
    ensures ok { let g = signature_view signature.now in let sort' = sort_view sort.now in OnOk result ((s : List SortedName) → Knows s scope.old → members_fault g (part_place sort' s) (patterns_view members.now) ≡ None) }
    ensures err { let g = signature_view signature.now in let sort' = sort_view sort.now in let members' = patterns_view members.now in IfErr result (λ e. (f : VerifyFault) → (s : List SortedName) → Knows s scope.old → IfTold e f (members_fault g (part_place sort' s) members')) }
{
    for member in members {
        verify_at(member, alloc, signature, Some(sort), 1, scope)?;
    }
    Ok(())
}

/// The sort of a pattern without a fault, or its first fault: specs/Verify.antt says which fault of which node comes first.
///
/// # Errors
///
/// The first fault, or want of memory, which says nothing of the pattern.
pub fn verify(alloc: Global, signature: &Signature, pattern: &Pattern) -> Result<Sort, VerifyError>
    ensures sort { IfOk result (λ s. VerifiesAs (signature_view signature.now) (view pattern.now) (sort_view s)) }
    ensures fault { IfErr result (λ e. (f : VerifyFault) → fault_view e ≡ Some f → FailsWith (signature_view signature.now) (view pattern.now) f) }
{
    let mut scope = IndexMap::new(alloc);
    verify_at(pattern, alloc, signature, None, 1, &mut scope)?;
    match own_sort(alloc, signature, pattern)? {
        Some(sort) => Ok(sort),
        None => unreachable!(),
    }
}
