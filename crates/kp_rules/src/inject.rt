// Variables that stand under inj.
ghost use Rattle.std.specs.Prelude.{◌≡◌, ◌↔◌, IfOk, IsTrue, MatchBool, string_bytes};
ghost use Rattle.kp_kore.specs.Syntax.{application};
ghost use Rattle.kp_kore.specs.Signature.{injection, meaning_of as meaning_named};
ghost use Rattle.kp_kore.specs.View.{view, sorts_view, patterns_view};
ghost use Rattle.kp_signature.specs.View.{signature_view};
ghost use Rattle.kp_kore.specs.Foreign.{InjectionsSplit};
ghost use Rattle.kp_rules.specs.Index.{IsIndexOf, is_variable, is_one_variable};

use crate::sort_index::SortIndex;
use kp_kore::{Name, Pattern, Sort};
use kp_signature::{Meaning, Signature, meaning_of};
use std::alloc::{AllocError, Global};

/// Whether the pattern isn't a variable under `inj`, or is one whose value's heads have sorts of their own.
pub fn is_split(
    alloc: Global,
    signature: &Signature,
    index: &SortIndex,
    pattern: &Pattern,
) -> Result<bool, AllocError>
    requires { IsIndexOf (signature_view signature.now) index.now }
    ensures { let g = signature_view signature.now in IfOk result (λ b. MatchBool b (InjectionsSplit g (view pattern.now)) (¬ InjectionsSplit g (view pattern.now))) }
{
    match pattern {
        Pattern::Application {
            symbol,
            sorts,
            arguments,
        } => applied_is_split(alloc, signature, index, symbol, sorts, arguments),
        _ => Ok(true),
    }
}

/// Whether this application is `inj` of a variable whose sorts share heads.
fn applied_is_split(
    alloc: Global,
    signature: &Signature,
    index: &SortIndex,
    symbol: &Name,
    sorts: &[Sort],
    arguments: &[Pattern],
) -> Result<bool, AllocError>
    requires { IsIndexOf (signature_view signature.now) index.now }
    ensures { let the_application = application (string_bytes symbol.now) (sorts_view sorts.now) (patterns_view arguments.now) in let g = signature_view signature.now in IfOk result (λ b. MatchBool b (InjectionsSplit g the_application) (¬ InjectionsSplit g the_application)) }
{
    if !is_injection(signature, symbol) {
        return Ok(true);
    }
    if !is_one_variable(arguments) {
        return Ok(true);
    }
    if sorts.len() != 2 {
        return Ok(true);
    }
    index.splits(alloc, signature, &sorts[0], &sorts[1])
}

/// Whether the symbol is `inj`.
fn is_injection(signature: &Signature, symbol: &Name) -> bool
    ensures { IsTrue result ↔ (meaning_named (signature_view signature.now) (string_bytes symbol.now) ≡ injection) }
{
    match meaning_of(signature, symbol) {
        Meaning::Injection => true,
        _ => false,
    }
}

/// Whether this is one pattern, and a variable.
fn is_one_variable(patterns: &[Pattern]) -> bool
    ensures { result ≡ is_one_variable (patterns_view patterns.now) }
{
    if patterns.len() != 1 {
        return false;
    }
    is_variable(&patterns[0])
}

/// Whether it is a variable.
fn is_variable(pattern: &Pattern) -> bool
    ensures { result ≡ is_variable (view pattern.now) }
{
    match pattern {
        Pattern::Variable { .. } => true,
        _ => false,
    }
}
