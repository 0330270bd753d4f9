// What is asked of each part of a rewrite axiom.
ghost use Rattle.std.specs.Prelude.{◌≡◌, ◌==◌, ◌&&◌, IfOk, MatchBool, IsTrue, length, not, string_bytes};
ghost use Rattle.std.specs.List.{list_all, AllByRecursion};
ghost use Rattle.kp_kore.specs.Parts.{pattern_list};
ghost use Rattle.kp_kore.specs.View.{view, patterns_view};
ghost use Rattle.kp_kore.specs.Limits.{writes_number, fits_number};
ghost use Rattle.kp_kore.specs.Foreign.{is_foreign_meaning, is_interpretation, is_declared as declared, applies_foreign as foreign_applied, applies_undeclared as undeclared_applied, has_interpreted_head as interpreted_head, is_set_variable as set_variable_test, is_quantifier as quantifier_test, is_floor_of_term as floor_test, is_wide_literal as wide_literal, InjectionsSplit};
ghost use Rattle.std.specs.Str.Parse.{signed_digits_value};
ghost use Rattle.kp_signature.specs.View.{signature_view};
ghost use Rattle.kp_signature.specs.Meanings.{meaning_view};
ghost use Rattle.kp_compile.specs.Verified.{is_injection_meaning, misapplies_injection as misapplied};
ghost use Rattle.kp_rules.specs.Index.{IsIndexOf};
ghost use Rattle.kp_rule_reading.specs.ReadRules.{is_part_read, is_condition_part};
ghost use Rattle.kp_rules.specs.Shapes.{seen};

use crate::depth::is_within;
use kp_compile::is_term;
use kp_kore::{Name, Pattern};
use kp_rules::inject::is_split;
use kp_rules::sort_index::SortIndex;
use kp_signature::rules::is_numeral;
use kp_signature::{MOST_DEPTH, Meaning, Signature, meaning_of};
use std::alloc::{AllocError, Global};
use std::num::ParseIntError;

/// Whether it has no meaning here.
fn is_foreign(meaning: Meaning) -> bool
    ensures { result ≡ is_foreign_meaning (meaning_view meaning) }
{
    match meaning {
        Meaning::Foreign => true,
        _ => false,
    }
}

/// Whether it is an interpreted symbol's.
fn is_interpreted(meaning: Meaning) -> bool
    ensures { result ≡ is_interpretation (meaning_view meaning) }
{
    match meaning {
        Meaning::Interpreted(_) => true,
        _ => false,
    }
}

/// Whether a symbol or an alias of this name is declared.
fn is_declared(signature: &Signature, name: &str) -> bool
    ensures { result ≡ declared (signature_view signature.now) name.now }
{
    signature.symbol(name).is_some() || signature.alias(name).is_some()
}

/// Whether it is an application of a declared foreign symbol or an alias.
fn applies_foreign(signature: &Signature, pattern: &Pattern) -> bool
    ensures { result ≡ foreign_applied (signature_view signature.now) (view pattern.now) }
{
    match pattern {
        Pattern::Application { symbol, .. } => {
            is_foreign(meaning_of(signature, symbol)) && is_declared(signature, symbol)
        }
        _ => false,
    }
}

/// Whether it is an application of a name that nothing declares.
fn applies_undeclared(signature: &Signature, pattern: &Pattern) -> bool
    ensures { result ≡ undeclared_applied (signature_view signature.now) (view pattern.now) }
{
    match pattern {
        Pattern::Application { symbol, .. } => !is_declared(signature, symbol),
        _ => false,
    }
}

/// Whether it is an application of an interpreted symbol.
fn has_interpreted_head(signature: &Signature, pattern: &Pattern) -> bool
    ensures { result ≡ interpreted_head (signature_view signature.now) (view pattern.now) }
{
    match pattern {
        Pattern::Application { symbol, .. } => is_interpreted(meaning_of(signature, symbol)),
        _ => false,
    }
}

/// Whether it is that of `inj`.
fn is_injection(meaning: Meaning) -> bool
    ensures { result ≡ is_injection_meaning (meaning_view meaning) }
{
    match meaning {
        Meaning::Injection => true,
        _ => false,
    }
}

/// Whether this is one pattern.
fn is_one(patterns: &[Pattern]) -> bool
    ensures { result ≡ (length (pattern_list (patterns_view patterns.now)) == 1) }
{
    patterns.len() == 1
}

/// Whether it applies `inj` to another number of arguments than one.
fn misapplies_injection(signature: &Signature, pattern: &Pattern) -> bool
    ensures { result ≡ misapplied (signature_view signature.now) (view pattern.now) }
{
    match pattern {
        Pattern::Application {
            symbol,
            arguments,
            ..
        } => is_injection(meaning_of(signature, symbol)) && !is_one(arguments),
        _ => false,
    }
}

/// Whether each `inj` among the parts has one argument.
pub fn inject_one(signature: &Signature, parts: &[&Pattern]) -> bool
    ensures { result ≡ list_all (λ p. not (misapplied (signature_view signature.now) p)) (seen parts.now) }
{
    for part in parts {
        if misapplies_injection(signature, part) {
            return false;
        }
    }
    true
}

/// Whether it is a set variable.
fn is_set_variable(pattern: &Pattern) -> bool
    ensures { result ≡ set_variable_test (view pattern.now) }
{
    match pattern {
        Pattern::SetVariable { .. } => true,
        _ => false,
    }
}

/// Whether it is `\exists` or `\forall`.
fn is_quantifier(pattern: &Pattern) -> bool
    ensures { result ≡ quantifier_test (view pattern.now) }
{
    match pattern {
        Pattern::Exists { .. } | Pattern::Forall { .. } => true,
        _ => false,
    }
}

/// Whether it is `\floor` of a term.
fn is_floor_of_term(pattern: &Pattern) -> bool
    ensures { result ≡ floor_test (view pattern.now) }
{
    match pattern {
        Pattern::Floor { pattern, .. } => is_term(pattern),
        _ => false,
    }
}

/// Whether it is a number outside signed 128 bits.
fn is_wide_literal(signature: &Signature, pattern: &Pattern) -> bool
    ensures { result ≡ wide_literal (signature_view signature.now) (view pattern.now) }
{
    match pattern {
        Pattern::Literal { sort, text } => signature.is_integer_sort(sort) && is_wide(text),
        _ => false,
    }
}

/// Whether the text writes a number that leaves signed 128 bits.
fn is_wide(text: &Name) -> bool
    ensures { result ≡ (writes_number (string_bytes text.now) && not (fits_number (signed_digits_value 10 (string_bytes text.now)))) }
{
    is_numeral(text.as_str()) && !fits(text.as_str())
}

/// Whether a numeral's number fits in 128 bits.
fn fits(text: &str) -> bool
    ensures { IsTrue (writes_number text.now) → result ≡ fits_number (signed_digits_value 10 text.now) }
{
    let number: Result<i128, ParseIntError> = text.parse();
    number.is_ok()
}

/// Whether the part is no application of a declared foreign symbol, no set variable, no number outside signed 128 bits, and no
/// term that is too deep.
fn is_read_part(signature: &Signature, part: &Pattern) -> bool
    ensures { result ≡ is_part_read (signature_view signature.now) (view part.now) }
{
    !applies_foreign(signature, part)
        && !is_set_variable(part)
        && !is_wide_literal(signature, part)
        && is_within(part, MOST_DEPTH)
}

/// Whether all parts are such.
pub fn are_read_parts(signature: &Signature, parts: &[&Pattern]) -> bool
    ensures { result ≡ list_all (is_part_read (signature_view signature.now)) (seen parts.now) }
{
    for part in parts {
        if !is_read_part(signature, part) {
            return false;
        }
    }
    true
}

/// Whether each name that a part applies is declared.
pub fn are_declared(signature: &Signature, parts: &[&Pattern]) -> bool
    ensures { result ≡ list_all (λ p. not (undeclared_applied (signature_view signature.now) p)) (seen parts.now) }
{
    for part in parts {
        if applies_undeclared(signature, part) {
            return false;
        }
    }
    true
}

/// Whether no part is an application of an interpreted symbol.
pub fn are_uninterpreted(signature: &Signature, parts: &[&Pattern]) -> bool
    ensures { result ≡ list_all (λ p. not (interpreted_head (signature_view signature.now) p)) (seen parts.now) }
{
    for part in parts {
        if has_interpreted_head(signature, part) {
            return false;
        }
    }
    true
}

/// Whether no part is a quantifier or `\floor` of a term.
pub fn are_condition_parts(parts: &[&Pattern]) -> bool
    ensures { result ≡ list_all is_condition_part (seen parts.now) }
{
    for part in parts {
        if is_quantifier(part) || is_floor_of_term(part) {
            return false;
        }
    }
    true
}

/// Whether all variables under `inj` split by heads.
pub fn all_split(
    alloc: Global,
    signature: &Signature,
    index: &SortIndex,
    parts: &[&Pattern],
) -> Result<bool, AllocError>
    requires index { IsIndexOf (signature_view signature.now) index.now }
    ensures { let g = signature_view signature.now in IfOk result (λ b. MatchBool b (AllByRecursion (InjectionsSplit g) (seen parts.now)) (¬ AllByRecursion (InjectionsSplit g) (seen parts.now))) }
{
    for part in parts {
        if !is_split(alloc, signature, index, part)? {
            return Ok(false);
        }
    }
    Ok(true)
}
