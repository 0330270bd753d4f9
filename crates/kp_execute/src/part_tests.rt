// Tests of what the theorem on a run's end wants of its parts. A test that tells false is never wrong.
ghost use Rattle.std.specs.Prelude.{◌≡◌, ◌&&◌, IfOk, IfSome, IsTrue, List, None, false, map, true};
ghost use Rattle.std.specs.List.{AllByRecursion};
ghost use Rattle.kp_kore.specs.Syntax.{Text, KoreSorts, KorePatterns, application, next_pattern};
ghost use Rattle.kp_kore.specs.Signature.{construction, meaning_of as meaning_named};
ghost use Rattle.kp_kore.specs.Foreign.{is_interpretation, none_within, has_foreign_head};
ghost use Rattle.kp_kore.specs.Forms.{wholes};
ghost use Rattle.kp_kore.specs.Value.{whole};
ghost use Rattle.kp_kore.specs.HookView.{arithmetic_view};
ghost use Rattle.kp_kore.specs.Instance.{applied, literal_value};
ghost use Rattle.kp_kore.specs.Interpretation.{computed};
ghost use Rattle.kp_kore.specs.Limits.{fits_number};
ghost use Rattle.kp_kore.specs.Replies.{IsComputed, are_literals as literals_test, is_wide_value};
ghost use Rattle.kp_kore.specs.Theory.{Theory};
ghost use Rattle.kp_kore.specs.View.{view, patterns_view, sort_view};
ghost use Rattle.kp_signature.specs.Meanings.{meaning_view};
ghost use Rattle.kp_signature.specs.Places.{the_top};
ghost use Rattle.kp_signature.specs.Verify.{first_fault};
ghost use Rattle.kp_signature.specs.View.{signature_view};
ghost use Rattle.kp_compile.specs.Parts.{seen};
ghost use Rattle.kp_symbolic.specs.Languages.{language_view};
ghost use Rattle.kp_symbolic.specs.View.{atom_view, clauses_view, literal_view, test_view};
ghost use Rattle.kp_symbolic_laws.specs.Runs.{IsMeantTest, IsSoundAtom};
ghost use Rattle.kp_symbolic_laws.specs.Safe.{IsSoundQuote};
ghost use Rattle.kp_names.specs.Met.{Lists};
ghost use Rattle.kp_rule_sets.specs.RuleSets.{RunsAs};
ghost use Rattle.kp_case_laws.specs.NextStates.{HaveOwnIds};
ghost use Rattle.kp_execute.specs.Checks.{AreSound, IsAlways, IsSettled, IsWideCall, are_new, both_of, rule_ids};

use indexmap::IndexMap;
use kp_compile::{first_foreign, is_predicate, subpatterns};
use kp_kore::{Arithmetic, Hook, Pattern, Sort};
use kp_names::names::{Names, is_noted, note};
use kp_rule_sets::RuleSet;
use kp_rules::Rule;
use kp_signature::{Function, Meaning, Signature, meaning_of, verify};
use kp_symbolic::{Atom, Clause, HeadTest, Language, Literal};
use std::alloc::{AllocError, Global};

// ---- ids

/// Whether none of the rules has an id that was noted or that a rule before it has.
fn are_unmet(names: &mut Names, rules: &[Rule]) -> Result<bool, AllocError>
    ensures { (before : List Text) → Lists before names.old → IfOk result (λ new. new ≡ are_new before (rule_ids rules.now)) }
{
    for rule in rules {
        if is_noted(names, &rule.id) {
            return Ok(false);
        }
        note(names, &rule.id)?;
    }
    Ok(true)
}

/// Whether no two rules have one id.
pub fn have_own_ids(alloc: Global, rules: &RuleSet) -> Result<bool, AllocError>
    ensures { IfOk result (λ own. own ≡ true → (t : Theory) → RunsAs t rules.now → HaveOwnIds t.rules) }
{
    let mut names = IndexMap::new(alloc);
    are_unmet(&mut names, &rules.rules)
}

// ---- calls that are computed

/// Whether the pattern is a literal.
fn is_literal(pattern: &Pattern) -> bool
    ensures { (ps : KorePatterns) → literals_test (next_pattern (view pattern.now) ps) ≡ (result && literals_test ps) }
{
    matches!(pattern, Pattern::Literal { .. })
}

/// Whether all are literals.
fn are_literals(patterns: &[Pattern]) -> bool
    ensures { result ≡ literals_test (patterns_view patterns.now) }
{
    for pattern in patterns {
        if !is_literal(pattern) {
            return false;
        }
    }
    true
}

/// The whole number that a literal of this sort writes, where it is within 128 bits.
fn number_written(signature: &Signature, sort: &Sort, text: &str) -> Option<i128>
    ensures { IfSome result (λ n. literal_value (signature_view signature.now) (sort_view sort.now) text.now ≡ whole n) }
{
    if !signature.is_integer_sort(sort) {
        return None;
    }
    match text.parse::<i128>() {
        Ok(number) => Some(number),
        Err(_) => None,
    }
}

/// The whole number that a pattern is known to be.
fn number_of(signature: &Signature, pattern: &Pattern) -> Option<i128>
    ensures { IfSome result (IsAlways (signature_view signature.now) (view pattern.now)) }
{
    match pattern {
        Pattern::Literal { sort, text } => number_written(signature, sort, text),
        _ => None,
    }
}

/// Whether the number that is computed leaves 128 bits.
fn is_beyond(operation: Arithmetic, left: i128, right: i128) -> bool
    ensures { IsTrue result → fits_number (computed (arithmetic_view operation) left right) ≡ false }
{
    match operation.computes(left, right) {
        Some(_) => false,
        None => true,
    }
}

/// Whether a symbol of this meaning makes of two numbers one that leaves 128 bits.
fn is_wide(meaning: Meaning, left: i128, right: i128) -> bool
    ensures { IsTrue result → (f : Text) → IsTrue (is_wide_value (applied (meaning_view meaning) f (wholes left right))) }
{
    match meaning {
        Meaning::Interpreted(Function::Two(Hook::Arithmetic(operation))) => {
            is_beyond(operation, left, right)
        }
        _ => false,
    }
}

/// Whether the symbol makes of these two patterns a number that leaves 128 bits.
fn is_wide_of(signature: &Signature, symbol: &str, left: &Pattern, right: &Pattern) -> bool
    ensures { IsTrue result → IsWideCall (signature_view signature.now) symbol.now (both_of (view left.now) (view right.now)) }
{
    let Some(first) = number_of(signature, left) else {
        return false;
    };
    let Some(second) = number_of(signature, right) else {
        return false;
    };
    is_wide(meaning_of(signature, symbol), first, second)
}

/// Whether the symbol makes of these patterns a number that leaves 128 bits.
fn is_wide_call(signature: &Signature, symbol: &str, arguments: &[Pattern]) -> bool
    ensures { IsTrue result → IsWideCall (signature_view signature.now) symbol.now (patterns_view arguments.now) }
{
    match arguments {
        [left, right] => is_wide_of(signature, symbol, left, right),
        _ => false,
    }
}

/// Whether a symbol of this meaning is computed.
fn is_interpreted(meaning: Meaning) -> bool
    ensures { result ≡ is_interpretation (meaning_view meaning) }
{
    match meaning {
        Meaning::Interpreted(_) => true,
        Meaning::Injection | Meaning::Constructor | Meaning::Foreign => false,
    }
}

/// Whether the application of the symbol to these patterns is settled.
fn is_settled_call(signature: &Signature, symbol: &str, arguments: &[Pattern]) -> bool
    ensures { (ss : KoreSorts) → IsTrue result → IsSettled (signature_view signature.now) (application symbol.now ss (patterns_view arguments.now)) }
{
    if !is_interpreted(meaning_of(signature, symbol)) {
        return true;
    }
    if !are_literals(arguments) {
        return true;
    }
    is_wide_call(signature, symbol, arguments)
}

/// Whether the pattern is no call that could be computed.
fn is_settled(signature: &Signature, pattern: &Pattern) -> bool
    ensures { IsTrue result → IsSettled (signature_view signature.now) (view pattern.now) }
{
    match pattern {
        Pattern::Application {
            symbol,
            arguments,
            ..
        } => is_settled_call(signature, symbol, arguments),
        _ => true,
    }
}

/// Whether none of these patterns is a call that could be computed.
fn are_settled(signature: &Signature, patterns: &[&Pattern]) -> bool
    ensures { IsTrue result → AllByRecursion (IsSettled (signature_view signature.now)) (seen patterns.now) }
{
    for i in 0..patterns.len() {
        if !is_settled(signature, patterns[i]) {
            return false;
        }
    }
    true
}

/// Whether each interpreted call with literals alone for arguments that stands in the pattern has a value that leaves 128
/// bits.
pub fn is_computed(
    alloc: Global,
    signature: &Signature,
    pattern: &Pattern,
) -> Result<bool, AllocError>
    ensures { IfOk result (λ all. all ≡ true → IsComputed (signature_view signature.now) (view pattern.now)) }
{
    let parts = subpatterns(alloc, pattern)?;
    Ok(are_settled(signature, &parts))
}

// ---- literals that were added

/// Whether the symbol is a constructor.
fn is_constructor(signature: &Signature, symbol: &str) -> bool
    ensures { IsTrue result → meaning_named (signature_view signature.now) symbol.now ≡ construction }
{
    match meaning_of(signature, symbol) {
        Meaning::Constructor => true,
        Meaning::Injection | Meaning::Interpreted(_) | Meaning::Foreign => false,
    }
}

/// Whether the head that is asked for is a constructor's, or any of a sort's.
fn is_meant(signature: &Signature, test: &HeadTest) -> bool
    ensures { IsTrue result → IsMeantTest (signature_view signature.now) (test_view test.now) }
{
    match test {
        HeadTest::Constructor { symbol } => is_constructor(signature, symbol),
        HeadTest::Sort { .. } => true,
    }
}

/// Whether no foreign symbol stands in the pattern.
fn is_native(alloc: Global, signature: &Signature, pattern: &Pattern) -> Result<bool, AllocError>
    ensures { IfOk result (λ b. b ≡ true → none_within (has_foreign_head (signature_view signature.now)) (view pattern.now) ≡ true) }
{
    let first = first_foreign(alloc, signature, pattern)?;
    Ok(first.is_none())
}

/// Whether the pattern was found to have no fault.
fn is_verified(alloc: Global, signature: &Signature, pattern: &Pattern) -> bool
    ensures { IsTrue result → first_fault (signature_view signature.now) the_top (view pattern.now) ≡ None }
{
    let sort = verify(alloc, signature, pattern);
    sort.is_ok()
}

/// Whether it is a predicate without a fault, in which no foreign symbol stands.
fn is_sound_predicate(
    alloc: Global,
    signature: &Signature,
    pattern: &Pattern,
) -> Result<bool, AllocError>
    ensures { IfOk result (λ b. b ≡ true → IsSoundQuote (signature_view signature.now) (view pattern.now)) }
{
    if !is_predicate(pattern) {
        return Ok(false);
    }
    if !is_verified(alloc, signature, pattern) {
        return Ok(false);
    }
    is_native(alloc, signature, pattern)
}

/// Whether the atom is written right.
fn is_sound(alloc: Global, signature: &Signature, atom: &Atom) -> Result<bool, AllocError>
    ensures { IfOk result (λ b. b ≡ true → IsSoundAtom (signature_view signature.now) (atom_view atom.now)) }
{
    match atom {
        Atom::Same { .. } => Ok(true),
        Atom::Head { test, .. } => Ok(is_meant(signature, test)),
        Atom::Quoted { pattern, .. } => is_sound_predicate(alloc, signature, pattern),
    }
}

/// Whether each of these literals is written right.
fn are_sound(alloc: Global, signature: &Signature, literals: &[Literal]) -> Result<bool, AllocError>
    ensures { IfOk result (λ b. b ≡ true → AreSound (signature_view signature.now) (map literal_view literals.now)) }
{
    for literal in literals {
        if !is_sound(alloc, signature, &literal.atom)? {
            return Ok(false);
        }
    }
    Ok(true)
}

/// Whether each literal of these clauses is written right where there is room for new names: heads are those of constructors or
/// of sorts, and what isn't opened is a predicate without a fault, in which no foreign symbol stands.
pub fn are_added_right(
    alloc: Global,
    language: &Language<'_>,
    clauses: &[Clause],
) -> Result<bool, AllocError>
    ensures { IfOk result (λ b. b ≡ true → AllByRecursion (AllByRecursion (λ l. IsSoundAtom (language_view language.now) l.atom)) (clauses_view clauses.now)) }
{
    for clause in clauses {
        if !are_sound(alloc, language.signature, &clause.literals)? {
            return Ok(false);
        }
    }
    Ok(true)
}
