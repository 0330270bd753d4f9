ghost use Rattle.std.specs.Prelude.{◌≡◌, ◌||◌, ◌&&◌, List, true, false, not, map, IfOk, IfErr, MatchOption};
ghost use Rattle.std.specs.Bool.{Decides};
ghost use Rattle.std.specs.List.{AllByRecursion, list_all, list_any};
ghost use Rattle.kp_kore.specs.Syntax.{Text, KoreSort, ceil, floor};
ghost use Rattle.kp_kore.specs.Parts.{free_variables};
ghost use Rattle.kp_kore.specs.View.{view};
ghost use Rattle.kp_kore.specs.Instance.{Valuation, instance, IsTrueUnder, is_conjoined_pair};
ghost use Rattle.kp_kore.specs.Numbers.{computes_wide};
ghost use Rattle.kp_ground.specs.Conditions.{denial, all_of, any_of, implied, equivalent, same, condition_holds, condition_narrow};
ghost use Rattle.kp_ground.specs.ConditionView.{condition_view, conditions_of};
ghost use Rattle.kp_ground.specs.Slots.{term_reads, condition_reads};
ghost use Rattle.kp_ground.specs.TermView.{term_view};
ghost use Rattle.kp_signature.specs.View.{signature_view};
ghost use Rattle.kp_compile.specs.Exact.{IsConditionOf, AreConditionsOf, IsConditionNarrowAs, AreConditionsNarrowAs, ConditionReadsAs, ConditionsReadAs, IsPairOf, are_named};
ghost use Rattle.kp_compile.specs.Names.{names_seen};
ghost use Rattle.kp_compile.specs.Parts.{seen};
ghost use Rattle.kp_compile.specs.Verified.{IsVerifiedTerm, IsVerifiedPredicate};
ghost use Rattle.kp_compile.specs.declared.error.CompileError.TheVariants.{Memory};

use crate::error::CompileError;
use crate::names::NameSet;
use crate::shape::is_term;
use crate::term::compile_term;
use kp_ground::{CompiledTerm, Condition};
use kp_kore::Pattern;
use kp_signature::Signature;
use std::alloc::{AllocError, Global};

/// Not the condition.
fn make_denial(alloc: Global, condition: Condition) -> Result<Condition, AllocError>
    ensures seen { IfOk result (λ c. condition_view c ≡ denial (condition_view condition)) }
    ensures reads { (xs : List Text) → IfOk result (λ c. condition_reads xs c ≡ condition_reads xs condition) }
{
    Ok(Condition::Not {
        condition: Box::new(alloc, condition)?,
    })
}

/// All of the conditions.
fn make_all(conditions: Vec<Condition>) -> Condition
    ensures seen { condition_view result ≡ all_of (conditions_of (map condition_view conditions.items)) }
    ensures reads { (xs : List Text) → condition_reads xs result ≡ list_all (λ b. b) (map (condition_reads xs) conditions.items) }
{
    Condition::All { conditions }
}

/// Some of the conditions.
fn make_any(conditions: Vec<Condition>) -> Condition
    ensures seen { condition_view result ≡ any_of (conditions_of (map condition_view conditions.items)) }
    ensures reads { (xs : List Text) → condition_reads xs result ≡ list_all (λ b. b) (map (condition_reads xs) conditions.items) }
{
    Condition::Any { conditions }
}

/// The terms have the same value.
fn make_equality(left: CompiledTerm, right: CompiledTerm) -> Condition
    ensures seen { condition_view result ≡ same (term_view left) (term_view right) }
    ensures reads { (xs : List Text) → condition_reads xs result ≡ (term_reads xs left && term_reads xs right) }
{
    Condition::Same { left, right }
}

/// The first condition implies the second.
fn make_implied(alloc: Global, left: Condition, right: Condition) -> Result<Condition, AllocError>
    ensures seen { IfOk result (λ c. condition_view c ≡ implied (condition_view left) (condition_view right)) }
    ensures reads { (xs : List Text) → IfOk result (λ c. condition_reads xs c ≡ (condition_reads xs left && condition_reads xs right)) }
{
    Ok(Condition::Implies {
        left: Box::new(alloc, left)?,
        right: Box::new(alloc, right)?,
    })
}

/// Both conditions hold, or neither.
fn make_equivalent(
    alloc: Global,
    left: Condition,
    right: Condition,
) -> Result<Condition, AllocError>
    ensures seen { IfOk result (λ c. condition_view c ≡ equivalent (condition_view left) (condition_view right)) }
    ensures reads { (xs : List Text) → IfOk result (λ c. condition_reads xs c ≡ (condition_reads xs left && condition_reads xs right)) }
{
    Ok(Condition::Iff {
        left: Box::new(alloc, left)?,
        right: Box::new(alloc, right)?,
    })
}

/// Two terms have the same value.
fn make_same(
    alloc: Global,
    signature: &Signature,
    names: &NameSet,
    left: &Pattern,
    right: &Pattern,
) -> Result<Condition, CompileError>
    ensures holds { let g = signature_view signature.now in let right' = view right.now in IfOk result (λ c. (v : Valuation) → Decides (condition_holds v (condition_view c)) (instance g v (view left.now) ≡ instance g v right')) }
    ensures narrow { let g = signature_view signature.now in let right' = view right.now in IfOk result (λ c. (v : Valuation) → condition_narrow v (condition_view c) ≡ not (computes_wide g v (view left.now) || computes_wide g v right')) }
    ensures reads { let xs = names_seen names.now in IfOk result (λ c. are_named xs (free_variables (view left.now)) ≡ true → are_named xs (free_variables (view right.now)) ≡ true → condition_reads xs c ≡ true) }
    ensures refused { let g = signature_view signature.now in IfErr result (λ e. IsVerifiedTerm g (view left.now) → IsVerifiedTerm g (view right.now) → e ≡ Memory) }
{
    let left = compile_term(alloc, signature, names, left)?;
    let right = compile_term(alloc, signature, names, right)?;
    Ok(make_equality(left, right))
}

/// The two terms of a conjunction of two terms.
fn conjoined_pair(pattern: &Pattern) -> Option<(&Pattern, &Pattern)>
    ensures { MatchOption result (is_conjoined_pair (view pattern.now) ≡ false) (λ pair. IsPairOf (view pattern.now) (view pair.0.now) (view pair.1.now)) }
{
    match pattern {
        Pattern::And { patterns, .. } => {
            if patterns.len() == 2 && is_term(&patterns[0]) && is_term(&patterns[1]) {
                Some((&patterns[0], &patterns[1]))
            } else {
                None
            }
        }
        _ => None,
    }
}

/// The condition that a predicate is.
#[cycle(compile)]
fn condition_of(
    pattern: &Pattern,
    alloc: Global,
    signature: &Signature,
    names: &NameSet,
) -> Result<Condition, CompileError>
    ensures holds { IfOk result (IsConditionOf (signature_view signature.now) (view pattern.now)) }
    ensures narrow { IfOk result (IsConditionNarrowAs (signature_view signature.now) (view pattern.now)) }
    ensures reads { IfOk result (ConditionReadsAs (names_seen names.now) (view pattern.now)) }
    ensures refused { IfErr result (λ e. IsVerifiedPredicate (signature_view signature.now) (view pattern.now) → e ≡ Memory) }
{
    match pattern {
        Pattern::Top { .. } => Ok(Condition::Always),
        Pattern::Bottom { .. } => Ok(Condition::Never),
        Pattern::Not { pattern, .. } => {
            let condition = condition_of(pattern, alloc, signature, names)?;
            Ok(make_denial(alloc, condition)?)
        }
        Pattern::And { patterns, .. } => {
            let conditions = compile_each(patterns, alloc, signature, names)?;
            Ok(make_all(conditions))
        }
        Pattern::Or { patterns, .. } => {
            let conditions = compile_each(patterns, alloc, signature, names)?;
            Ok(make_any(conditions))
        }
        Pattern::Implies { left, right, .. } => {
            let left = condition_of(left, alloc, signature, names)?;
            let right = condition_of(right, alloc, signature, names)?;
            Ok(make_implied(alloc, left, right)?)
        }
        Pattern::Iff { left, right, .. } => {
            let left = condition_of(left, alloc, signature, names)?;
            let right = condition_of(right, alloc, signature, names)?;
            Ok(make_equivalent(alloc, left, right)?)
        }
        Pattern::Equals { left, right, .. } => make_same(alloc, signature, names, left, right),
        Pattern::In { left, right, .. } => make_same(alloc, signature, names, left, right),
        Pattern::Ceil { pattern, .. } => ceil_of(pattern, alloc, signature, names),
        Pattern::Floor { pattern, .. } => floor_of(pattern, alloc, signature, names),
        Pattern::Variable { .. }
        | Pattern::SetVariable { .. }
        | Pattern::Application { .. }
        | Pattern::StringLiteral { .. }
        | Pattern::Literal { .. }
        | Pattern::Next { .. }
        | Pattern::Rewrites { .. }
        | Pattern::Exists { .. }
        | Pattern::Forall { .. }
        | Pattern::Mu { .. }
        | Pattern::Nu { .. } => Err(CompileError::Shape),
    }
}

/// The condition that `\ceil` of a pattern is: of a term its equality with itself, which computes its calls.
#[cycle(compile)]
fn ceil_of(
    pattern: &Pattern,
    alloc: Global,
    signature: &Signature,
    names: &NameSet,
) -> Result<Condition, CompileError>
    ensures holds { IfOk result (λ c. (a s : KoreSort) → IsConditionOf (signature_view signature.now) (ceil a s (view pattern.now)) c) }
    ensures narrow { IfOk result (IsConditionNarrowAs (signature_view signature.now) (view pattern.now)) }
    ensures reads { IfOk result (ConditionReadsAs (names_seen names.now) (view pattern.now)) }
    ensures refused { IfErr result (λ e. (a s : KoreSort) → IsVerifiedPredicate (signature_view signature.now) (ceil a s (view pattern.now)) → e ≡ Memory) }
{
    if is_term(pattern) {
        return make_same(alloc, signature, names, pattern, pattern);
    }
    match conjoined_pair(pattern) {
        Some((left, right)) => make_same(alloc, signature, names, left, right),
        None => condition_of(pattern, alloc, signature, names),
    }
}

/// The condition that `\floor` of a predicate is.
#[cycle(compile)]
fn floor_of(
    pattern: &Pattern,
    alloc: Global,
    signature: &Signature,
    names: &NameSet,
) -> Result<Condition, CompileError>
    ensures holds { IfOk result (λ c. (a s : KoreSort) → IsConditionOf (signature_view signature.now) (floor a s (view pattern.now)) c) }
    ensures narrow { IfOk result (IsConditionNarrowAs (signature_view signature.now) (view pattern.now)) }
    ensures reads { IfOk result (ConditionReadsAs (names_seen names.now) (view pattern.now)) }
    ensures refused { IfErr result (λ e. (a s : KoreSort) → IsVerifiedPredicate (signature_view signature.now) (floor a s (view pattern.now)) → e ≡ Memory) }
{
    if is_term(pattern) {
        return Err(CompileError::Shape);
    }
    condition_of(pattern, alloc, signature, names)
}

/// The conditions that predicates are, one by one.
#[cycle(compile)]
fn compile_each(
    patterns: &[Pattern],
    alloc: Global,
    signature: &Signature,
    names: &NameSet,
) -> Result<Vec<Condition>, CompileError>
    ensures holds { IfOk result (λ cs. AreConditionsOf (signature_view signature.now) patterns.now cs.items) }
    ensures narrow { IfOk result (λ cs. AreConditionsNarrowAs (signature_view signature.now) patterns.now cs.items) }
    ensures reads { IfOk result (λ cs. ConditionsReadAs (names_seen names.now) patterns.now cs.items) }
    ensures refused { IfErr result (λ e. AllByRecursion (λ p. IsVerifiedPredicate (signature_view signature.now) (view p)) patterns.now → e ≡ Memory) }
{
    let mut conditions = Vec::new(alloc);
    for pattern in patterns {
        conditions.push(condition_of(pattern, alloc, signature, names)?)?;
    }
    Ok(conditions)
}

/// The conjunction of these predicates, which computes the numbers beyond 128 bits that their calls compute. Where their
/// variables are named, it tells the number of each. A quantifier, or `\floor` of a term, is a Shape; verified
/// predicates without them are refused for want of memory alone.
pub fn compile_condition(
    alloc: Global,
    signature: &Signature,
    names: &NameSet,
    predicates: &[&Pattern],
) -> Result<Condition, CompileError>
    ensures holds { let g = signature_view signature.now in IfOk result (λ c. (v : Valuation) → Decides (condition_holds v (condition_view c)) (AllByRecursion (λ p. IsTrueUnder g v (view p.now)) predicates.now)) }
    ensures narrow { let g = signature_view signature.now in IfOk result (λ c. (v : Valuation) → condition_narrow v (condition_view c) ≡ not (list_any (computes_wide g v) (seen predicates.now))) }
    ensures reads { let xs = names_seen names.now in IfOk result (λ c. AllByRecursion (λ p. are_named xs (free_variables p) ≡ true) (seen predicates.now) → condition_reads xs c ≡ true) }
    ensures refused { IfErr result (λ e. AllByRecursion (IsVerifiedPredicate (signature_view signature.now)) (seen predicates.now) → e ≡ Memory) }
{
    let mut conditions = Vec::new(alloc);
    for predicate in predicates {
        conditions.push(condition_of(predicate, alloc, signature, names)?)?;
    }
    Ok(make_all(conditions))
}
