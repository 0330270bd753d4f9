// The pattern of one rule that has its turn.
ghost use Rattle.std.specs.Prelude.{◌≡◌, ◌⊎◌, ◌++◌, [], true, false, IfOk, OnOk, IfErr, MatchOption, map, slice_get};
ghost use Rattle.std.specs.List.{AllByRecursion};
ghost use Rattle.kp_kore.specs.View.{view};
ghost use Rattle.kp_signature.specs.View.{signature_view};
ghost use Rattle.kp_kore.specs.Instance.{Valuation};
ghost use Rattle.kp_kore.specs.Steps.{AnyByRecursion};
ghost use Rattle.kp_ground.specs.Solves.{Solves, bound_names};
ghost use Rattle.kp_ground.specs.View.{value_view};
ghost use Rattle.kp_successors.specs.Errors.{IsCausedBy};
ghost use Rattle.kp_successors.specs.Nexts.{PlainBy, ChosenBy, IsNextOf, is_right_narrow};
ghost use Rattle.kp_rules.specs.WideParts.{all_narrow};
ghost use Rattle.kp_rules.specs.declared.rule.RuleBody.TheVariants as body;
ghost use Rattle.kp_rules.specs.Heads.{FiresAs};
ghost use Rattle.kp_rule_sets.specs.Turns.{with_first};
ghost use Rattle.kp_run.specs.Turns.{BodyIsWide, FiresAt};
ghost use Rattle.kp_successors.specs.Turns.{RightIsWide, IsWideAt, Follows, AreNexts, AddsNext, next_list};
ghost use Rattle.kp_ground.specs.Slots.{left_variables, term_reads};
ghost use Rattle.kp_ground.specs.Terms.{stays_narrow};
ghost use Rattle.kp_compile.specs.Names.{names_seen};
ghost use Rattle.kp_ground.specs.TermView.{term_view};
ghost use Rattle.kp_kore.specs.View.{sort_view};

use crate::chosen::chosen;
use crate::error::GroundError;
use crate::left_replacements::left_replacements;
use crate::narrow::narrow;
use kp_compile::spelled;
use kp_ground::{Binding, Value};
use kp_kore::{Pattern, Sort};
use kp_rule_sets::{RuleSet, head_of};
use kp_rules::{Rewrite, RightSide, Rule, RuleBody};
use kp_signature::Signature;
use std::alloc::{AllocError, Global};

/// The pattern of a rule that fires under these bindings.
fn next_of(
    alloc: Global,
    signature: &Signature,
    rewrite: &Rewrite,
    bindings: &[Binding],
) -> Result<Pattern, GroundError>
    requires { bound_names bindings.now ≡ left_variables rewrite.now.left }
    ensures next { IfOk result (λ p. IsNextOf (signature_view signature.now) rewrite.now (λ v. Solves v bindings.now) (view p)) }
    ensures narrow { OnOk result ((v : Valuation) → Solves v bindings.now → is_right_narrow rewrite.now v ≡ true) }
    ensures refused { IfErr result (IsCausedBy (signature_view signature.now) ((v : Valuation) → Solves v bindings.now → is_right_narrow rewrite.now v ≡ false)) }
{
    match &rewrite.choice {
        Some(side) => choosing(alloc, signature, &rewrite.right_sort, side, bindings),
        None => plain(alloc, signature, rewrite, bindings),
    }
}

/// The right side with the values of the left term's variables.
fn choosing(
    alloc: Global,
    signature: &Signature,
    sort: &Sort,
    side: &RightSide,
    bindings: &[Binding],
) -> Result<Pattern, GroundError>
    requires { names_seen side.now.left_names ≡ bound_names bindings.now }
    ensures next { IfOk result (λ p. ChosenBy (signature_view signature.now) (sort_view sort.now) side.now (λ v. Solves v bindings.now) (view p)) }
    ensures narrow { OnOk result ((v : Valuation) → Solves v bindings.now → all_narrow v side.now.parts.items ≡ true) }
    ensures refused { IfErr result (IsCausedBy (signature_view signature.now) ((v : Valuation) → Solves v bindings.now → all_narrow v side.now.parts.items ≡ false)) }
{
    narrow(alloc, side, bindings)?;
    let replacements = left_replacements(alloc, signature, side, bindings)?;
    Ok(chosen(alloc, sort, side, &replacements)?)
}

/// The normal spelling of the right term's value.
fn plain(
    alloc: Global,
    signature: &Signature,
    rewrite: &Rewrite,
    bindings: &[Binding],
) -> Result<Pattern, GroundError>
    requires { term_reads (bound_names bindings.now) rewrite.now.right ≡ true }
    ensures next { IfOk result (λ p. PlainBy (signature_view signature.now) rewrite.now (λ v. Solves v bindings.now) (view p)) }
    ensures narrow { OnOk result ((v : Valuation) → Solves v bindings.now → stays_narrow v (term_view rewrite.now.right) ≡ true) }
    ensures refused { IfErr result (IsCausedBy (signature_view signature.now) ((v : Valuation) → Solves v bindings.now → stays_narrow v (term_view rewrite.now.right) ≡ false)) }
{
    let value = rewrite.right.evaluate(alloc, bindings)?;
    Ok(spelled(alloc, signature, &value, &rewrite.right_sort)?)
}

/// The pattern of a rewrite that fires on the value.
fn next_on(
    alloc: Global,
    signature: &Signature,
    rewrite: &Rewrite,
    value: &Value,
) -> Result<Option<Pattern>, GroundError>
    ensures next { let g = signature_view signature.now in let value' = value_view value.now in
        let fires = FiresAs g rewrite.now value' in
        IfOk result (λ o. MatchOption o (¬ ((v : Valuation) × fires v)) (λ p. ((v : Valuation) × fires v) × IsNextOf g rewrite.now fires (view p))) }
    ensures narrow { OnOk result (¬ RightIsWide (signature_view signature.now) (value_view value.now) (body.Rewrite rewrite.now)) }
    ensures refused { let g = signature_view signature.now in let value' = value_view value.now in IfErr result (IsCausedBy g (BodyIsWide g value' (body.Rewrite rewrite.now) ⊎ RightIsWide g value' (body.Rewrite rewrite.now))) }
{
    match rewrite.fires(alloc, signature, value)? {
        Some(bindings) => Ok(Some(next_of(alloc, signature, rewrite, &bindings)?)),
        None => Ok(None),
    }
}

/// The pattern of a rule that fires on the value and has this priority number.
fn next_at(
    alloc: Global,
    signature: &Signature,
    rule: &Rule,
    value: &Value,
    priority: u32,
) -> Result<Option<Pattern>, GroundError>
    ensures next { let g = signature_view signature.now in let value' = value_view value.now in
        IfOk result (λ o. MatchOption o (¬ FiresAt g value' priority rule.now)
        (λ p. FiresAt g value' priority rule.now × Follows g value' rule.now.body.value (view p))) }
    ensures narrow { OnOk result (¬ IsWideAt (signature_view signature.now) (value_view value.now) priority rule.now) }
    ensures refused { let g = signature_view signature.now in let value' = value_view value.now in IfErr result (IsCausedBy g (BodyIsWide g value' rule.now.body.value ⊎ IsWideAt g value' priority rule.now)) }
{
    if rule.priority != priority {
        return Ok(None);
    }
    match &*rule.body {
        RuleBody::Foreign(_) => Ok(None),
        RuleBody::Rewrite(rewrite) => next_on(alloc, signature, rewrite, value),
    }
}

/// The pattern of the rule at a place, where it fires on the value and has this priority number.
fn next_with(
    alloc: Global,
    rules: &RuleSet,
    place: usize,
    value: &Value,
    priority: u32,
) -> Result<Option<Pattern>, GroundError>
    ensures next { let g = signature_view rules.now.signature.value in let value' = value_view value.now in
        IfOk result (AddsNext g value' priority rules.now.rules.items place) }
    ensures narrow { let g = signature_view rules.now.signature.value in let value' = value_view value.now in let asked = with_first (slice_get rules.now.rules.items place) [] in OnOk result (AllByRecursion (λ r. ¬ IsWideAt g value' priority r) asked) }
    ensures refused { let g = signature_view rules.now.signature.value in let value' = value_view value.now in IfErr result (IsCausedBy g (AnyByRecursion (λ r. BodyIsWide g value' r.body.value ⊎ IsWideAt g value' priority r) rules.now.rules.items)) }
{
    match rules.rule_at(place) {
        Some(rule) => next_at(alloc, &rules.signature, rule, value, priority),
        None => Ok(None),
    }
}

/// The patterns of the rules that fire on the value and have this priority number, in order. Rules of other heads aren't
/// looked at.
pub fn nexts_at(
    alloc: Global,
    rules: &RuleSet,
    value: &Value,
    priority: u32,
) -> Result<Vec<Pattern>, GroundError>
    ensures nexts { IfOk result (λ ps. AreNexts (signature_view rules.now.signature.value) (value_view value.now) priority rules.now.rules.items (map view ps.items)) }
    ensures narrow { OnOk result (AllByRecursion (λ r. ¬ IsWideAt (signature_view rules.now.signature.value) (value_view value.now) priority r) rules.now.rules.items) }
    ensures refused { let g = signature_view rules.now.signature.value in let value' = value_view value.now in IfErr result (IsCausedBy g (AnyByRecursion (λ r. BodyIsWide g value' r.body.value ⊎ IsWideAt g value' priority r) rules.now.rules.items)) }
{
    let mut places = rules.rules_at(&head_of(value));
    let mut found = Vec::new(alloc);
    while let Some(place) = places.next() {
        let next = next_with(alloc, rules, place, value, priority)?;
        add_next(&mut found, next)?;
    }
    Ok(found)
}

/// Adds a next state, where there is one.
fn add_next(found: &mut Vec<Pattern>, next: Option<Pattern>) -> Result<(), AllocError>
    ensures { OnOk result (map view found.new.items ≡ map view found.old.items ++ next_list next) }
{
    match next {
        Some(pattern) => Ok(found.push(pattern)?),
        None => Ok(()),
    }
}
