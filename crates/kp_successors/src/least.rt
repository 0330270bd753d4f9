// The least priority number of the rules that fire.
ghost use Rattle.std.specs.Prelude.{◌≡◌, ◌↔◌, ◌++◌, ◌∷◌, [], ◌≤◌, List, IsTrue, IfOk, OnOk, IfErr, slice_get};
ghost use Rattle.std.specs.List.{AllByRecursion};
ghost use Rattle.kp_kore.specs.Signature.{KoreSignature};
ghost use Rattle.kp_signature.specs.View.{signature_view};
ghost use Rattle.kp_kore.specs.Value as model;
ghost use Rattle.kp_kore.specs.Steps.{AnyByRecursion};
ghost use Rattle.kp_ground.specs.View.{value_view};
ghost use Rattle.kp_rules.specs.declared.rule.Rule.{Rule};
ghost use Rattle.kp_rule_sets.specs.Turns.{with_first};
ghost use Rattle.kp_successors.specs.Errors.{IsCausedBy};
ghost use Rattle.kp_run.specs.Turns.{BodyFires, BodyIsWide};
ghost use Rattle.kp_successors.specs.Turns.{IsLeast};

use crate::error::GroundError;
use kp_ground::Value;
use kp_rule_sets::{RuleSet, head_of};
use kp_rules::{Rule, RuleBody};
use kp_signature::Signature;
use std::alloc::Global;

/// Whether the rule fires on the value; Number where its condition leaves 128 bits.
fn fires(
    alloc: Global,
    signature: &Signature,
    rule: &Rule,
    value: &Value,
) -> Result<bool, GroundError>
    ensures fires { IfOk result (λ b. IsTrue b ↔ BodyFires (signature_view signature.now) (value_view value.now) rule.now.body.value) }
    ensures narrow { OnOk result (¬ BodyIsWide (signature_view signature.now) (value_view value.now) rule.now.body.value) }
    ensures refused { IfErr result (IsCausedBy (signature_view signature.now) (BodyIsWide (signature_view signature.now) (value_view value.now) rule.now.body.value)) }
{
    match &*rule.body {
        RuleBody::Foreign(_) => Ok(false),
        RuleBody::Rewrite(rewrite) => Ok(rewrite.fires(alloc, signature, value)?.is_some()),
    }
}

/// The least priority number when one more rule is asked.
fn least_after(least: Option<u32>, priority: u32, fires: bool) -> Option<u32>
    ensures { (g : KoreSignature) (u : model.Value) (rules : List Rule) (r : Rule) → let asked = rules ++ r ∷ [] in IsLeast g u rules least → r.priority ≡ priority → IsTrue fires ↔ BodyFires g u r.body.value → IsLeast g u asked result }
{
    if !fires {
        return least;
    }
    match least {
        None => Some(priority),
        Some(number) => {
            if priority < number {
                Some(priority)
            } else {
                Some(number)
            }
        }
    }
}

/// The least priority number when the rule at one more place is asked.
fn least_with(
    alloc: Global,
    rules: &RuleSet,
    place: usize,
    value: &Value,
    least: Option<u32>,
) -> Result<Option<u32>, GroundError>
    ensures least { let g = signature_view rules.now.signature.value in let value' = value_view value.now in
        IfOk result (λ next. (before : List Rule) → IsLeast g value' before least →
        IsLeast g value' (before ++ with_first (slice_get rules.now.rules.items place) []) next) }
    ensures narrow { let g = signature_view rules.now.signature.value in let value' = value_view value.now in let asked = with_first (slice_get rules.now.rules.items place) [] in OnOk result (AllByRecursion (λ r. ¬ BodyIsWide g value' r.body.value) asked) }
    ensures refused { let g = signature_view rules.now.signature.value in IfErr result (IsCausedBy g (AnyByRecursion (λ r. BodyIsWide g (value_view value.now) r.body.value) rules.now.rules.items)) }
{
    match rules.rule_at(place) {
        Some(rule) => {
            let fires = fires(alloc, &rules.signature, rule, value)?;
            Ok(least_after(least, rule.priority, fires))
        }
        None => Ok(least),
    }
}

/// The least priority number of the rules that fire on the value. Rules of other heads aren't looked at.
pub fn least_priority(
    alloc: Global,
    rules: &RuleSet,
    value: &Value,
) -> Result<Option<u32>, GroundError>
    ensures least { IfOk result (λ o. IsLeast (signature_view rules.now.signature.value) (value_view value.now) rules.now.rules.items o) }
    ensures narrow { OnOk result (AllByRecursion (λ r. ¬ BodyIsWide (signature_view rules.now.signature.value) (value_view value.now) r.body.value) rules.now.rules.items) }
    ensures refused { let g = signature_view rules.now.signature.value in IfErr result (IsCausedBy g (AnyByRecursion (λ r. BodyIsWide g (value_view value.now) r.body.value) rules.now.rules.items)) }
{
    let mut places = rules.rules_at(&head_of(value));
    let mut least = None;
    while let Some(place) = places.next() {
        least = least_with(alloc, rules, place, value, least)?;
    }
    Ok(least)
}
