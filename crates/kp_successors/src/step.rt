// The successors of a ground configuration.
ghost use Rattle.std.specs.Prelude.{◌≡◌, [], IsTrue, IfOk, OnOk, IfErr, map, string_bytes};
ghost use Rattle.kp_kore.specs.Syntax.{KoreSort};
ghost use Rattle.kp_kore.specs.Parts.{is_term, free_variables};
ghost use Rattle.kp_kore.specs.View.{view};
ghost use Rattle.kp_kore.specs.Value as model;
ghost use Rattle.kp_kore.specs.Sorted.{IsSorted};
ghost use Rattle.kp_kore.specs.Theory.{Theory};
ghost use Rattle.kp_kore.specs.Steps.{IsUnknown};
ghost use Rattle.kp_ground.specs.View.{value_view};
ghost use Rattle.kp_rule_sets.specs.RuleSets.{RunsAs};
ghost use Rattle.kp_compile.specs.Spelled.{IsGroundState};
ghost use Rattle.kp_successors.specs.Errors.{IsCausedBy, IsForeignBy};
ghost use Rattle.kp_successors.specs.Successors.{AreSuccessors, IsTooWide};
ghost use Rattle.kp_successors.specs.Refusals.{HasWideRule, IsRefusedFor};

use crate::error::GroundError;
use crate::least::least_priority;
use crate::next::nexts_at;
use crate::value::value_of;
use kp_ground::Value;
use kp_kore::Pattern;
use kp_rule_sets::RuleSet;
use kp_rules::Rule;
use kp_run::foreign_on;
use std::alloc::{AllocError, Global};

/// One pattern for each rule that has its turn on a closed term, in the order of the rules: its instances are exactly
/// the rule's successors. G1 where a number leaves 128 bits, else G2 where a foreign rule might rewrite the term.
pub fn ground_step(
    alloc: Global,
    rules: &RuleSet,
    pattern: &Pattern,
) -> Result<Vec<Pattern>, GroundError>
    ensures term { OnOk result (IsTrue (is_term (view pattern.now))) }
    ensures closed { OnOk result (free_variables (view pattern.now) ≡ []) }
    ensures successors { let pattern' = view pattern.now in (t : Theory) (s : KoreSort) (c : model.Value) → RunsAs t rules.now → IsGroundState t.signature pattern' s c →
        IfOk result (λ ps. AreSuccessors t c t.rules (map view ps.items)) }
    ensures known { (t : Theory) (s : KoreSort) (c : model.Value) → RunsAs t rules.now → IsGroundState t.signature (view pattern.now) s c → OnOk result (¬ IsUnknown t c) }
    ensures narrow { let pattern' = view pattern.now in (t : Theory) (s : KoreSort) (c : model.Value) → RunsAs t rules.now → IsGroundState t.signature pattern' s c → OnOk result (¬ IsTooWide t pattern' c) }
    ensures refused { let pattern' = view pattern.now in (t : Theory) (s : KoreSort) (c : model.Value) → RunsAs t rules.now → IsGroundState t.signature pattern' s c → IfErr result (IsRefusedFor t pattern' c) }
{
    let value = value_of(alloc, &rules.signature, pattern)?;
    let nexts = nexts_of(alloc, rules, &value)?;
    match foreign_on(alloc, rules, &value)? {
        Some(rule) => Err(foreign(alloc, rule)?),
        None => Ok(nexts),
    }
}

/// G2 by the rule.
fn foreign(alloc: Global, rule: &Rule) -> Result<GroundError, AllocError>
    ensures { IfOk result (IsForeignBy (string_bytes rule.now.id.value)) }
{
    Ok(GroundError::Foreign {
        id: String::from_str(alloc, rule.id.as_str())?,
    })
}

/// The patterns of the rules that fire and have the least priority number of these.
fn nexts_of(alloc: Global, rules: &RuleSet, value: &Value) -> Result<Vec<Pattern>, GroundError>
    ensures successors { let value' = value_view value.now in
        (t : Theory) → RunsAs t rules.now → IsSorted t.signature value' →
        IfOk result (λ ps. (¬ IsUnknown t value') → AreSuccessors t value' t.rules (map view ps.items)) }
    ensures narrow { (t : Theory) → RunsAs t rules.now → IsSorted t.signature (value_view value.now) → OnOk result (¬ HasWideRule t (value_view value.now)) }
    ensures refused { (t : Theory) → RunsAs t rules.now → IsSorted t.signature (value_view value.now) → IfErr result (IsCausedBy t.signature (HasWideRule t (value_view value.now))) }
{
    match least_priority(alloc, rules, value)? {
        Some(priority) => nexts_at(alloc, rules, value, priority),
        None => Ok(Vec::new(alloc)),
    }
}
