// The rules of a rule set, as a symbolic step asks for them.
ghost use Rattle.std.specs.Option.{option_map};
ghost use Rattle.kp_kore.specs.Theory.{Theory};
ghost use Rattle.kp_rule_sets.specs.RuleSets.{RunsAs};
ghost use Rattle.kp_step.specs.Rules.{TellsRead, TellsSkeleton};
ghost use Rattle.kp_step.specs.Places.{IsPriorityAt};

use kp_rule_sets::RuleSet;
use kp_rules::{Rewrite, RuleBody, Skeleton};

/// The rule at this place, where it is read.
pub fn read_at(rules: &RuleSet, place: usize) -> Option<&Rewrite>
    ensures { (t : Theory) → RunsAs t rules.now → TellsRead t place (option_map (λ r. r.now) result) }
{
    match rules.rule_at(place) {
        Some(rule) => match &*rule.body {
            RuleBody::Rewrite(rewrite) => Some(rewrite),
            RuleBody::Foreign(_) => None,
        },
        None => None,
    }
}

/// What the left side of the rule at this place may stand for, where it is foreign.
pub fn foreign_at(rules: &RuleSet, place: usize) -> Option<&Skeleton>
    ensures { (t : Theory) → RunsAs t rules.now → TellsSkeleton t place (option_map (λ k. k.now) result) }
{
    match rules.rule_at(place) {
        Some(rule) => match &*rule.body {
            RuleBody::Rewrite(_) => None,
            RuleBody::Foreign(skeleton) => Some(skeleton),
        },
        None => None,
    }
}

/// The priority number of the rule at this place.
pub fn priority_at(rules: &RuleSet, place: usize) -> u32
    ensures { (t : Theory) → RunsAs t rules.now → IsPriorityAt t place result }
{
    match rules.rule_at(place) {
        Some(rule) => rule.priority,
        None => u32::MAX,
    }
}
