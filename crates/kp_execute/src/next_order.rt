// Whether next states stand by the priority numbers of their rules, and of one number as the rules stand.
ghost use Rattle.std.specs.Prelude.{IfSome, IsTrue, None};
ghost use Rattle.kp_kore.specs.Theory.{Theory};
ghost use Rattle.kp_rule_sets.specs.RuleSets.{RunsAs};
ghost use Rattle.kp_execute.specs.Order.{AreBehind, ArePlacesInTurn, HasNumber, IsBehind, IsEndInTurn};

use crate::ending::Ending;
use kp_rule_sets::RuleSet;
use kp_step::Next;
use kp_step::rules::{priority_at, read_at};

/// The priority number of the rule at this place, where it is read.
fn number_at(rules: &RuleSet, place: usize) -> Option<u32>
    ensures { (t : Theory) → RunsAs t rules.now → IfSome result (HasNumber t place) }
{
    match read_at(rules, place) {
        Some(_) => Some(priority_at(rules, place)),
        None => None,
    }
}

/// Whether the rule of the second place doesn't go before that of the first.
fn go_in_turn(rules: &RuleSet, first: usize, second: usize) -> bool
    ensures { (t : Theory) → RunsAs t rules.now → IsTrue result → ArePlacesInTurn t first second }
{
    let Some(one) = number_at(rules, first) else {
        return false;
    };
    let Some(other) = number_at(rules, second) else {
        return false;
    };
    if one != other {
        return one < other;
    }
    first <= second
}

/// Whether the rule of the place doesn't go before that of the last one, if there is one.
fn is_behind(rules: &RuleSet, last: Option<usize>, place: usize) -> bool
    ensures { (t : Theory) → RunsAs t rules.now → IsTrue result → IsBehind t last place }
{
    match last {
        Some(before) => go_in_turn(rules, before, place),
        None => true,
    }
}

/// Whether the next states stand in their rules' turns.
fn are_in_turn(rules: &RuleSet, nexts: &[Next]) -> bool
    ensures { (t : Theory) → RunsAs t rules.now → IsTrue result → AreBehind t None nexts.now }
{
    let mut last: Option<usize> = None;
    for next in nexts {
        if !is_behind(rules, last, next.rule) {
            return false;
        }
        last = Some(next.rule);
    }
    true
}

/// Whether the next states of this end stand in their rules' turns.
pub fn is_end_in_turn(rules: &RuleSet, ending: &Ending) -> bool
    ensures { (t : Theory) → RunsAs t rules.now → IsTrue result → IsEndInTurn t ending.now }
{
    match ending {
        Ending::Branching {
            nexts,
            remainder: _remainder,
        } => are_in_turn(rules, nexts),
        _ => true,
    }
}
