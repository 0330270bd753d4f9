// The parts that rules leave to a rule, or to none.
ghost use Rattle.std.specs.Prelude.{◌↔◌, IsTrue};
ghost use Rattle.kp_step.specs.Remainders.{TakesBy};
ghost use Rattle.kp_step.specs.Promises.{LeavesWithout, LeavesBy, TakesAllBy, LeavesAfter, TakesAllAfter};
ghost use Rattle.kp_unify.specs.Views.{HasItsTable};

use crate::exclude;
use crate::rules::read_at;
use crate::turns::Turn;
use kp_compile::CompileError;
use kp_rule_sets::RuleSet;
use kp_rules::ReadSides;
use kp_unify::{Part, Setting};
use std::alloc::Global;

/// The parts of these where the rule doesn't fire.
fn without(
    alloc: Global,
    setting: Setting<'_>,
    parts: &[Part],
    sides: &ReadSides,
) -> Result<Vec<Part>, CompileError>
    requires { HasItsTable setting }
    ensures { LeavesWithout setting.entry parts.now sides.now result }
{
    let mut found = Vec::new(alloc);
    for part in parts {
        let mut more = exclude(alloc, &setting, part, sides)?;
        found.append(&mut more)?;
    }
    Ok(found)
}

/// Whether the rule takes from what is left to one of this priority number, or to none.
fn takes(turn: &Turn, priority: Option<u32>) -> bool
    ensures { IsTrue result ↔ TakesBy turn.now.priority priority }
{
    match priority {
        Some(number) => turn.priority < number,
        None => true,
    }
}

/// What one more rule leaves of the parts.
fn left_by(
    alloc: Global,
    setting: Setting<'_>,
    rules: &RuleSet,
    turn: &Turn,
    priority: Option<u32>,
    parts: Vec<Part>,
) -> Result<Vec<Part>, CompileError>
    requires { HasItsTable setting }
    ensures alone { TakesAllBy setting.entry rules.now turn.now priority parts result }
    ensures left { LeavesBy setting.entry rules.now turn.now priority parts result }
{
    if !takes(turn, priority) {
        return Ok(parts);
    }
    match read_at(rules, turn.place) {
        Some(rewrite) => without(alloc, setting, &parts, &rewrite.sides),
        None => Ok(parts),
    }
}

/// What the rules that are found leave of the parts to a rule of this priority number, or to none.
pub fn left_after(
    alloc: Global,
    setting: Setting<'_>,
    rules: &RuleSet,
    turns: &[Turn],
    priority: Option<u32>,
    parts: Vec<Part>,
) -> Result<Vec<Part>, CompileError>
    requires { HasItsTable setting }
    ensures alone { TakesAllAfter setting.entry rules.now turns.now priority parts result }
    ensures left { LeavesAfter setting.entry rules.now turns.now priority parts result }
{
    let mut left = parts;
    for turn in turns {
        left = left_by(alloc, setting, rules, turn, priority, left)?;
    }
    Ok(left)
}
