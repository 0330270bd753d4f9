// The next states of rules that have their turn, and the parts that remain, their equations solved.
ghost use Rattle.std.specs.Prelude.{IfOk, List};
ghost use Rattle.kp_kore.specs.Syntax.{Text};
ghost use Rattle.kp_unify.specs.Views.{signature_of, HasItsTable};
ghost use Rattle.kp_step.specs.Promises.{FollowsInTurn, FollowsAtTurn, FollowsInTurns, SettlesPart, SettlesParts};

use crate::outcome::Next;
use crate::right_side::next_of;
use crate::rules::read_at;
use crate::turns::Turn;
use kp_compile::CompileError;
use kp_rule_sets::RuleSet;
use kp_rules::Rewrite;
use kp_solving::settle;
use kp_unify::{Part, Setting};
use std::alloc::Global;

/// What follows in the parts of a rule that has its turn.
fn turn_nexts(
    alloc: Global,
    setting: Setting<'_>,
    turn: &Turn,
    rewrite: &Rewrite,
) -> Result<Vec<Next>, CompileError>
    requires { HasItsTable setting }
    ensures { FollowsInTurn setting.entry turn.now rewrite.now result }
{
    let mut nexts = Vec::new(alloc);
    for part in &turn.parts {
        nexts.push(next_of(alloc, setting, turn.place, part, rewrite, &turn.bindings)?)?;
    }
    Ok(nexts)
}

/// The same of the rule at the turn's place.
fn nexts_at(
    alloc: Global,
    setting: Setting<'_>,
    rules: &RuleSet,
    turn: &Turn,
) -> Result<Vec<Next>, CompileError>
    requires { HasItsTable setting }
    ensures { FollowsAtTurn setting.entry rules.now turn.now result }
{
    match read_at(rules, turn.place) {
        Some(rewrite) => turn_nexts(alloc, setting, turn, rewrite),
        None => Ok(Vec::new(alloc)),
    }
}

/// The next states of all rules, by turn.
pub fn nexts_of(
    alloc: Global,
    setting: Setting<'_>,
    rules: &RuleSet,
    turns: &[Turn],
) -> Result<Vec<Next>, CompileError>
    requires { HasItsTable setting }
    ensures { FollowsInTurns setting.entry rules.now turns.now result }
{
    let mut nexts = Vec::new(alloc);
    for turn in turns {
        let mut more = nexts_at(alloc, setting, rules, turn)?;
        nexts.append(&mut more)?;
    }
    Ok(nexts)
}

/// The part with its equations solved.
fn settled(alloc: Global, setting: Setting<'_>, part: Part) -> Result<Part, CompileError>
    ensures { (used : List Text) → IfOk result (SettlesPart (signature_of setting.entry) used part) }
{
    let Part { state, added, next } = part;
    Ok(Part {
        state: settle(alloc, setting.language, state)?,
        added,
        next,
    })
}

/// The parts with their equations solved.
pub fn all_settled(
    alloc: Global,
    setting: Setting<'_>,
    parts: Vec<Part>,
) -> Result<Vec<Part>, CompileError>
    ensures { (used : List Text) → IfOk result (SettlesParts (signature_of setting.entry) used parts) }
{
    let mut found = Vec::new(alloc);
    for part in parts {
        found.push(settled(alloc, setting, part)?)?;
    }
    Ok(found)
}
