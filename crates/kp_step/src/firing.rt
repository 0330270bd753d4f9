// A rule against a part of a state.
ghost use Rattle.std.specs.Prelude.{◌≡◌, map, IfOk};
ghost use Rattle.kp_kore.specs.View.{view};
ghost use Rattle.kp_compile.specs.Parts.{seen};
ghost use Rattle.kp_symbolic.specs.Languages.{language_view};
ghost use Rattle.kp_symbolic.specs.View.{clauses_view, replaced_view};
ghost use Rattle.kp_step.specs.Conditions.{condition_clauses};
ghost use Rattle.kp_step.specs.Firings.{clauses_of_firing};
ghost use Rattle.kp_step.specs.FiringPromises.{FiresOnPart};
ghost use Rattle.kp_unify.specs.Views.{HasItsTable};

use crate::placed_variables::are_placed;
use kp_clauses::clauses_of_all;
use kp_compile::CompileError;
use kp_kore::Pattern;
use kp_rules::ReadSides;
use kp_symbolic::{Clause, Language, Replaced};
use kp_unify::refined::behind;
use kp_unify::{Meeting, MetPart, Part, Setting, meet};
use std::alloc::{AllocError, Global};

/// The part that a rule's left side meets, the equations and the clauses of the condition under which the rule fires there, what
/// its variables stand for, and the parts where it doesn't fire.
#[derive(Drop)]
pub struct Firing {
    pub part: Part,
    pub equations: Vec<Clause>,
    pub condition: Vec<Clause>,
    pub bindings: Vec<Replaced>,
    pub apart: Vec<Part>,
}

/// The equations, and the clauses of the condition behind them.
pub fn all_clauses(alloc: Global, firing: &Firing) -> Result<Vec<Clause>, AllocError>
    ensures { IfOk result (λ cs. clauses_view cs.items ≡ clauses_of_firing firing.now) }
{
    behind(alloc, &firing.equations, &firing.condition)
}

/// The patterns, lent.
pub fn lent<'a>(alloc: Global, patterns: &'a [Pattern]) -> Result<Vec<&'a Pattern>, AllocError>
    ensures { IfOk result (λ ps. seen ps.items ≡ map view patterns.now) }
{
    let mut found = Vec::new(alloc);
    for pattern in patterns {
        found.push(pattern)?;
    }
    Ok(found)
}

/// The clauses of the rule's condition, with what its variables stand for.
fn condition_of(
    alloc: Global,
    language: &Language,
    sides: &ReadSides,
    bindings: &[Replaced],
) -> Result<Vec<Clause>, CompileError>
    ensures { IfOk result (λ cs. clauses_view cs.items ≡ condition_clauses (language_view language.now) (map replaced_view bindings.now) (map view sides.now.condition.items)) }
{
    let condition = lent(alloc, &sides.condition)?;
    clauses_of_all(alloc, language, bindings, &condition)
}

/// What was met, with these clauses of the rule's condition.
fn make_firing(meeting: Meeting, condition: Vec<Clause>) -> Firing
    ensures part { result.part ≡ meeting.met.part }
    ensures equations { result.equations ≡ meeting.met.equations }
    ensures condition { result.condition ≡ condition }
    ensures bindings { result.bindings ≡ meeting.met.bindings }
    ensures apart { result.apart ≡ meeting.apart }
{
    let Meeting { met, apart } = meeting;
    let MetPart {
        part,
        equations,
        bindings,
    } = met;
    Firing {
        part,
        equations,
        condition,
        bindings,
        apart,
    }
}

/// Where a rule fires in a part; None where its left side doesn't meet the part. Refused where a sum can't be written, where an
/// equation or what a variable of the left side stands for hasn't its sort by its form (a Shape: it has no place in Kore), or for
/// want of memory.
pub fn fire(
    alloc: Global,
    setting: &Setting<'_>,
    part: &Part,
    sides: &ReadSides,
) -> Result<Option<Firing>, CompileError>
    requires heads { HasItsTable setting.now }
    ensures { FiresOnPart setting.now part.now sides.now result }
{
    match meet(alloc, setting, part, &sides.left)? {
        Some(meeting) => {
            if !are_placed(
                &sides.left,
                setting.language.signature,
                &meeting.met.bindings,
            ) {
                return Err(CompileError::Shape);
            }
            let condition = condition_of(alloc, setting.language, sides, &meeting.met.bindings)?;
            Ok(Some(make_firing(meeting, condition)))
        }
        None => Ok(None),
    }
}
