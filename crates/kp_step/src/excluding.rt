// The parts of a part where a rule doesn't fire.
ghost use Rattle.std.specs.Prelude.{◌≡◌, [], ◌∷◌, IfOk, OnOk};
ghost use Rattle.kp_symbolic.specs.View.{state_view};
ghost use Rattle.kp_unify.specs.Views.{signature_of, numbered_view, HasItsTable};
ghost use Rattle.kp_step.specs.Firings.{numbered, clauses_of_firing};
ghost use Rattle.kp_step.specs.FiringPromises.{TellsNowhere, AddsExcluded, KeepsExcluded, opposite_of_firing, ExcludesFiring, ExcludesFiringOn, ExcludesRule};
ghost use Rattle.kp_step.specs.Laws.{CanBeDenied};

use crate::firing::{Firing, all_clauses, fire};
use crate::kept_parts::{constrained, is_empty, plain_part};
use crate::opposite::negate;
use kp_compile::CompileError;
use kp_rules::ReadSides;
use kp_solving::constrain;
use kp_unify::{Part, Setting};
use std::alloc::{AllocError, Global};

/// The part alone.
fn alone(alloc: Global, part: &Part) -> Result<Vec<Part>, CompileError>
    ensures { IfOk result (λ ps. numbered ps.items ≡ numbered_view part.now ∷ []) }
{
    let mut parts = Vec::new(alloc);
    parts.push(part.share(alloc)?)?;
    Ok(parts)
}

/// Whether it is known that the rule doesn't fire on the part that it meets, by the part's clauses all of whose literals are
/// decided: others don't help here, since a clause that is shown needn't be true with them.
fn never_fires(alloc: Global, setting: &Setting<'_>, firing: &Firing) -> Result<bool, AllocError>
    requires heads { HasItsTable setting.now }
    ensures { TellsNowhere (signature_of setting.now) firing.now result }
{
    let signature = setting.language.signature;
    let plain = plain_part(alloc, signature, &firing.part.state)?;
    let clauses = all_clauses(alloc, firing)?;
    let state = constrain(alloc, &plain, &clauses)?;
    is_empty(alloc, signature, setting.table, &state)
}

/// Adds the part, unless it is known that it has no instance.
fn add_kept(
    kept: &mut Vec<Part>,
    alloc: Global,
    setting: &Setting<'_>,
    part: Part,
) -> Result<(), CompileError>
    requires heads { HasItsTable setting.now }
    ensures { AddsExcluded (signature_of setting.now) kept.old part result kept.new }
{
    if is_empty(
        alloc,
        setting.language.signature,
        setting.table,
        &part.state,
    )? {
        return Ok(());
    }
    kept.push(part)?;
    Ok(())
}

/// The parts that aren't known to have no instance.
fn kept_parts(
    alloc: Global,
    setting: &Setting<'_>,
    parts: Vec<Part>,
) -> Result<Vec<Part>, CompileError>
    requires heads { HasItsTable setting.now }
    ensures { KeepsExcluded (signature_of setting.now) parts result }
{
    let mut kept = Vec::new(alloc);
    for part in parts {
        add_kept(&mut kept, alloc, setting, part)?;
    }
    Ok(kept)
}

/// The part that is met where not all of the clauses are true.
fn opposite_part(
    alloc: Global,
    setting: &Setting<'_>,
    firing: &Firing,
) -> Result<Part, CompileError>
    ensures view { IfOk result (λ p. numbered_view p ≡ opposite_of_firing (signature_of setting.now) firing.now) }
    ensures right { OnOk result (CanBeDenied (signature_of setting.now) (state_view firing.now.part.state).sort (clauses_of_firing firing.now)) }
{
    let clauses = all_clauses(alloc, firing)?;
    let sort = &firing.part.state.sort;
    let others = negate(alloc, setting.language, sort, &clauses)?;
    Ok(constrained(alloc, &firing.part, &others)?)
}

/// The part that is met where not all of the clauses are true, and the parts that aren't met.
fn without(alloc: Global, setting: &Setting<'_>, firing: Firing) -> Result<Vec<Part>, CompileError>
    ensures { ExcludesFiring (signature_of setting.now) firing result }
{
    let met = opposite_part(alloc, setting, &firing)?;
    let Firing { mut apart, .. } = firing;
    let mut parts = Vec::new(alloc);
    parts.push(met)?;
    parts.append(&mut apart)?;
    Ok(parts)
}

/// The parts of a part where the rule that fires there doesn't: the part itself, where nothing has to be added.
fn exclude_firing(
    alloc: Global,
    setting: &Setting<'_>,
    part: &Part,
    firing: Firing,
) -> Result<Vec<Part>, CompileError>
    requires heads { HasItsTable setting.now }
    ensures { ExcludesFiringOn (signature_of setting.now) part.now firing result }
{
    if never_fires(alloc, setting, &firing)? {
        return alone(alloc, part);
    }
    let parts = without(alloc, setting, firing)?;
    kept_parts(alloc, setting, parts)
}

/// The parts of a part where the rule doesn't fire: the part itself, where nothing has to be added. A part is dropped where it is
/// decided that it has no instance, and in no other case.
pub fn exclude(
    alloc: Global,
    setting: &Setting<'_>,
    part: &Part,
    sides: &ReadSides,
) -> Result<Vec<Part>, CompileError>
    requires heads { HasItsTable setting.now }
    ensures { ExcludesRule setting.now part.now sides.now result }
{
    match fire(alloc, setting, part, sides)? {
        Some(found) => exclude_firing(alloc, setting, part, found),
        None => alone(alloc, part),
    }
}
