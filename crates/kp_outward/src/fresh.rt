// The least new name. The names that are used are noted once, so each candidate is one look-up.
ghost use Rattle.std.specs.Prelude.{◌≡◌, ◌++◌, ◌+◌, List, IfOk, OnOk, map, length, string_bytes};
ghost use Rattle.kp_kore.specs.Syntax.{Text};
ghost use Rattle.kp_names.specs.Met.{Lists};
ghost use Rattle.kp_symbolic.specs.Writing as model;
ghost use Rattle.kp_symbolic.specs.Writing.{least_fresh};

use indexmap::IndexMap;
use kp_kore::Name;
use kp_names::names::{Names, is_noted, note};
use std::alloc::{AllocError, Global};

/// `Fresh` and the least number from 1 that makes a name which isn't used.
pub fn fresh(alloc: Global, used: &[Name]) -> Result<Name, AllocError>
    ensures { IfOk result (λ x. string_bytes x ≡ least_fresh (map string_bytes used.now)) }
{
    let mut names = IndexMap::new(alloc);
    note_all(&mut names, used)?;
    first_free(alloc, &names, used.len())
}

/// Notes the names.
fn note_all(names: &mut Names, used: &[Name]) -> Result<(), AllocError>
    ensures { (before : List Text) → Lists before names.old → OnOk result (Lists (before ++ map string_bytes used.now) names.new) }
{
    for name in used {
        note(names, name)?;
    }
    Ok(())
}

/// The first such name that wasn't noted, where so many were.
fn first_free(alloc: Global, names: &Names, count: usize) -> Result<Name, AllocError>
    ensures { IfOk result (λ x. (used : List Text) → Lists used names.now → count ≡ length used → string_bytes x ≡ least_fresh used) }
{
    for before in 0..count {
        let name = fresh_name(alloc, before)?;
        if !is_noted(names, &name) {
            return Ok(name);
        }
    }
    fresh_name(alloc, count)
}

/// `Fresh` and the number behind this one.
fn fresh_name(alloc: Global, before: usize) -> Result<Name, AllocError>
    ensures { IfOk result (λ x. string_bytes x ≡ model.fresh_name (before + 1)) }
{
    let number = before as u128 + 1;
    format!(in alloc; "Fresh{number}")
}
