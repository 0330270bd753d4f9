// The names of a claim's variables.
ghost use Rattle.std.specs.Prelude.{◌≡◌, ◌++◌, ◌∷◌, [], List, true, false, IfOk, OnOk, MatchBool, map, string_bytes, option_to_list};
ghost use Rattle.std.specs.Option.{option_map};
ghost use Rattle.std.specs.List.{flat_map};
ghost use Rattle.kp_kore.specs.Syntax.{Text};
ghost use Rattle.kp_kore.specs.Parts.{free_variables};
ghost use Rattle.kp_kore.specs.View.{view, sorted_variable_view};
ghost use Rattle.kp_compile.specs.Parts.{seen};
ghost use Rattle.kp_names.specs.Met.{Lists};
ghost use Rattle.kp_claims.specs.Sides.{sides_view};
ghost use Rattle.kp_claim_sentences.specs.Claims.{TellsNew, bound_at, has_clear_names, are_apart as apart_test};

use indexmap::IndexMap;
use kp_claims::outline::ClaimOutline;
use kp_compile::{add_subpatterns, subpatterns};
use kp_kore::{Name, Pattern, SortedVariable};
use kp_names::names::{Names, is_noted, note};
use std::alloc::{AllocError, Global};

/// Whether no variable that a claim's sides bind has the name of another one.
pub fn are_clear(alloc: Global, sides: ClaimOutline<'_>) -> Result<bool, AllocError>
    ensures { IfOk result (λ b. b ≡ has_clear_names (sides_view sides.entry)) }
{
    let names = free_names(alloc, sides)?;
    let mut parts = subpatterns(alloc, sides.left)?;
    add_subpatterns(sides.right, &mut parts)?;
    are_apart(names, &parts)
}

/// The names of the free variables of both sides.
fn free_names(alloc: Global, sides: ClaimOutline<'_>) -> Result<Names, AllocError>
    ensures { IfOk result (Lists (map (λ x. x.name) (free_variables (sides_view sides.entry).left ++ free_variables (sides_view sides.entry).right))) }
{
    let mut names = IndexMap::new(alloc);
    let left = sides.left.free_vars(alloc)?;
    note_all(&mut names, &left)?;
    let right = sides.right.free_vars(alloc)?;
    note_all(&mut names, &right)?;
    Ok(names)
}

/// Notes the names of these variables.
pub fn note_all(names: &mut Names, variables: &[SortedVariable]) -> Result<(), AllocError>
    ensures { (before : List Text) → Lists before names.old → OnOk result (Lists (before ++ map (λ x. x.name) (map sorted_variable_view variables.now)) names.new) }
{
    for variable in variables {
        note(names, &variable.name)?;
    }
    Ok(())
}

/// Whether the names that these patterns bind are none of those, and none stands twice.
fn are_apart(met: Names, parts: &[&Pattern]) -> Result<bool, AllocError>
    ensures { (names : List Text) → Lists names met → IfOk result (λ b. b ≡ apart_test names (flat_map bound_at (seen parts.now))) }
{
    let mut names = met;
    for part in parts {
        if !is_new(&mut names, part)? {
            return Ok(false);
        }
    }
    Ok(true)
}

/// Notes the name that a pattern binds, if any; whether it wasn't noted.
fn is_new(names: &mut Names, part: &Pattern) -> Result<bool, AllocError>
    ensures lists { (before : List Text) → Lists before names.old → IfOk result (λ b. b ≡ true → Lists (before ++ bound_at (view part.now)) names.new) }
    ensures is { (before more : List Text) → let bound = bound_at (view part.now) ++ more in Lists before names.old → IfOk result (λ b. MatchBool b (apart_test (before ++ bound_at (view part.now)) more ≡ apart_test before bound) (apart_test before bound ≡ false)) }
{
    match bound_name(part) {
        Some(name) => is_new_name(names, name),
        None => Ok(true),
    }
}

/// Notes a name; whether it wasn't noted.
fn is_new_name(names: &mut Names, name: &Name) -> Result<bool, AllocError>
    ensures lists { (before : List Text) → Lists before names.old → IfOk result (λ b. b ≡ true → Lists (before ++ string_bytes name.now ∷ []) names.new) }
    ensures is { (before more : List Text) → Lists before names.old → IfOk result (TellsNew before (string_bytes name.now) more) }
{
    if is_noted(names, name) {
        return Ok(false);
    }
    note(names, name)?;
    Ok(true)
}

/// The name that `\exists` or `\forall` binds.
fn bound_name(pattern: &Pattern) -> Option<&Name>
    ensures { option_to_list (option_map (λ n. string_bytes n.now) result) ≡ bound_at (view pattern.now) }
{
    match pattern {
        Pattern::Exists { name, .. } => Some(name),
        Pattern::Forall { name, .. } => Some(name),
        _ => None,
    }
}
