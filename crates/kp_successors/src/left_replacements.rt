// What stands for the left term's variables.
ghost use Rattle.std.specs.Prelude.{◌≡◌, ◌++◌, ◌∷◌, [], true, IfOk, OnOk, IfErr, string_bytes};
ghost use Rattle.kp_kore.specs.View.{view, sort_view};
ghost use Rattle.kp_signature.specs.View.{signature_view};
ghost use Rattle.kp_kore.specs.Value.{HasSort};
ghost use Rattle.kp_kore.specs.Instance.{Valuation};
ghost use Rattle.kp_ground.specs.Solves.{Solves, bound_names};
ghost use Rattle.kp_ground.specs.Slots.{is_one_of};
ghost use Rattle.kp_compile.specs.Names.{names_seen};
ghost use Rattle.kp_compile.specs.Spelled.{IsSpellingOf};
ghost use Rattle.kp_pattern_substitution.specs.Seen.{replacements_view, replacement_view};
ghost use Rattle.kp_successors.specs.Errors.{IsCausedBy};
ghost use Rattle.kp_successors.specs.Nexts.{left_of, AreForLeft, Spell};

use crate::error::GroundError;
use kp_compile::{NameSet, slot_of, spelled};
use kp_ground::Binding;
use kp_ground::binding::bound_at;
use kp_kore::SortedVariable;
use kp_pattern_substitution::Replacement;
use kp_rules::{RightSide, is_named};
use kp_signature::Signature;
use std::alloc::{AllocError, Global};

/// The spelled values of the left term's variables but those that are new.
pub fn left_replacements(
    alloc: Global,
    signature: &Signature,
    side: &RightSide,
    bindings: &[Binding],
) -> Result<Vec<Replacement>, GroundError>
    requires { names_seen side.now.left_names ≡ bound_names bindings.now }
    ensures names { IfOk result (λ rs. AreForLeft side.now (replacements_view rs.items)) }
    ensures spelled { IfOk result (λ rs. Spell (signature_view signature.now) (left_of side.now) (λ v. Solves v bindings.now) (replacements_view rs.items)) }
    ensures refused { IfErr result (IsCausedBy (signature_view signature.now) ⊥) }
{
    let mut found = Vec::new(alloc);
    for variable in &side.left_variables {
        if !is_named(variable.name.as_str(), &side.new_variables) {
            let replacement = replacement_of(
                alloc,
                signature,
                &side.left_names,
                variable,
                bindings,
            )?;
            add(&mut found, replacement)?;
        }
    }
    Ok(found)
}

/// Adds a replacement.
fn add(found: &mut Vec<Replacement>, replacement: Replacement) -> Result<(), AllocError>
    ensures { OnOk result (replacements_view found.new.items ≡ replacements_view found.old.items ++ replacement_view replacement ∷ []) }
{
    Ok(found.push(replacement)?)
}

/// What stands for a variable of one of these names: the spelling of the value that it is bound to.
fn replacement_of(
    alloc: Global,
    signature: &Signature,
    names: &NameSet,
    variable: &SortedVariable,
    bindings: &[Binding],
) -> Result<Replacement, GroundError>
    requires names { names_seen names.now ≡ bound_names bindings.now }
    requires named { is_one_of (string_bytes variable.now.name) (names_seen names.now) ≡ true }
    ensures name { IfOk result (λ r. string_bytes r.name ≡ string_bytes variable.now.name) }
    ensures spelled { let g = signature_view signature.now in
        IfOk result (λ r. (v : Valuation) → Solves v bindings.now →
        HasSort g (sort_view variable.now.sort) (v (string_bytes variable.now.name)) →
        IsSpellingOf g (v (string_bytes variable.now.name)) (view r.term)) }
    ensures refused { IfErr result (IsCausedBy (signature_view signature.now) ⊥) }
{
    let value = bound_at(bindings, slot_of(names, variable.name.as_str()));
    Ok(Replacement {
        name: variable.name.clone()?,
        term: spelled(alloc, signature, value, &variable.sort)?,
    })
}
