// The parts of a right term in which no new variable stands.
ghost use Rattle.std.specs.Prelude.{◌≡◌, not, IfOk, OnOk, IfErr, map};
ghost use Rattle.std.specs.List.{list_all, AllByRecursion};
ghost use Rattle.kp_kore.specs.Parts.{subpatterns as parts_of};
ghost use Rattle.kp_kore.specs.View.{view, sorted_variable_view};
ghost use Rattle.kp_signature.specs.View.{signature_view};
ghost use Rattle.kp_kore.specs.Instance.{is_named as named_among};
ghost use Rattle.kp_compile.specs.Names.{names_seen};
ghost use Rattle.kp_compile.specs.Verified.{IsVerifiedTerm};
ghost use Rattle.kp_compile.specs.declared.error.CompileError.TheVariants.{Memory};
ghost use Rattle.kp_rules.specs.Shapes.{seen};
ghost use Rattle.kp_rules.specs.WideParts.{holds_none};
ghost use Rattle.kp_rule_reading.specs.Compiled.{AreOldParts, AddsOldPart};

use kp_compile::{CompileError, NameSet, compile_term, subpatterns};
use kp_ground::CompiledTerm;
use kp_kore::{Pattern, SortedVariable};
use kp_rules::is_named;
use kp_signature::Signature;
use std::alloc::{AllocError, Global};

/// What is compiled of the term's parts: those in which no new variable stands.
pub fn old_parts(
    alloc: Global,
    signature: &Signature,
    term: &Pattern,
    new_variables: &[SortedVariable],
    names: &NameSet,
) -> Result<Vec<CompiledTerm>, CompileError>
    ensures parts { let new = map sorted_variable_view new_variables.now in IfOk result (λ ts. AreOldParts (signature_view signature.now) (names_seen names.now) new (parts_of (view term.now)) ts.items) }
    ensures refused { IfErr result (λ e. AllByRecursion (IsVerifiedTerm (signature_view signature.now)) (parts_of (view term.now)) → e ≡ Memory) }
{
    let parts = subpatterns(alloc, term)?;
    old_among(alloc, signature, &parts, new_variables, names)
}

/// The same of these patterns.
fn old_among(
    alloc: Global,
    signature: &Signature,
    parts: &[&Pattern],
    new_variables: &[SortedVariable],
    names: &NameSet,
) -> Result<Vec<CompiledTerm>, CompileError>
    ensures parts { let new = map sorted_variable_view new_variables.now in IfOk result (λ ts. AreOldParts (signature_view signature.now) (names_seen names.now) new (seen parts.now) ts.items) }
    ensures refused { IfErr result (λ e. AllByRecursion (IsVerifiedTerm (signature_view signature.now)) (seen parts.now) → e ≡ Memory) }
{
    let mut found = Vec::new(alloc);
    for part in parts {
        add_old(alloc, signature, part, new_variables, names, &mut found)?;
    }
    Ok(found)
}

/// Adds what is compiled of the part, where no new variable stands in it.
fn add_old(
    alloc: Global,
    signature: &Signature,
    part: &Pattern,
    new_variables: &[SortedVariable],
    names: &NameSet,
    found: &mut Vec<CompiledTerm>,
) -> Result<(), CompileError>
    ensures added { let new = map sorted_variable_view new_variables.now in OnOk result (AddsOldPart (signature_view signature.now) (names_seen names.now) new (view part.now) found.old.items found.new.items) }
    ensures refused { IfErr result (λ e. IsVerifiedTerm (signature_view signature.now) (view part.now) → e ≡ Memory) }
{
    if !has_no_new(alloc, part, new_variables)? {
        return Ok(());
    }
    let term = compile_term(alloc, signature, names, part)?;
    Ok(found.push(term)?)
}

/// Whether no new variable stands in the part.
fn has_no_new(
    alloc: Global,
    part: &Pattern,
    new_variables: &[SortedVariable],
) -> Result<bool, AllocError>
    ensures { let new = map sorted_variable_view new_variables.now in IfOk result (λ b. b ≡ holds_none new (view part.now)) }
{
    let variables = part.free_vars(alloc)?;
    Ok(are_old(&variables, new_variables))
}

/// Whether none of them is a new variable.
fn are_old(variables: &[SortedVariable], new_variables: &[SortedVariable]) -> bool
    ensures { result ≡ list_all (λ x. not (named_among x.name (map sorted_variable_view new_variables.now))) (map sorted_variable_view variables.now) }
{
    for variable in variables {
        if is_named(variable.name.as_str(), new_variables) {
            return false;
        }
    }
    true
}
