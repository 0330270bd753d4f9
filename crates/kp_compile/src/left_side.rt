ghost use Rattle.std.specs.Prelude.{◌≡◌, [], IfOk, IfErr, OnOk, map, string_bytes, true};
ghost use Rattle.std.specs.List.{AllByRecursion};
ghost use Rattle.kp_kore.specs.Syntax.{KoreSorts, application};
ghost use Rattle.kp_kore.specs.Parts.{all_free_variables};
ghost use Rattle.kp_kore.specs.View.{view, patterns_view};
ghost use Rattle.kp_kore.specs.Instance.{Valuation};
ghost use Rattle.kp_ground.specs.Slots.{is_numbered, joined, left_places, left_variables, names_after, with_name};
ghost use Rattle.kp_ground.specs.Terms.{left_bound, left_built, left_value};
ghost use Rattle.kp_ground.specs.LeftView.{left_view, lefts_of};
ghost use Rattle.kp_signature.specs.View.{signature_view};
ghost use Rattle.kp_compile.specs.Exact.{applied_instance, IsLeftOf, AreLeftsOf, HasPlacesOf, IsPlaceOf};
ghost use Rattle.kp_compile.specs.Names.{names_seen};
ghost use Rattle.kp_compile.specs.Verified.{IsVerifiedLeftTerm};
ghost use Rattle.kp_compile.specs.declared.error.CompileError.TheVariants.{Memory};

use crate::error::CompileError;
use crate::literal::literal_value;
use crate::names::{NameSet, no_names, slot_with};
use crate::term::shared_name;
use kp_ground::CompiledLeft;
use kp_kore::{Name, Pattern};
use kp_signature::{Meaning, Signature, meaning_of};
use std::alloc::Global;
use std::sync::Arc;

/// A constructor with its arguments.
fn make_built(constructor: Arc<String>, arguments: Vec<CompiledLeft>) -> CompiledLeft
    ensures seen { left_view result ≡ left_built (string_bytes constructor.value) (lefts_of (map left_view arguments.items)) }
    ensures places { left_places result ≡ joined (map left_places arguments.items) }
{
    CompiledLeft::Built {
        constructor,
        arguments,
    }
}

/// A variable at its first place, where it gets its number, or at a later one.
fn variable(alloc: Global, name: &Name, names: &mut NameSet) -> Result<CompiledLeft, CompileError>
    ensures seen { IfOk result (λ l. left_view l ≡ left_bound (string_bytes name.now)) }
    ensures place { IfOk result (λ l. IsPlaceOf (string_bytes name.now) (names_seen names.new) (left_places l)) }
    ensures names { OnOk result (names_seen names.new ≡ with_name (names_seen names.old) (string_bytes name.now)) }
    ensures refused { IfErr result (λ e. e ≡ Memory) }
{
    let slot = slot_with(names, name)?;
    Ok(CompiledLeft::Variable {
        name: shared_name(alloc, name)?,
        slot,
    })
}

/// The left term that a pattern is, with the same value under every valuation; the names of its variables are added.
#[cycle(compile)]
fn left_of(
    pattern: &Pattern,
    alloc: Global,
    signature: &Signature,
    names: &mut NameSet,
) -> Result<CompiledLeft, CompileError>
    ensures meaning { IfOk result (IsLeftOf (signature_view signature.now) (view pattern.now)) }
    ensures places { IfOk result (HasPlacesOf (view pattern.now)) }
    ensures numbered { IfOk result (λ l. is_numbered (names_seen names.old) (left_places l) ≡ true) }
    ensures names { IfOk result (λ l. names_seen names.new ≡ names_after (names_seen names.old) (left_places l)) }
    ensures refused { IfErr result (λ e. IsVerifiedLeftTerm (signature_view signature.now) (view pattern.now) → e ≡ Memory) }
{
    match pattern {
        Pattern::Variable { name, .. } => variable(alloc, name, names),
        Pattern::Literal { sort, text } => Ok(CompiledLeft::Fixed {
            value: literal_value(alloc, signature, sort, text)?,
        }),
        Pattern::Application {
            symbol,
            arguments,
            ..
        } => compile_applied(arguments, alloc, signature, symbol, names),
        _ => Err(CompileError::Shape),
    }
}

/// The left term of a name applied to arguments.
#[cycle(compile)]
fn compile_applied(
    arguments: &[Pattern],
    alloc: Global,
    signature: &Signature,
    name: &Name,
    names: &mut NameSet,
) -> Result<CompiledLeft, CompileError>
    ensures meaning { let g = signature_view signature.now in let arguments' = patterns_view arguments.now in IfOk result (λ t. (v : Valuation) → left_value v (left_view t) ≡ applied_instance g v (string_bytes name.now) arguments') }
    ensures places { IfOk result (λ l. map (λ x. x.name) (left_places l) ≡ map (λ x. x.name) (all_free_variables (patterns_view arguments.now))) }
    ensures numbered { IfOk result (λ l. is_numbered (names_seen names.old) (left_places l) ≡ true) }
    ensures names { IfOk result (λ l. names_seen names.new ≡ names_after (names_seen names.old) (left_places l)) }
    ensures refused { let g = signature_view signature.now in let arguments' = patterns_view arguments.now in IfErr result (λ e. (ss : KoreSorts) → IsVerifiedLeftTerm g (application (string_bytes name.now) ss arguments') → e ≡ Memory) }
{
    match meaning_of(signature, name) {
        Meaning::Injection => match arguments {
            [argument] => left_of(argument, alloc, signature, names),
            _ => Err(CompileError::Shape),
        },
        Meaning::Constructor => {
            let shared = shared_name(alloc, name)?;
            let lefts = compile_each(arguments, alloc, signature, names)?;
            Ok(make_built(shared, lefts))
        }
        Meaning::Interpreted(_) => Err(CompileError::Shape),
        Meaning::Foreign => Err(CompileError::Shape),
    }
}

/// The left terms that patterns are, one by one.
#[cycle(compile)]
fn compile_each(
    patterns: &[Pattern],
    alloc: Global,
    signature: &Signature,
    names: &mut NameSet,
) -> Result<Vec<CompiledLeft>, CompileError>
    ensures meaning { IfOk result (λ ts. AreLeftsOf (signature_view signature.now) patterns.now ts.items) }
    ensures places { IfOk result (λ ts. map (λ x. x.name) (joined (map left_places ts.items)) ≡ map (λ x. x.name) (all_free_variables (patterns_view patterns.now))) }
    ensures numbered { IfOk result (λ ts. is_numbered (names_seen names.old) (joined (map left_places ts.items)) ≡ true) }
    ensures names { IfOk result (λ ts. names_seen names.new ≡ names_after (names_seen names.old) (joined (map left_places ts.items))) }
    ensures refused { IfErr result (λ e. AllByRecursion (λ p. IsVerifiedLeftTerm (signature_view signature.now) (view p)) patterns.now → e ≡ Memory) }
{
    let mut lefts = Vec::new(alloc);
    for pattern in patterns {
        lefts.push(left_of(pattern, alloc, signature, names)?)?;
    }
    Ok(lefts)
}

/// The left term that a pattern is: it has the pattern's instance under every valuation, and its variables are numbered
/// in the order of their first places. With it come their names. An interpreted symbol in it is a Shape.
pub fn compile_left(
    alloc: Global,
    signature: &Signature,
    pattern: &Pattern,
) -> Result<(CompiledLeft, NameSet), CompileError>
    ensures meaning { IfOk result (λ l. IsLeftOf (signature_view signature.now) (view pattern.now) l.0) }
    ensures places { IfOk result (λ l. HasPlacesOf (view pattern.now) l.0) }
    ensures numbered { IfOk result (λ l. is_numbered [] (left_places l.0) ≡ true) }
    ensures names { IfOk result (λ l. names_seen l.1 ≡ left_variables l.0) }
    ensures refused { IfErr result (λ e. IsVerifiedLeftTerm (signature_view signature.now) (view pattern.now) → e ≡ Memory) }
{
    let mut names = no_names(alloc);
    let left = left_of(pattern, alloc, signature, &mut names)?;
    Ok((left, names))
}
