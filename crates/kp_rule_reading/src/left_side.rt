// The left term of a rule that is read, as a form.
ghost use Rattle.std.specs.Prelude.{◌≡◌, IfOk, IfErr, string_bytes};
ghost use Rattle.std.specs.List.{AllByRecursion};
ghost use Rattle.kp_kore.specs.Syntax.{KoreSorts, application};
ghost use Rattle.kp_kore.specs.Signature.{meaning_of as meaning_named};
ghost use Rattle.kp_kore.specs.View.{view, patterns_view};
ghost use Rattle.kp_signature.specs.View.{signature_view};
ghost use Rattle.kp_compile.specs.Verified.{IsVerifiedLeftTerm};
ghost use Rattle.kp_compile.specs.declared.error.CompileError.TheVariants.{Memory};
ghost use Rattle.kp_rules.specs.Skeletons.{skeleton_view};
ghost use Rattle.kp_rules.specs.LeftForms.{left_form, left_forms, applied_form};
ghost use Rattle.kp_rule_reading.specs.LeftForms.{AreLeftForms};

use kp_compile::{CompileError, literal_value};
use kp_kore::{Name, Pattern};
use kp_rules::Skeleton;
use kp_rules::skeleton::{built, one_value};
use kp_signature::{Meaning, Signature, meaning_of};
use std::alloc::Global;

/// The form of a left term: its variables stand for one value each, `inj` is seen through. An interpreted symbol in it, a
/// foreign one, or what is no term is a Shape.
#[cycle(left_side)]
pub fn left_side_of(
    pattern: &Pattern,
    alloc: Global,
    signature: &Signature,
) -> Result<Skeleton, CompileError>
    ensures form { IfOk result (λ k. skeleton_view k ≡ left_form (signature_view signature.now) (view pattern.now)) }
    ensures refused { IfErr result (λ e. IsVerifiedLeftTerm (signature_view signature.now) (view pattern.now) → e ≡ Memory) }
{
    match pattern {
        Pattern::Variable { name, sort } => Ok(one_value(alloc, name, sort)?),
        Pattern::Literal { sort, text } => Ok(Skeleton::Fixed {
            value: literal_value(alloc, signature, sort, text)?,
        }),
        Pattern::Application {
            symbol,
            arguments,
            ..
        } => applied_side(arguments, alloc, signature, symbol),
        _ => Err(CompileError::Shape),
    }
}

/// The form of a name applied to arguments.
#[cycle(left_side)]
fn applied_side(
    arguments: &[Pattern],
    alloc: Global,
    signature: &Signature,
    name: &Name,
) -> Result<Skeleton, CompileError>
    ensures form { let g = signature_view signature.now in let the_string_bytes = string_bytes name.now in IfOk result (λ k. skeleton_view k ≡ applied_form (meaning_named g the_string_bytes) the_string_bytes (left_forms g (patterns_view arguments.now))) }
    ensures refused { let g = signature_view signature.now in let arguments' = patterns_view arguments.now in IfErr result (λ e. (ss : KoreSorts) → IsVerifiedLeftTerm g (application (string_bytes name.now) ss arguments') → e ≡ Memory) }
{
    match meaning_of(signature, name) {
        Meaning::Injection => match arguments {
            [argument] => left_side_of(argument, alloc, signature),
            _ => Err(CompileError::Shape),
        },
        Meaning::Constructor => {
            let forms = left_sides_of(arguments, alloc, signature)?;
            Ok(built(alloc, name, forms)?)
        }
        Meaning::Interpreted(_) => Err(CompileError::Shape),
        Meaning::Foreign => Err(CompileError::Shape),
    }
}

/// The forms of left terms, one by one.
#[cycle(left_side)]
fn left_sides_of(
    patterns: &[Pattern],
    alloc: Global,
    signature: &Signature,
) -> Result<Vec<Skeleton>, CompileError>
    ensures forms { IfOk result (λ ks. AreLeftForms (signature_view signature.now) patterns.now ks.items) }
    ensures refused { IfErr result (λ e. AllByRecursion (λ p. IsVerifiedLeftTerm (signature_view signature.now) (view p)) patterns.now → e ≡ Memory) }
{
    let mut found = Vec::new(alloc);
    for pattern in patterns {
        found.push(left_side_of(pattern, alloc, signature)?)?;
    }
    Ok(found)
}
