ghost use Rattle.std.specs.Prelude.{◌≡◌, ◌&&◌, List, IfOk, IfErr, map, string_bytes, true};
ghost use Rattle.std.specs.List.{AllByRecursion, list_all};
ghost use Rattle.kp_kore.specs.Syntax.{Text, KoreSorts, application};
ghost use Rattle.kp_kore.specs.Parts.{all_free_variables};
ghost use Rattle.kp_kore.specs.View.{view, patterns_view};
ghost use Rattle.kp_kore.specs.Instance.{Valuation};
ghost use Rattle.kp_kore.specs.HookView.{hook_view};
ghost use Rattle.kp_ground.specs.Slots.{term_reads};
ghost use Rattle.kp_ground.specs.Terms.{built, call, opposite, term_value};
ghost use Rattle.kp_ground.specs.TermView.{term_view, terms_of};
ghost use Rattle.kp_signature.specs.View.{signature_view};
ghost use Rattle.kp_compile.specs.Exact.{applied_instance, IsTermOf, AreTermsOf, IsNarrowAs, AreTermsNarrowAs, ReadsAs, ReadAllAs, are_named};
ghost use Rattle.kp_compile.specs.Names.{names_seen};
ghost use Rattle.kp_compile.specs.Verified.{IsVerifiedTerm};
ghost use Rattle.kp_compile.specs.declared.error.CompileError.TheVariants.{Memory};

use crate::error::CompileError;
use crate::literal::literal_value;
use crate::names::{NameSet, slot_of};
use kp_ground::CompiledTerm;
use kp_kore::{Hook, Name, Pattern};
use kp_signature::{Function, Meaning, Signature, meaning_of};
use std::alloc::{AllocError, Global};
use std::sync::Arc;

/// The same name, to be shared.
pub fn shared_name(alloc: Global, name: &Name) -> Result<Arc<String>, AllocError>
    ensures { IfOk result (λ shared. string_bytes shared.value ≡ string_bytes name.now) }
{
    Ok(Arc::new(alloc, name.clone()?)?)
}

/// A constructor with its arguments.
fn make_built(constructor: Arc<String>, arguments: Vec<CompiledTerm>) -> CompiledTerm
    ensures seen { term_view result ≡ built (string_bytes constructor.value) (terms_of (map term_view arguments.items)) }
    ensures reads { (xs : List Text) → term_reads xs result ≡ list_all (λ b. b) (map (term_reads xs) arguments.items) }
{
    CompiledTerm::Built {
        constructor,
        arguments,
    }
}

/// A call of two terms.
fn make_call(
    alloc: Global,
    hook: Hook,
    left: CompiledTerm,
    right: CompiledTerm,
) -> Result<CompiledTerm, AllocError>
    ensures seen { IfOk result (λ t. term_view t ≡ call (hook_view hook) (term_view left) (term_view right)) }
    ensures reads { (xs : List Text) → IfOk result (λ t. term_reads xs t ≡ (term_reads xs left && term_reads xs right)) }
{
    Ok(CompiledTerm::Call {
        hook,
        left: Box::new(alloc, left)?,
        right: Box::new(alloc, right)?,
    })
}

/// The opposite of a term.
fn make_opposite(alloc: Global, term: CompiledTerm) -> Result<CompiledTerm, AllocError>
    ensures seen { IfOk result (λ t. term_view t ≡ opposite (term_view term)) }
    ensures reads { (xs : List Text) → IfOk result (λ t. term_reads xs t ≡ term_reads xs term) }
{
    Ok(CompiledTerm::Opposite {
        term: Box::new(alloc, term)?,
    })
}

/// The term that a pattern is, with the same value under every valuation.
#[cycle(compile)]
fn term_of(
    pattern: &Pattern,
    alloc: Global,
    signature: &Signature,
    names: &NameSet,
) -> Result<CompiledTerm, CompileError>
    ensures meaning { IfOk result (IsTermOf (signature_view signature.now) (view pattern.now)) }
    ensures narrow { IfOk result (IsNarrowAs (signature_view signature.now) (view pattern.now)) }
    ensures reads { IfOk result (ReadsAs (names_seen names.now) (view pattern.now)) }
    ensures refused { IfErr result (λ e. IsVerifiedTerm (signature_view signature.now) (view pattern.now) → e ≡ Memory) }
{
    match pattern {
        Pattern::Variable { name, .. } => Ok(CompiledTerm::Variable {
            name: name.clone()?,
            slot: slot_of(names, name.as_str()),
        }),
        Pattern::Literal { sort, text } => Ok(CompiledTerm::Fixed {
            value: literal_value(alloc, signature, sort, text)?,
        }),
        Pattern::Application {
            symbol,
            arguments,
            ..
        } => compile_applied(arguments, alloc, signature, symbol, names),
        _ => Err(CompileError::Shape),
    }
}

/// The term of a name applied to arguments.
#[cycle(compile)]
fn compile_applied(
    arguments: &[Pattern],
    alloc: Global,
    signature: &Signature,
    name: &Name,
    names: &NameSet,
) -> Result<CompiledTerm, CompileError>
    ensures meaning { let g = signature_view signature.now in let arguments' = patterns_view arguments.now in IfOk result (λ t. (v : Valuation) → term_value v (term_view t) ≡ applied_instance g v (string_bytes name.now) arguments') }
    ensures narrow { let g = signature_view signature.now in IfOk result (λ t. (ss : KoreSorts) → IsNarrowAs g (application (string_bytes name.now) ss (patterns_view arguments.now)) t) }
    ensures reads { IfOk result (λ t. are_named (names_seen names.now) (all_free_variables (patterns_view arguments.now)) ≡ true → term_reads (names_seen names.now) t ≡ true) }
    ensures refused { let g = signature_view signature.now in IfErr result (λ e. (ss : KoreSorts) → IsVerifiedTerm g (application (string_bytes name.now) ss (patterns_view arguments.now)) → e ≡ Memory) }
{
    match meaning_of(signature, name) {
        Meaning::Injection => match arguments {
            [argument] => term_of(argument, alloc, signature, names),
            _ => Err(CompileError::Shape),
        },
        Meaning::Constructor => {
            let shared = shared_name(alloc, name)?;
            let terms = compile_each(arguments, alloc, signature, names)?;
            Ok(make_built(shared, terms))
        }
        Meaning::Interpreted(Function::Two(hook)) => match arguments {
            [left, right] => {
                let left = term_of(left, alloc, signature, names)?;
                let right = term_of(right, alloc, signature, names)?;
                Ok(make_call(alloc, hook, left, right)?)
            }
            _ => Err(CompileError::Shape),
        },
        Meaning::Interpreted(Function::Negation) => match arguments {
            [argument] => {
                let term = term_of(argument, alloc, signature, names)?;
                Ok(make_opposite(alloc, term)?)
            }
            _ => Err(CompileError::Shape),
        },
        Meaning::Foreign => Err(CompileError::Shape),
    }
}

/// The terms that patterns are, one by one.
#[cycle(compile)]
fn compile_each(
    patterns: &[Pattern],
    alloc: Global,
    signature: &Signature,
    names: &NameSet,
) -> Result<Vec<CompiledTerm>, CompileError>
    ensures meaning { IfOk result (λ ts. AreTermsOf (signature_view signature.now) patterns.now ts.items) }
    ensures narrow { IfOk result (λ ts. AreTermsNarrowAs (signature_view signature.now) patterns.now ts.items) }
    ensures reads { IfOk result (λ ts. ReadAllAs (names_seen names.now) patterns.now ts.items) }
    ensures refused { IfErr result (λ e. AllByRecursion (λ p. IsVerifiedTerm (signature_view signature.now) (view p)) patterns.now → e ≡ Memory) }
{
    let mut terms = Vec::new(alloc);
    for pattern in patterns {
        terms.push(term_of(pattern, alloc, signature, names)?)?;
    }
    Ok(terms)
}

/// The term that a pattern is: it has the pattern's instance under every valuation, and computes the numbers beyond 128
/// bits that the pattern's calls compute. Each variable that is named tells the number of its name; one that isn't
/// tells a number of none, so that no bindings serve the term. A verified term is refused for want of memory alone.
pub fn compile_term(
    alloc: Global,
    signature: &Signature,
    names: &NameSet,
    pattern: &Pattern,
) -> Result<CompiledTerm, CompileError>
    ensures meaning { IfOk result (IsTermOf (signature_view signature.now) (view pattern.now)) }
    ensures narrow { IfOk result (IsNarrowAs (signature_view signature.now) (view pattern.now)) }
    ensures reads { IfOk result (ReadsAs (names_seen names.now) (view pattern.now)) }
    ensures refused { IfErr result (λ e. IsVerifiedTerm (signature_view signature.now) (view pattern.now) → e ≡ Memory) }
{
    term_of(pattern, alloc, signature, names)
}
