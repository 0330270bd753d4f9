// The first thing from the left in a pattern that can't stand where it does in a state.
ghost use Rattle.std.specs.Prelude.{◌≡◌, false, [], IfOk};
ghost use Rattle.std.specs.Option.{option_map};
ghost use Rattle.kp_kore.specs.Signature.{KoreSignature};
ghost use Rattle.kp_kore.specs.View.{view};
ghost use Rattle.kp_kore.specs.Instance.{is_predicate as predicate_test};
ghost use Rattle.kp_signature.specs.View.{signature_view};
ghost use Rattle.kp_compile.specs.Parts.{seen as patterns_seen};
ghost use Rattle.kp_clauses.specs.Faults as model;
ghost use Rattle.kp_clauses.specs.View.{misplaced_view};

use kp_compile::{is_predicate, subpatterns};
use kp_kore::{Name, Pattern};
use kp_signature::{Meaning, Signature, meaning_of};
use std::alloc::{AllocError, Global};

/// What can't stand where it does. `misplaced_view` in specs/View.antt says which fault it is.
#[derive(Clone, Copy)]
pub enum Misplaced<'a> {
    /// A foreign symbol or an alias.
    ForeignSymbol { name: &'a Name },
    /// What is neither the one term nor a predicate, or the end where the term is missing.
    OtherShape,
}

/// The foreign symbol of an application.
fn symbol_fault<'a>(signature: &Signature, pattern: &'a Pattern) -> Option<Misplaced<'a>>
    ensures { option_map misplaced_view result ≡ model.symbol_fault (signature_view signature.now) (view pattern.now) }
{
    match pattern {
        Pattern::Application { symbol, .. } => match meaning_of(signature, symbol) {
            Meaning::Foreign => Some(Misplaced::ForeignSymbol { name: symbol }),
            Meaning::Injection | Meaning::Constructor | Meaning::Interpreted(_) => None,
        },
        _ => None,
    }
}

/// What can't stand in a term: a foreign symbol, or another form than that of a variable, a literal and an application.
fn part_fault<'a>(signature: &Signature, pattern: &'a Pattern) -> Option<Misplaced<'a>>
    ensures { option_map misplaced_view result ≡ model.part_fault (signature_view signature.now) (view pattern.now) }
{
    match pattern {
        Pattern::Variable { .. } | Pattern::Literal { .. } => None,
        Pattern::Application { .. } => symbol_fault(signature, pattern),
        _ => Some(Misplaced::OtherShape),
    }
}

/// The first foreign symbol among these.
fn first_symbol<'a>(signature: &Signature, parts: &[&'a Pattern]) -> Option<Misplaced<'a>>
    ensures { option_map misplaced_view result ≡ model.first_among (model.symbol_fault (signature_view signature.now)) (patterns_seen parts.now) }
{
    for i in 0..parts.len() {
        if let Some(fault) = symbol_fault(signature, parts[i]) {
            return Some(fault);
        }
    }
    None
}

/// The first among these that can't stand in a term.
fn first_part<'a>(signature: &Signature, parts: &[&'a Pattern]) -> Option<Misplaced<'a>>
    ensures { option_map misplaced_view result ≡ model.first_among (model.part_fault (signature_view signature.now)) (patterns_seen parts.now) }
{
    for i in 0..parts.len() {
        if let Some(fault) = part_fault(signature, parts[i]) {
            return Some(fault);
        }
    }
    None
}

/// What can't stand in a member of a state, by whether it is a predicate and whether a term stood before it.
fn member_fault<'a>(
    alloc: Global,
    signature: &Signature,
    predicate: bool,
    seen: bool,
    pattern: &'a Pattern,
) -> Result<Option<Misplaced<'a>>, AllocError>
    requires { predicate ≡ predicate_test (view pattern.now) }
    ensures { IfOk result (λ o. option_map misplaced_view o ≡ model.member_fault (signature_view signature.now) seen (view pattern.now)) }
{
    if predicate {
        let parts = subpatterns(alloc, pattern)?;
        return Ok(first_symbol(signature, &parts));
    }
    if seen {
        return Ok(Some(Misplaced::OtherShape));
    }
    let parts = subpatterns(alloc, pattern)?;
    Ok(first_part(signature, &parts))
}

/// What is missing behind the members of a state: its term, where none was seen.
fn end_fault<'a>(seen: bool) -> Option<Misplaced<'a>>
    ensures { (g : KoreSignature) → option_map misplaced_view result ≡ model.members_fault g seen [] }
{
    if seen {
        None
    } else {
        Some(Misplaced::OtherShape)
    }
}

/// The first thing from the left that can't stand in a state with these members.
pub fn members_fault<'a>(
    alloc: Global,
    signature: &Signature,
    members: &[&'a Pattern],
) -> Result<Option<Misplaced<'a>>, AllocError>
    ensures { IfOk result (λ o. option_map misplaced_view o ≡ model.members_fault (signature_view signature.now) false (patterns_seen members.now)) }
{
    let mut seen = false;
    for i in 0..members.len() {
        let predicate = is_predicate(members[i]);
        if let Some(fault) = member_fault(alloc, signature, predicate, seen, members[i])? {
            return Ok(Some(fault));
        }
        seen = seen || !predicate;
    }
    Ok(end_fault(seen))
}
