// Literals as predicates.
ghost use Rattle.std.specs.Prelude.{◌≡◌, IfOk, IfErr, OnOk, map};
ghost use Rattle.kp_compile.specs.declared.error.CompileError.TheVariants.{Memory};
ghost use Rattle.kp_kore.specs.Syntax.{equals};
ghost use Rattle.kp_kore.specs.View.{view, sort_view};
ghost use Rattle.kp_symbolic.specs.Writing.{written_atom, written_literal, written_signed, written_term, written_under};
ghost use Rattle.kp_symbolic_laws.specs.Runs.{HasRoom, HasRoomAtom};
ghost use Rattle.kp_symbolic.specs.Faultless.{IsFaultless};
ghost use Rattle.kp_symbolic.specs.Languages.{language_view};
ghost use Rattle.kp_symbolic.specs.View.{atom_view, literal_view, replaced_view, term_view};
ghost use Rattle.kp_outward.specs.Parts.{IsFaultlessAtom};

use crate::quoted::quoted_out;
use crate::term::term_out;
use crate::test::test_out;
use kp_compile::CompileError;
use kp_kore::{Pattern, Sort};
use kp_pattern_substitution::build::{equals_of, negation_of};
use kp_symbolic::{Atom, Language, Literal, Replaced, Term};
use std::alloc::{AllocError, Global};

/// A term as a pattern of this sort, boxed.
pub fn boxed_term(
    alloc: Global,
    language: &Language,
    sort: &Sort,
    term: &Term,
) -> Result<Box<Pattern>, AllocError>
    ensures { IfOk result (λ p. view p.value ≡ written_term (language_view language.now) (sort_view sort.now) (term_view term.now)) }
{
    Ok(Box::new(alloc, term_out(term, alloc, language, sort)?)?)
}

/// The equality of two terms at a sort, as a predicate of another.
pub fn equality_out(
    alloc: Global,
    language: &Language,
    sort: &Sort,
    compared: &Sort,
    left: &Term,
    right: &Term,
) -> Result<Box<Pattern>, AllocError>
    ensures { let g = language_view language.now in let s = sort_view compared.now in IfOk result (λ p. view p.value ≡ equals s (sort_view sort.now) (written_term g s (term_view left.now)) (written_term g s (term_view right.now))) }
{
    let left = boxed_term(alloc, language, compared, left)?;
    let right = boxed_term(alloc, language, compared, right)?;
    Ok(Box::new(alloc, equals_of(alloc, compared, sort, left, right)?)?)
}

/// A predicate that isn't opened, boxed.
fn boxed_quoted(
    alloc: Global,
    language: &Language,
    pattern: &Pattern,
    replaced: &[Replaced],
) -> Result<Box<Pattern>, CompileError>
    ensures written { let rs = map replaced_view replaced.now in IfOk result (λ p. view p.value ≡ written_under (language_view language.now) rs (view pattern.now)) }
    ensures room { OnOk result (HasRoom (map replaced_view replaced.now) (view pattern.now)) }
    ensures refused { IfErr result (λ e. IsFaultless (language_view language.now) (view pattern.now) → e ≡ Memory) }
{
    Ok(Box::new(alloc, quoted_out(pattern, alloc, language, replaced)?)?)
}

/// An atom as a predicate of this sort.
fn atom_out(
    alloc: Global,
    language: &Language,
    sort: &Sort,
    atom: &Atom,
) -> Result<Box<Pattern>, CompileError>
    ensures written { IfOk result (λ p. view p.value ≡ written_atom (language_view language.now) (sort_view sort.now) (atom_view atom.now)) }
    ensures room { OnOk result (HasRoomAtom (language_view language.now) (atom_view atom.now)) }
    ensures refused { IfErr result (λ e. IsFaultlessAtom (language_view language.now) (atom_view atom.now) → e ≡ Memory) }
{
    match atom {
        Atom::Same {
            sort: compared,
            left,
            right,
        } => Ok(equality_out(alloc, language, sort, compared, left, right)?),
        Atom::Head { variable, test } => {
            Ok(test_out(alloc, language.signature, sort, variable, test)?)
        }
        Atom::Quoted { pattern, replaced } => boxed_quoted(alloc, language, pattern, replaced),
    }
}

/// The predicate, or its `\not`.
fn signed(
    alloc: Global,
    sort: &Sort,
    holds: bool,
    pattern: Box<Pattern>,
) -> Result<Box<Pattern>, AllocError>
    ensures { IfOk result (λ p. view p.value ≡ written_signed (sort_view sort.now) holds (view pattern.value)) }
{
    if holds {
        return Ok(pattern);
    }
    Ok(Box::new(alloc, negation_of(alloc, sort, pattern)?)?)
}

/// A literal as a predicate of this sort. It is refused for want of memory alone, but for a predicate that isn't opened and
/// has a verify fault: that also where a number in it can't be read.
pub fn literal_out(
    alloc: Global,
    language: &Language,
    sort: &Sort,
    literal: &Literal,
) -> Result<Box<Pattern>, CompileError>
    ensures written { IfOk result (λ p. view p.value ≡ written_literal (language_view language.now) (sort_view sort.now) (literal_view literal.now)) }
    ensures room { OnOk result (HasRoomAtom (language_view language.now) (literal_view literal.now).atom) }
    ensures refused { IfErr result (λ e. IsFaultlessAtom (language_view language.now) (literal_view literal.now).atom → e ≡ Memory) }
{
    let pattern = atom_out(alloc, language, sort, &literal.atom)?;
    Ok(signed(alloc, sort, literal.holds, pattern)?)
}
