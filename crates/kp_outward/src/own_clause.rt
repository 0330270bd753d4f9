// The literal of a clause of its own as a predicate: the variable that an equation is solved for stands first.
ghost use Rattle.std.specs.Prelude.{◌≡◌, IfOk, IfErr, OnOk};
ghost use Rattle.kp_compile.specs.declared.error.CompileError.TheVariants.{Memory};
ghost use Rattle.kp_kore.specs.View.{view, sort_view};
ghost use Rattle.kp_signature.specs.View.{signature_view};
ghost use Rattle.kp_symbolic.specs.Terms.{unknown};
ghost use Rattle.kp_symbolic.specs.Writing as model;
ghost use Rattle.kp_symbolic.specs.Writing.{written_literal, variable_first};
ghost use Rattle.kp_symbolic_laws.specs.Runs.{HasRoomAtom};
ghost use Rattle.kp_symbolic.specs.Languages.{language_view};
ghost use Rattle.kp_symbolic.specs.View.{literal_view, term_view, variable_view};
ghost use Rattle.kp_outward.specs.Turned as turned;
ghost use Rattle.kp_outward.specs.Parts.{IsFaultlessAtom};

use crate::{equality_out, literal_out};
use kp_compile::CompileError;
use kp_kore::{Pattern, Sort};
use kp_literals::equation::is_solved_by;
use kp_literals::value_kinds::is_same;
use kp_signature::Signature;
use kp_symbolic::language::is_before;
use kp_symbolic::{Atom, Language, Literal, Term, Variable};
use std::alloc::{AllocError, Global};

/// Whether of two variables on the sides of an equation the second is the one that is solved for.
fn is_second_solved(
    signature: &Signature,
    first: &Variable,
    left: &Term,
    second: &Variable,
    right: &Term,
) -> bool
    requires first_side { term_view left.now ≡ unknown (variable_view first.now) }
    requires second_side { term_view right.now ≡ unknown (variable_view second.now) }
    ensures { result ≡ model.is_second_solved (signature_view signature.now) (variable_view first.now) (variable_view second.now) }
{
    if is_same(&first.sort, &second.sort) {
        return is_before(&second.name, &first.name);
    }
    !is_solved_by(signature, first, right) && is_solved_by(signature, second, left)
}

/// Whether the second side, which is a variable, is the one that is solved for.
fn is_right_solved(signature: &Signature, left: &Term, second: &Variable, right: &Term) -> bool
    requires { term_view right.now ≡ unknown (variable_view second.now) }
    ensures { result ≡ turned.is_turned (signature_view signature.now) (term_view left.now) (term_view right.now) }
{
    match left {
        Term::Unknown { variable } => is_second_solved(signature, variable, left, second, right),
        Term::Offset { .. } | Term::Known { .. } | Term::Headed { .. } => {
            is_solved_by(signature, second, left)
        }
    }
}

/// Whether the second side of an equation is a variable that is solved for, and the first isn't.
fn is_turned(signature: &Signature, left: &Term, right: &Term) -> bool
    ensures { result ≡ turned.is_turned (signature_view signature.now) (term_view left.now) (term_view right.now) }
{
    match right {
        Term::Unknown { variable } => is_right_solved(signature, left, variable, right),
        Term::Offset { .. } | Term::Known { .. } | Term::Headed { .. } => false,
    }
}

/// An equation with the variable first that is solved for.
fn equation_out(
    alloc: Global,
    language: &Language,
    sort: &Sort,
    compared: &Sort,
    left: &Term,
    right: &Term,
) -> Result<Box<Pattern>, AllocError>
    ensures { let g = language_view language.now in let s = sort_view compared.now in let t = term_view left.now in let u = term_view right.now in IfOk result (λ p. view p.value ≡ model.written_atom g (sort_view sort.now) (model.turned_if (turned.is_turned g t u) s t u)) }
{
    if is_turned(language.signature, left, right) {
        return equality_out(alloc, language, sort, compared, right, left);
    }
    equality_out(alloc, language, sort, compared, left, right)
}

/// The literal of a clause of its own. It is refused for want of memory alone, but for a predicate that isn't opened and has a
/// verify fault: that also where a number in it can't be read.
pub fn alone_out(
    alloc: Global,
    language: &Language,
    sort: &Sort,
    literal: &Literal,
) -> Result<Box<Pattern>, CompileError>
    ensures written { let g = language_view language.now in let first = variable_first g (literal_view literal.now) in IfOk result (λ p. view p.value ≡ written_literal g (sort_view sort.now) first) }
    ensures room { OnOk result (HasRoomAtom (language_view language.now) (literal_view literal.now).atom) }
    ensures refused { IfErr result (λ e. IsFaultlessAtom (language_view language.now) (literal_view literal.now).atom → e ≡ Memory) }
{
    if !literal.holds {
        return literal_out(alloc, language, sort, literal);
    }
    match &literal.atom {
        Atom::Same {
            sort: compared,
            left,
            right,
        } => Ok(equation_out(alloc, language, sort, compared, left, right)?),
        Atom::Head { .. } | Atom::Quoted { .. } => literal_out(alloc, language, sort, literal),
    }
}
