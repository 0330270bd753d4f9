// Symbolic terms as patterns.
ghost use Rattle.std.specs.Prelude.{◌≡◌, IfOk, map};
ghost use Rattle.kp_kore.specs.View.{view, sort_view, sorts_view, patterns_view};
ghost use Rattle.kp_compile.specs.Spelled.{placed};
ghost use Rattle.kp_symbolic.specs.Writing.{written_sum, written_term, written_terms};
ghost use Rattle.kp_symbolic.specs.Languages.{language_view};
ghost use Rattle.kp_symbolic.specs.View.{term_view, terms_of, variable_view};

use crate::sort_places::{applied_at, variable_at};
use crate::sum::sum_out;
use kp_compile::{placed_at, places_of, spelled_at};
use kp_kore::{Pattern, Sort};
use kp_symbolic::{Language, Term, Variable};
use std::alloc::{AllocError, Global};

/// The sum of a variable and a constant as a pattern of this sort.
fn sum_at(
    alloc: Global,
    language: &Language,
    variable: &Variable,
    constant: i128,
    sort: &Sort,
) -> Result<Pattern, AllocError>
    ensures { let x = variable_view variable.now in IfOk result (λ p. view p ≡ placed x.sort (sort_view sort.now) (written_sum (language_view language.now) x constant)) }
{
    let own = variable.sort.copy(alloc)?;
    let inner = sum_out(alloc, language, variable, constant)?;
    placed_at(alloc, own, sort, inner)
}

/// A term as a pattern of this sort: under `inj` where its own sort is another.
#[cycle(term)]
pub fn term_out(
    term: &Term,
    alloc: Global,
    language: &Language,
    sort: &Sort,
) -> Result<Pattern, AllocError>
    ensures { IfOk result (λ p. view p ≡ written_term (language_view language.now) (sort_view sort.now) (term_view term.now)) }
{
    match term {
        Term::Unknown { variable } => variable_at(alloc, variable, sort),
        Term::Offset { variable, constant } => sum_at(alloc, language, variable, *constant, sort),
        Term::Known { value } => spelled_at(value, alloc, language.signature, sort),
        Term::Headed { symbol, arguments } => {
            let places = places_of(language.signature, symbol);
            let patterns = terms_out(arguments, alloc, language, places)?;
            applied_at(alloc, language.signature, symbol, sort, patterns)
        }
    }
}

/// The arguments of a symbol, each at its declared sort.
#[cycle(term)]
fn terms_out(
    terms: &[Term],
    alloc: Global,
    language: &Language,
    places: &[Sort],
) -> Result<Vec<Pattern>, AllocError>
    ensures { let ss = sorts_view places.now in IfOk result (λ ps. patterns_view ps.items ≡ written_terms (language_view language.now) ss (terms_of (map term_view terms.now))) }
{
    let mut patterns = Vec::new(alloc);
    for i in 0..terms.len().min(places.len()) {
        patterns.push(term_out(&terms[i], alloc, language, &places[i])?)?;
    }
    Ok(patterns)
}
