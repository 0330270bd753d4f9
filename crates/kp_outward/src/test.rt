// Tests of a variable's head as patterns.
ghost use Rattle.std.specs.Prelude.{◌≡◌, ◌+◌, ◌<◌, ◌^◌, [], ◌∷◌, length, IfOk, OnOk, map, string_bytes};
ghost use Rattle.kp_kore.specs.Parts.{sort_list};
ghost use Rattle.kp_kore.specs.Signature.{KoreSignature};
ghost use Rattle.kp_kore.specs.Syntax.{equals, exists as exists_pattern, variable as variable_pattern};
ghost use Rattle.kp_kore.specs.View.{view, sort_view, sorts_view, patterns_view};
ghost use Rattle.kp_signature.specs.View.{signature_view};
ghost use Rattle.kp_compile.specs.Spelled as spelled;
ghost use Rattle.kp_symbolic.specs.Writing as model;
ghost use Rattle.kp_symbolic.specs.Writing.{least_fresh, variables_of, written_test};
ghost use Rattle.kp_symbolic.specs.States.{one_head, head_of_sort, has_head};
ghost use Rattle.kp_symbolic_laws.specs.Runs.{HasRoomAtom};
ghost use Rattle.kp_symbolic.specs.View.{test_view, variable_view};
ghost use Rattle.kp_outward.specs.Parts.{construction_pattern};

use crate::fresh::fresh;
use crate::sort_places::{applied_at, variable_at, variable_out};
use kp_compile::places_of;
use kp_kore::{Name, Pattern, Sort};
use kp_pattern_substitution::build::{equals_of, exists_of};
use kp_signature::Signature;
use kp_symbolic::{HeadTest, Variable};
use std::alloc::{AllocError, Global};

/// These names behind one more.
fn with_first(alloc: Global, name: &Name, names: &[Name]) -> Result<Vec<Name>, AllocError>
    ensures { IfOk result (λ xs. map string_bytes xs.items ≡ string_bytes name.now ∷ map string_bytes names.now) }
{
    let mut all = Vec::new(alloc);
    all.push(name.clone()?)?;
    for other in names {
        all.push(other.clone()?)?;
    }
    Ok(all)
}

/// A new variable for each of these sorts, none of them with this name.
fn new_variables(alloc: Global, name: &Name, sorts: &[Sort]) -> Result<Vec<Variable>, AllocError>
    ensures new { let used = string_bytes name.now ∷ [] in IfOk result (λ xs. map variable_view xs.items ≡ model.new_variables used (sorts_view sorts.now)) }
    ensures few { OnOk result (1 + length (sort_list (sorts_view sorts.now)) < 2 ^ 64) }
{
    let mut used = Vec::new(alloc);
    used.push(name.clone()?)?;
    let mut found = Vec::new(alloc);
    for sort in sorts {
        let chosen = fresh(alloc, &used)?;
        used = with_first(alloc, &chosen, &used)?;
        found.push(Variable {
            name: chosen,
            sort: sort.copy(alloc)?,
        })?;
    }
    Ok(found)
}

/// These variables as patterns of their own sorts.
fn variables_out(alloc: Global, variables: &[Variable]) -> Result<Vec<Pattern>, AllocError>
    ensures { IfOk result (λ ps. patterns_view ps.items ≡ variables_of (map variable_view variables.now)) }
{
    let mut patterns = Vec::new(alloc);
    for variable in variables {
        patterns.push(variable_out(alloc, variable)?)?;
    }
    Ok(patterns)
}

/// The pattern under `\exists` of one variable.
fn bind(
    alloc: Global,
    sort: &Sort,
    variable: &Variable,
    pattern: Box<Pattern>,
) -> Result<Box<Pattern>, AllocError>
    ensures { let x = variable_view variable.now in IfOk result (λ p. view p.value ≡ exists_pattern (sort_view sort.now) x.name x.sort (view pattern.value)) }
{
    Ok(Box::new(
        alloc,
        exists_of(alloc, sort, &variable.name, &variable.sort, pattern)?,
    )?)
}

/// The pattern under `\exists` of each variable, the first outermost.
fn bind_all(
    alloc: Global,
    sort: &Sort,
    variables: &[Variable],
    pattern: Box<Pattern>,
) -> Result<Box<Pattern>, AllocError>
    ensures { IfOk result (λ p. view p.value ≡ model.under_exists (sort_view sort.now) (map variable_view variables.now) (view pattern.value)) }
{
    let mut found = pattern;
    let mut left = variables.len();
    while left > 0 {
        left -= 1;
        found = bind(alloc, sort, &variables[left], found)?;
    }
    Ok(found)
}

/// That a variable equals this, as a predicate of this sort.
fn equation_out(
    alloc: Global,
    sort: &Sort,
    variable: &Variable,
    right: Pattern,
) -> Result<Box<Pattern>, AllocError>
    ensures { let x = variable_view variable.now in IfOk result (λ p. view p.value ≡ equals x.sort (sort_view sort.now) (variable_pattern x.name x.sort) (view right)) }
{
    let right = Box::new(alloc, right)?;
    let left = Box::new(alloc, variable_out(alloc, variable)?)?;
    Ok(Box::new(alloc, equals_of(alloc, &variable.sort, sort, left, right)?)?)
}

/// That a variable is a constructor of these variables.
fn construction_out(
    alloc: Global,
    signature: &Signature,
    sort: &Sort,
    variable: &Variable,
    symbol: &Name,
    parts: &[Variable],
) -> Result<Box<Pattern>, AllocError>
    ensures { let g = signature_view signature.now in let x = variable_view variable.now in IfOk result (λ p. view p.value ≡ construction_pattern g (sort_view sort.now) x (string_bytes symbol.now) (map variable_view parts.now)) }
{
    let arguments = variables_out(alloc, parts)?;
    let call = applied_at(alloc, signature, symbol, &variable.sort, arguments)?;
    equation_out(alloc, sort, variable, call)
}

/// That a variable is a constructor of some values.
fn constructor_test(
    alloc: Global,
    signature: &Signature,
    sort: &Sort,
    variable: &Variable,
    symbol: &Name,
) -> Result<Box<Pattern>, AllocError>
    ensures written { let g = signature_view signature.now in let test = one_head (string_bytes symbol.now) in IfOk result (λ p. view p.value ≡ written_test g (sort_view sort.now) (variable_view variable.now) test) }
    ensures few { let g = signature_view signature.now in OnOk result (1 + length (sort_list (spelled.places_of g (string_bytes symbol.now))) < 2 ^ 64) }
{
    let parts = new_variables(alloc, &variable.name, places_of(signature, symbol))?;
    let equation = construction_out(alloc, signature, sort, variable, symbol, &parts)?;
    bind_all(alloc, sort, &parts, equation)
}

/// A new variable of this sort, of another name than this.
fn new_variable(alloc: Global, name: &Name, sort: &Sort) -> Result<Variable, AllocError>
    ensures { let used = string_bytes name.now ∷ [] in IfOk result (λ x. variable_view x ≡ record { name = least_fresh used; sort = sort_view sort.now }) }
{
    let mut used = Vec::new(alloc);
    used.push(name.clone()?)?;
    Ok(Variable {
        name: fresh(alloc, &used)?,
        sort: sort.copy(alloc)?,
    })
}

/// That a variable is some value of a sort.
fn sort_test(
    alloc: Global,
    sort: &Sort,
    variable: &Variable,
    asked: &Sort,
) -> Result<Box<Pattern>, AllocError>
    ensures { (g : KoreSignature) → let test = head_of_sort (sort_view asked.now) in IfOk result (λ p. view p.value ≡ written_test g (sort_view sort.now) (variable_view variable.now) test) }
{
    let part = new_variable(alloc, &variable.name, asked)?;
    let equation = equation_out(
        alloc,
        sort,
        variable,
        variable_at(alloc, &part, &variable.sort)?,
    )?;
    bind(alloc, sort, &part, equation)
}

/// A test of a variable's head as a predicate of this sort.
pub fn test_out(
    alloc: Global,
    signature: &Signature,
    sort: &Sort,
    variable: &Variable,
    test: &HeadTest,
) -> Result<Box<Pattern>, AllocError>
    ensures written { let g = signature_view signature.now in let x = variable_view variable.now in IfOk result (λ p. view p.value ≡ written_test g (sort_view sort.now) x (test_view test.now)) }
    ensures room { let g = signature_view signature.now in OnOk result (HasRoomAtom g (has_head (variable_view variable.now) (test_view test.now))) }
{
    match test {
        HeadTest::Constructor { symbol } => {
            constructor_test(alloc, signature, sort, variable, symbol)
        }
        HeadTest::Sort { sort: asked } => sort_test(alloc, sort, variable, asked),
    }
}
