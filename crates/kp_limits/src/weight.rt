// How much clauses weigh, and the first limit that they pass.
ghost use Rattle.std.specs.Prelude.{◌≡◌, ◌++◌, ◌||◌, ◌+◌, Some, map, length, string_bytes, if◌then◌else◌, IfOk, OnOk};
ghost use Rattle.std.specs.Option.{option_map};
ghost use Rattle.std.specs.Str.{bytes_eq};
ghost use Rattle.indexmap.specs.IndexSet.{contains_text, index_set_len};
ghost use Rattle.kp_kore.specs.Syntax.{Text};
ghost use Rattle.kp_kore.specs.HookView.{comparison_view};
ghost use Rattle.kp_symbolic.specs.Plain.{WholePart, compares};
ghost use Rattle.kp_symbolic.specs.Weights as model;
ghost use Rattle.kp_literals.specs.Forms.{form_view};
ghost use Rattle.kp_literals.specs.Readings.{read_view, clauses_view};
ghost use Rattle.kp_literals.specs.Bounds.{difference_view};
ghost use Rattle.kp_limits.specs.Told.{told, weight_view, names_in_bounds, TellsWeight, TellsOver};

use indexmap::IndexSet;
use kp_kore::{Comparison, Name};
use kp_literals::bounds::{Difference, all_bounds, largest_length};
use kp_literals::{LiteralForm, ReadLiteral};
use kp_symbolic::Variable;
use std::alloc::{AllocError, Global};

/// What is limited: the numeric variables with the digits of the largest constant, the literals, the choices.
#[derive(Clone, Copy)]
pub enum WeightKind {
    Bits,
    Literals,
    Product,
}

/// A weight with its number, 18446744073709551615 where that is more.
#[derive(Clone, Copy)]
pub struct Weighed {
    pub weight: WeightKind,
    pub number: u64,
}

/// How much a literal counts: a difference of whole numbers two.
fn form_length(form: Option<LiteralForm>) -> u64
    ensures { result ≡ model.form_length (option_map form_view form.entry) }
{
    match form {
        Some(LiteralForm::Compares { comparison, .. }) => comparison_length(comparison),
        Some(
            LiteralForm::Truth { .. }
            | LiteralForm::Equates { .. }
            | LiteralForm::Asks { .. }
            | LiteralForm::Gives { .. },
        ) => 1,
        None => 1,
    }
}

/// How much a comparison counts.
fn comparison_length(comparison: Comparison) -> u64
    ensures { (m n : WholePart) → result ≡ model.form_length (Some (compares (comparison_view comparison) m n)) }
{
    match comparison {
        Comparison::Different => 2,
        Comparison::Equal
        | Comparison::Less
        | Comparison::AtMost
        | Comparison::Greater
        | Comparison::AtLeast => 1,
    }
}

/// How many literals a clause has, differences twice.
fn clause_length(clause: &[ReadLiteral]) -> u64
    ensures { result ≡ told (model.clause_length (map read_view clause.now)) }
{
    let mut length: u64 = 0;
    for literal in clause {
        length = length.saturating_add(form_length(literal.form));
    }
    length
}

/// How many literals the clauses have together.
fn all_literals(clauses: &[Vec<ReadLiteral>]) -> u64
    ensures { result ≡ told (model.all_literals (clauses_view clauses.now)) }
{
    let mut literals: u64 = 0;
    for clause in clauses {
        literals = literals.saturating_add(clause_length(clause));
    }
    literals
}

/// How many choices of one literal a clause there are.
fn product_of_lengths(clauses: &[Vec<ReadLiteral>]) -> u64
    ensures { result ≡ told (model.product_of_lengths (clauses_view clauses.now)) }
{
    let mut product: u64 = 1;
    for clause in clauses {
        product = product.saturating_mul(clause_length(clause));
    }
    product
}

/// Adds a side's variable, if it has one.
fn add_name<'a>(names: &mut Vec<&'a Name>, variable: Option<&'a Variable>) -> Result<(), AllocError>
    ensures { let added = model.name_in (option_map (λ x. string_bytes x.now.name) variable.entry) in OnOk result (map (λ n. string_bytes n.now) names.new.items ≡ map (λ n. string_bytes n.now) names.old.items ++ added) }
{
    if let Some(variable) = variable {
        names.push(&variable.name)?;
    }
    Ok(())
}

/// The variables of the bounds, one for each place.
fn names_of<'a>(alloc: Global, bounds: &[Difference<'a>]) -> Result<Vec<&'a Name>, AllocError>
    ensures { IfOk result (λ names. map (λ n. string_bytes n.now) names.items ≡ names_in_bounds (map difference_view bounds.now)) }
{
    let mut names = Vec::new(alloc);
    for bound in bounds {
        add_name(&mut names, bound.first.variable)?;
        add_name(&mut names, bound.second.variable)?;
    }
    Ok(names)
}

/// Adds a name, where it isn't there.
fn add_once(found: &mut IndexSet<Name>, name: &Name) -> Result<(), AllocError>
    ensures named { OnOk result ((y : Text) → contains_text found.new y ≡ (bytes_eq (string_bytes name.now) y || contains_text found.old y)) }
    ensures counted { OnOk result (index_set_len found.new ≡ (if contains_text found.old (string_bytes name.now) then 0 else 1) + index_set_len found.old) }
{
    found.insert(name.clone()?)?;
    Ok(())
}

/// How many different names these are.
fn count_once(alloc: Global, names: &[&Name]) -> Result<usize, AllocError>
    ensures { IfOk result (λ n. n ≡ length (model.each_once (map (λ n. string_bytes n.now) names.now))) }
{
    let mut later = IndexSet::new(alloc);
    for i in 0..names.len() {
        add_once(&mut later, names[names.len() - 1 - i])?;
    }
    Ok(later.len())
}

/// The numeric variables and the digits of the largest constant.
fn bits_of(alloc: Global, clauses: &[Vec<ReadLiteral>]) -> Result<u64, AllocError>
    ensures { IfOk result (TellsWeight (clauses_view clauses.now) model.bits) }
{
    let bounds = all_bounds(alloc, clauses)?;
    let names = names_of(alloc, &bounds)?;
    let count = count_once(alloc, &names)?;
    Ok(largest_length(&bounds).saturating_add(count as u64))
}

/// How much the clauses weigh.
pub fn weight_of(
    alloc: Global,
    weight: WeightKind,
    clauses: &[Vec<ReadLiteral>],
) -> Result<u64, AllocError>
    ensures { IfOk result (TellsWeight (clauses_view clauses.now) (weight_view weight)) }
{
    match weight {
        WeightKind::Bits => bits_of(alloc, clauses),
        WeightKind::Literals => Ok(all_literals(clauses)),
        WeightKind::Product => Ok(product_of_lengths(clauses)),
    }
}

/// The first weight that is above its limit, if one is: the bits, then the literals, then the product.
pub fn first_over(
    alloc: Global,
    clauses: &[Vec<ReadLiteral>],
) -> Result<Option<Weighed>, AllocError>
    ensures { IfOk result (TellsOver (clauses_view clauses.now)) }
{
    let bits = bits_of(alloc, clauses)?;
    if bits > 126 {
        return Ok(Some(Weighed {
            weight: WeightKind::Bits,
            number: bits,
        }));
    }
    let literals = all_literals(clauses);
    if literals > 512 {
        return Ok(Some(Weighed {
            weight: WeightKind::Literals,
            number: literals,
        }));
    }
    let product = product_of_lengths(clauses);
    if product > 4096 {
        return Ok(Some(Weighed {
            weight: WeightKind::Product,
            number: product,
        }));
    }
    Ok(None)
}
