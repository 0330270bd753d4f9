// The unknowns of clauses.
ghost use Rattle.std.specs.Prelude.{◌≡◌, ◌++◌, IfOk, OnOk, map, string_bytes};
ghost use Rattle.std.specs.Option.{option_map};
ghost use Rattle.kp_symbolic.specs.Weights as model;
ghost use Rattle.kp_symbolic.specs.Weights.{name_in};
ghost use Rattle.kp_literals.specs.Bounds.{difference_view};
ghost use Rattle.kp_literals.specs.Forms.{token_part_view};
ghost use Rattle.kp_literals.specs.Readings.{clauses_view};
ghost use Rattle.kp_clause_demands.specs.Numbers as spec;
ghost use Rattle.kp_clause_demands.specs.Numbers.{texts, AreEachOnce, AreUnknownsOf};

use crate::places::place_of_name;
use kp_kore::Name;
use kp_literals::bounds::{Difference, all_bounds};
use kp_literals::{LiteralForm, ReadLiteral, TokenPart};
use kp_symbolic::Variable;
use std::alloc::{AllocError, Global};

/// The names of whole numbers, each once; the names of truth values, and the tokens, one for each place where one is
/// asked for, those that are written out first.
#[derive(Drop)]
pub struct Unknowns<'a> {
    pub wholes: Vec<&'a Name>,
    pub truths: Vec<&'a Name>,
    pub tokens: Vec<TokenPart<'a>>,
    pub written: usize,
}

/// Adds a side's variable, if it has one.
fn add_name<'a>(names: &mut Vec<&'a Name>, variable: Option<&'a Variable>) -> Result<(), AllocError>
    ensures { OnOk result (texts names.new.items ≡ texts names.old.items ++ name_in (option_map (λ x. string_bytes x.now.name) variable.entry)) }
{
    if let Some(variable) = variable {
        names.push(&variable.name)?;
    }
    Ok(())
}

/// The variables of bounds, one for each place.
fn names_of<'a>(alloc: Global, bounds: &[Difference<'a>]) -> Result<Vec<&'a Name>, AllocError>
    ensures { IfOk result (λ names. texts names.items ≡ spec.names_in_bounds (map difference_view bounds.now)) }
{
    let mut names = Vec::new(alloc);
    for bound in bounds {
        add_name(&mut names, bound.first.variable)?;
        add_name(&mut names, bound.second.variable)?;
    }
    Ok(names)
}

/// Adds a name, where it isn't there.
fn add_once<'a>(found: &mut Vec<&'a Name>, name: &'a Name) -> Result<(), AllocError>
    ensures { OnOk result (texts found.new.items ≡ spec.with_name (texts found.old.items) (string_bytes name.now)) }
{
    if place_of_name(found, name) < found.len() {
        return Ok(());
    }
    found.push(name)?;
    Ok(())
}

/// The names, each once.
fn each_once<'a>(alloc: Global, names: &[&'a Name]) -> Result<Vec<&'a Name>, AllocError>
    ensures { IfOk result (λ found. AreEachOnce (texts found.items) (texts names.now)) }
{
    let mut found = Vec::new(alloc);
    for i in 0..names.len() {
        add_once(&mut found, names[names.len() - 1 - i])?;
    }
    Ok(found)
}

/// The whole numbers of clauses.
fn wholes_of<'a>(
    alloc: Global,
    clauses: &[Vec<ReadLiteral<'a>>],
) -> Result<Vec<&'a Name>, AllocError>
    ensures { IfOk result (λ found. AreEachOnce (texts found.items) (spec.names_in_bounds (model.all_bounds (clauses_view clauses.now)))) }
{
    let bounds = all_bounds(alloc, clauses)?;
    let names = names_of(alloc, &bounds)?;
    each_once(alloc, &names)
}

/// Adds the truth value that a literal asks for, if it does.
fn add_truth<'a>(names: &mut Vec<&'a Name>, form: Option<LiteralForm<'a>>) -> Result<(), AllocError>
    ensures { OnOk result (texts names.new.items ≡ texts names.old.items ++ spec.truths_said form.entry) }
{
    if let Some(LiteralForm::Truth { variable, .. }) = form {
        names.push(&variable.name)?;
    }
    Ok(())
}

/// Adds those of a clause.
fn add_truths<'a>(names: &mut Vec<&'a Name>, clause: &[ReadLiteral<'a>]) -> Result<(), AllocError>
    ensures { OnOk result (texts names.new.items ≡ texts names.old.items ++ spec.truths_in clause.now) }
{
    for literal in clause {
        add_truth(names, literal.form)?;
    }
    Ok(())
}

/// The truth values of clauses.
fn truths_of<'a>(
    alloc: Global,
    clauses: &[Vec<ReadLiteral<'a>>],
) -> Result<Vec<&'a Name>, AllocError>
    ensures { IfOk result (λ names. texts names.items ≡ spec.all_truths clauses.now) }
{
    let mut names = Vec::new(alloc);
    for clause in clauses {
        add_truths(&mut names, clause)?;
    }
    Ok(names)
}

/// Whether a side is a token that is written out.
fn is_written(part: TokenPart) -> bool
    ensures { result ≡ spec.is_written (token_part_view part.entry) }
{
    match part {
        TokenPart::Known { .. } => true,
        TokenPart::Unknown { .. } => false,
    }
}

/// Adds a side, where it is a token that is written out, or where it isn't.
fn add_part<'a>(
    parts: &mut Vec<TokenPart<'a>>,
    written: bool,
    part: TokenPart<'a>,
) -> Result<(), AllocError>
    ensures { OnOk result (map token_part_view parts.new.items ≡ map token_part_view parts.old.items ++ spec.part_if written part.entry) }
{
    if is_written(part) == written {
        parts.push(part)?;
    }
    Ok(())
}

/// Adds both sides of an equality of tokens, if the literal is one.
fn add_sides<'a>(
    parts: &mut Vec<TokenPart<'a>>,
    written: bool,
    form: Option<LiteralForm<'a>>,
) -> Result<(), AllocError>
    ensures { OnOk result (map token_part_view parts.new.items ≡ map token_part_view parts.old.items ++ spec.tokens_said written form.entry) }
{
    if let Some(LiteralForm::Equates { first, second, .. }) = form {
        add_part(parts, written, first)?;
        add_part(parts, written, second)?;
    }
    Ok(())
}

/// Adds those of a clause.
fn add_tokens<'a>(
    parts: &mut Vec<TokenPart<'a>>,
    written: bool,
    clause: &[ReadLiteral<'a>],
) -> Result<(), AllocError>
    ensures { OnOk result (map token_part_view parts.new.items ≡ map token_part_view parts.old.items ++ spec.tokens_in written clause.now) }
{
    for literal in clause {
        add_sides(parts, written, literal.form)?;
    }
    Ok(())
}

/// Adds those of all clauses.
fn add_all_tokens<'a>(
    parts: &mut Vec<TokenPart<'a>>,
    written: bool,
    clauses: &[Vec<ReadLiteral<'a>>],
) -> Result<(), AllocError>
    ensures { OnOk result (map token_part_view parts.new.items ≡ map token_part_view parts.old.items ++ spec.all_tokens written clauses.now) }
{
    for clause in clauses {
        add_tokens(parts, written, clause)?;
    }
    Ok(())
}

impl<'a> Unknowns<'a> {
    /// Those of clauses.
    pub fn of(alloc: Global, clauses: &[Vec<ReadLiteral<'a>>]) -> Result<Unknowns<'a>, AllocError>
        ensures { IfOk result (λ u. AreUnknownsOf clauses.now u) }
    {
        let wholes = wholes_of(alloc, clauses)?;
        let truths = truths_of(alloc, clauses)?;
        let mut tokens = Vec::new(alloc);
        add_all_tokens(&mut tokens, true, clauses)?;
        let written = tokens.len();
        add_all_tokens(&mut tokens, false, clauses)?;
        Ok(Unknowns {
            wholes,
            truths,
            tokens,
            written,
        })
    }
}
