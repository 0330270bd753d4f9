ghost use Rattle.std.specs.Prelude.{◌≡◌, ◌++◌, [], codes, OnOk, string_bytes};
ghost use Rattle.kp_kore.specs.View.{view, patterns_view, sort_view, sorts_view};
ghost use Rattle.kp_print.specs.Strings.{quoted};
ghost use Rattle.kp_print.specs.Printed.{pair, form, head, sort_text, sorts_text, variable_text, pattern_text, patterns_after, attributes_text};

use crate::names::push_variable;
use crate::sorts::{push_sort, push_sorts};
use crate::strings::push_quoted;
use kp_kore::{Pattern, Sort};
use std::alloc::AllocError;

/// A pattern.
#[cycle(pattern)]
pub fn push_pattern(pattern: &Pattern, text: &mut String) -> Result<(), AllocError>
    ensures { OnOk result (string_bytes text.new ≡ string_bytes text.old ++ pattern_text (view pattern.now)) }
{
    match pattern {
        Pattern::Variable { name, sort } => push_variable(name, sort, text),
        Pattern::SetVariable { name, sort } => push_set_variable(name, sort, text),
        Pattern::StringLiteral { text: string } => push_quoted(string, text),
        Pattern::Literal { sort, text: string } => push_literal(sort, string, text),
        Pattern::Top { sort } => push_constant("\\top", sort, text),
        Pattern::Bottom { sort } => push_constant("\\bottom", sort, text),
        Pattern::Application {
            symbol,
            sorts,
            arguments,
        } => {
            push_symbol(symbol, sorts, text)?;
            push_members(arguments, text)
        }
        Pattern::And { sort, patterns } => {
            push_head("\\and", sort, text)?;
            push_members(patterns, text)
        }
        Pattern::Or { sort, patterns } => {
            push_head("\\or", sort, text)?;
            push_members(patterns, text)
        }
        Pattern::Not { sort, pattern } => {
            push_head("\\not", sort, text)?;
            push_last(pattern, text)
        }
        Pattern::Next { sort, pattern } => {
            push_head("\\next", sort, text)?;
            push_last(pattern, text)
        }
        Pattern::Implies { sort, left, right } => {
            push_head("\\implies", sort, text)?;
            push_pattern(left, text)?;
            push_second(right, text)
        }
        Pattern::Iff { sort, left, right } => {
            push_head("\\iff", sort, text)?;
            push_pattern(left, text)?;
            push_second(right, text)
        }
        Pattern::Rewrites { sort, left, right } => {
            push_head("\\rewrites", sort, text)?;
            push_pattern(left, text)?;
            push_second(right, text)
        }
        Pattern::Exists {
            sort,
            name,
            name_sort,
            pattern,
        } => {
            push_quantifier("\\exists", sort, name, name_sort, text)?;
            push_second(pattern, text)
        }
        Pattern::Forall {
            sort,
            name,
            name_sort,
            pattern,
        } => {
            push_quantifier("\\forall", sort, name, name_sort, text)?;
            push_second(pattern, text)
        }
        Pattern::Ceil {
            argument_sort,
            sort,
            pattern,
        } => {
            push_long_head("\\ceil", argument_sort, sort, text)?;
            push_last(pattern, text)
        }
        Pattern::Floor {
            argument_sort,
            sort,
            pattern,
        } => {
            push_long_head("\\floor", argument_sort, sort, text)?;
            push_last(pattern, text)
        }
        Pattern::Equals {
            argument_sort,
            sort,
            left,
            right,
        } => {
            push_long_head("\\equals", argument_sort, sort, text)?;
            push_pattern(left, text)?;
            push_second(right, text)
        }
        Pattern::In {
            argument_sort,
            sort,
            left,
            right,
        } => {
            push_long_head("\\in", argument_sort, sort, text)?;
            push_pattern(left, text)?;
            push_second(right, text)
        }
        Pattern::Mu {
            name,
            sort,
            pattern,
        } => {
            push_fixed_point("\\mu", name, sort, text)?;
            push_second(pattern, text)
        }
        Pattern::Nu {
            name,
            sort,
            pattern,
        } => {
            push_fixed_point("\\nu", name, sort, text)?;
            push_second(pattern, text)
        }
    }
}

/// The second of two members, and the parenthesis that ends them.
#[cycle(pattern)]
fn push_second(pattern: &Pattern, text: &mut String) -> Result<(), AllocError>
    ensures { OnOk result (string_bytes text.new ≡ string_bytes text.old ++ (codes "," ++ pattern_text (view pattern.now) ++ codes ")")) }
{
    text.push_str(",")?;
    push_last(pattern, text)
}

/// The last member, and the parenthesis that ends them.
#[cycle(pattern)]
fn push_last(pattern: &Pattern, text: &mut String) -> Result<(), AllocError>
    ensures { OnOk result (string_bytes text.new ≡ string_bytes text.old ++ (pattern_text (view pattern.now) ++ codes ")")) }
{
    push_pattern(pattern, text)?;
    text.push_str(")")
}

/// Members with commas between them, and the parenthesis that ends them.
#[cycle(pattern)]
fn push_members(patterns: &[Pattern], text: &mut String) -> Result<(), AllocError>
    ensures { OnOk result (string_bytes text.new ≡ string_bytes text.old ++ (patterns_after [] (patterns_view patterns.now) ++ codes ")")) }
{
    push_patterns(patterns, text)?;
    text.push_str(")")
}

/// Patterns with commas between them.
#[cycle(pattern)]
fn push_patterns(patterns: &[Pattern], text: &mut String) -> Result<(), AllocError>
    ensures { OnOk result (string_bytes text.new ≡ string_bytes text.old ++ patterns_after [] (patterns_view patterns.now)) }
{
    let mut before = "";
    for pattern in patterns {
        text.push_str(before)?;
        push_pattern(pattern, text)?;
        before = ",";
    }
    Ok(())
}

/// `@x:S`.
fn push_set_variable(name: &str, sort: &Sort, text: &mut String) -> Result<(), AllocError>
    ensures { OnOk result (string_bytes text.new ≡ string_bytes text.old ++ (codes "@" ++ variable_text name.now (sort_view sort.now))) }
{
    text.push_str("@")?;
    push_variable(name, sort, text)
}

/// `\dv{S}("text")`.
fn push_literal(sort: &Sort, string: &str, text: &mut String) -> Result<(), AllocError>
    ensures { OnOk result (string_bytes text.new ≡ string_bytes text.old ++ form (codes "\\dv") (sort_text (sort_view sort.now)) (quoted string.now)) }
{
    push_head("\\dv", sort, text)?;
    push_quoted(string, text)?;
    text.push_str(")")
}

/// `word{S}()`.
fn push_constant(word: &str, sort: &Sort, text: &mut String) -> Result<(), AllocError>
    ensures { OnOk result (string_bytes text.new ≡ string_bytes text.old ++ form word.now (sort_text (sort_view sort.now)) []) }
{
    push_head(word, sort, text)?;
    text.push_str(")")
}

/// `word{S}(`.
fn push_head(word: &str, sort: &Sort, text: &mut String) -> Result<(), AllocError>
    ensures { OnOk result (string_bytes text.new ≡ string_bytes text.old ++ head word.now (sort_text (sort_view sort.now))) }
{
    text.push_str(word)?;
    text.push_str("{")?;
    push_sort(sort, text)?;
    text.push_str("}(")
}

/// `word{A,S}(`.
fn push_long_head(
    word: &str,
    argument_sort: &Sort,
    sort: &Sort,
    text: &mut String,
) -> Result<(), AllocError>
    ensures { let argument_sort' = sort_view argument_sort.now in let sort' = sort_view sort.now in OnOk result (string_bytes text.new ≡ string_bytes text.old ++ head word.now (pair (sort_text argument_sort') (sort_text sort'))) }
{
    text.push_str(word)?;
    text.push_str("{")?;
    push_sort(argument_sort, text)?;
    text.push_str(",")?;
    push_sort(sort, text)?;
    text.push_str("}(")
}

/// `name{sorts}(`.
fn push_symbol(symbol: &str, sorts: &[Sort], text: &mut String) -> Result<(), AllocError>
    ensures { OnOk result (string_bytes text.new ≡ string_bytes text.old ++ head symbol.now (sorts_text (sorts_view sorts.now))) }
{
    text.push_str(symbol)?;
    text.push_str("{")?;
    push_sorts(sorts, text)?;
    text.push_str("}(")
}

/// `word{S}(x:T`.
fn push_quantifier(
    word: &str,
    sort: &Sort,
    name: &str,
    name_sort: &Sort,
    text: &mut String,
) -> Result<(), AllocError>
    ensures { let sort' = sort_view sort.now in let name_sort' = sort_view name_sort.now in OnOk result (string_bytes text.new ≡ string_bytes text.old ++ (head word.now (sort_text sort') ++ variable_text name.now name_sort')) }
{
    push_head(word, sort, text)?;
    push_variable(name, name_sort, text)
}

/// `word{}(@x:S`.
fn push_fixed_point(
    word: &str,
    name: &str,
    sort: &Sort,
    text: &mut String,
) -> Result<(), AllocError>
    ensures { OnOk result (string_bytes text.new ≡ string_bytes text.old ++ (head word.now [] ++ (codes "@" ++ variable_text name.now (sort_view sort.now)))) }
{
    text.push_str(word)?;
    text.push_str("{}(")?;
    push_set_variable(name, sort, text)
}

/// Attributes in brackets, after a space.
pub fn push_attributes(attributes: &[Pattern], text: &mut String) -> Result<(), AllocError>
    ensures { OnOk result (string_bytes text.new ≡ string_bytes text.old ++ attributes_text (patterns_view attributes.now)) }
{
    text.push_str(" [")?;
    push_patterns(attributes, text)?;
    text.push_str("]")
}
