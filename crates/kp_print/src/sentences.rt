ghost use Rattle.std.specs.Prelude.{◌≡◌, ◌++◌, codes, OnOk, string_bytes};
ghost use Rattle.kp_kore.specs.View.{patterns_view, sentence_view, sort_sentence_view, symbol_sentence_view, alias_sentence_view, axiom_sentence_view};
ghost use Rattle.kp_kore.specs.Syntax.{import_sentence, sort_sentence, symbol_sentence, alias_sentence};
ghost use Rattle.kp_print.specs.Printed.{hooked_text, statement_text, sentence_text};

use crate::names::{push_parameters, push_signature};
use crate::patterns::{push_attributes, push_pattern};
use kp_kore::{AliasSentence, AxiomSentence, Pattern, Sentence, SortSentence, SymbolSentence};
use std::alloc::AllocError;

/// A sentence.
pub fn push_sentence(sentence: &Sentence, text: &mut String) -> Result<(), AllocError>
    ensures { OnOk result (string_bytes text.new ≡ string_bytes text.old ++ sentence_text (sentence_view sentence.now)) }
{
    match sentence {
        Sentence::Import { name, attributes } => push_import(name, attributes, text),
        Sentence::Sort(sentence) => push_sort_sentence(sentence, text),
        Sentence::Symbol(sentence) => push_symbol_sentence(sentence, text),
        Sentence::Alias(sentence) => push_alias_sentence(sentence, text),
        Sentence::Axiom(sentence) => push_statement("axiom", sentence, text),
        Sentence::Claim(sentence) => push_statement("claim", sentence, text),
    }
}

/// `import NAME []`.
fn push_import(name: &str, attributes: &[Pattern], text: &mut String) -> Result<(), AllocError>
    ensures { OnOk result (string_bytes text.new ≡ string_bytes text.old ++ sentence_text (import_sentence name.now (patterns_view attributes.now))) }
{
    text.push_str("import ")?;
    text.push_str(name)?;
    push_attributes(attributes, text)
}

/// `sort NAME{parameters} []`.
fn push_sort_sentence(sentence: &SortSentence, text: &mut String) -> Result<(), AllocError>
    ensures { OnOk result (string_bytes text.new ≡ string_bytes text.old ++ sentence_text (sort_sentence (sort_sentence_view sentence.now))) }
{
    push_hooked(sentence.hooked, text)?;
    text.push_str("sort ")?;
    text.push_str(&sentence.name)?;
    push_parameters(&sentence.parameters, text)?;
    push_attributes(&sentence.attributes, text)
}

/// `symbol NAME{parameters}(sorts):sort []`.
fn push_symbol_sentence(sentence: &SymbolSentence, text: &mut String) -> Result<(), AllocError>
    ensures { OnOk result (string_bytes text.new ≡ string_bytes text.old ++ sentence_text (symbol_sentence (symbol_sentence_view sentence.now))) }
{
    push_hooked(sentence.hooked, text)?;
    text.push_str("symbol ")?;
    push_signature(
        &sentence.name,
        &sentence.parameters,
        &sentence.arguments,
        &sentence.result_sort,
        text,
    )?;
    push_attributes(&sentence.attributes, text)
}

/// `alias NAME{parameters}(sorts):sort where left:=right []`.
fn push_alias_sentence(sentence: &AliasSentence, text: &mut String) -> Result<(), AllocError>
    ensures { OnOk result (string_bytes text.new ≡ string_bytes text.old ++ sentence_text (alias_sentence (alias_sentence_view sentence.now))) }
{
    text.push_str("alias ")?;
    push_signature(
        &sentence.name,
        &sentence.parameters,
        &sentence.arguments,
        &sentence.result_sort,
        text,
    )?;
    text.push_str(" where ")?;
    push_pattern(&sentence.left, text)?;
    text.push_str(":=")?;
    push_pattern(&sentence.right, text)?;
    push_attributes(&sentence.attributes, text)
}

/// What an axiom or a claim states, after its keyword: `axiom{parameters} pattern []`.
fn push_statement(word: &str, sentence: &AxiomSentence, text: &mut String) -> Result<(), AllocError>
    ensures { OnOk result (string_bytes text.new ≡ string_bytes text.old ++ (word.now ++ statement_text (axiom_sentence_view sentence.now))) }
{
    text.push_str(word)?;
    push_parameters(&sentence.parameters, text)?;
    text.push_str(" ")?;
    push_pattern(&sentence.pattern, text)?;
    push_attributes(&sentence.attributes, text)
}

/// What stands before the keyword of a hooked sort or symbol.
fn push_hooked(hooked: bool, text: &mut String) -> Result<(), AllocError>
    ensures { OnOk result (string_bytes text.new ≡ string_bytes text.old ++ hooked_text hooked) }
{
    if hooked {
        return text.push_str("hooked-");
    }
    Ok(())
}
