ghost use Rattle.std.specs.Prelude.{◌≡◌, ℕ, Bool, List, [], ◌∷◌, ◌++◌, map, length, IfOk, IfErr, string_bytes, bytes_eq};
ghost use Rattle.kp_kore.specs.Syntax.{Text, KoreSort, KoreSorts, KorePattern, KoreSentence, sort_sentence, symbol_sentence, alias_sentence};
ghost use Rattle.kp_kore.specs.View.{view, sort_view, sorts_view, patterns_view, names_view, sentence_view, sort_sentence_view, symbol_sentence_view, alias_sentence_view, axiom_sentence_view};
ghost use Rattle.kp_text.specs.Grammar.{statement_meaning};
ghost use Rattle.kp_text.specs.Next.{Place, an_attributes, a_signature, an_import, a_word, a_defined_as, sentences, by_sentence, by_name};
ghost use Rattle.kp_text.specs.Ahead.{token_view};
ghost use Rattle.kp_text.specs.Reads.{run_text, failed, Finds, Stops, Finds2, Stops2, Leads, StopsAt, IsBehind, IsNotBefore};
ghost use Rattle.kp_text.specs.Sentences.{FindsDeclared, StopsDeclared, sort_declared, symbol_declared, an_equation, alias_declared, stated, sentence_word_of, sentence_step, sentence_goes, word_place};

use crate::descent::{a_pattern, patterns};
use crate::expected::{mark, name, next_token};
use crate::fault::{FaultKind, TextFailure};
use crate::level::Level;
use crate::lexer::Token;
use crate::names::braced_names;
use crate::sorts::{a_sort, sorts};
use crate::tail::Tail;
use kp_kore::sort::Name;
use kp_kore::{
    AliasSentence, AxiomSentence, Pattern, Sentence, Sort, SortSentence, SymbolSentence,
};
use std::alloc::Global;

/// The words that begin a sentence, and the one that ends a module.
#[derive(Clone, Copy)]
pub enum SentenceWord {
    End,
    Import,
    Sort { hooked: bool },
    Symbol { hooked: bool },
    Alias,
    Axiom,
    Claim,
}

/// Which of these words an identifier is.
fn word_of(word: &str) -> Option<SentenceWord>
    ensures { result ≡ sentence_word_of word.now }
{
    if is_word(word, "endmodule") {
        Some(SentenceWord::End)
    } else if is_word(word, "import") {
        Some(SentenceWord::Import)
    } else if is_word(word, "sort") {
        Some(SentenceWord::Sort { hooked: false })
    } else if is_word(word, "hooked-sort") {
        Some(SentenceWord::Sort { hooked: true })
    } else if is_word(word, "symbol") {
        Some(SentenceWord::Symbol { hooked: false })
    } else if is_word(word, "hooked-symbol") {
        Some(SentenceWord::Symbol { hooked: true })
    } else if is_word(word, "alias") {
        Some(SentenceWord::Alias)
    } else if is_word(word, "axiom") {
        Some(SentenceWord::Axiom)
    } else if is_word(word, "claim") {
        Some(SentenceWord::Claim)
    } else {
        None
    }
}

/// Which of these words an identifier is, by what it does where a sentence may begin.
pub fn sentence_word(word: &str) -> Option<SentenceWord>
    ensures { (so_far : List KoreSentence) (k : List KoreSentence → Place) → by_sentence so_far k word.now ≡ sentence_step so_far k result }
{
    word_of(word)
}

/// Patterns in brackets, and what comes behind them.
pub fn attributes(
    alloc: Global,
    text: &str,
    tail: Tail,
) -> Result<(Vec<Pattern>, &str), TextFailure>
    ensures found { IfOk result (λ x. Finds tail text.now an_attributes (patterns_view x.0.items) x.1.now) }
    ensures fault { IfErr result (Stops tail text.now an_attributes) }
    ensures behind { IfOk result (λ x. IsBehind x.1.now text.now) }
{
    let rest = mark(alloc, '[', text, tail)?;
    patterns(alloc, Level::first(), ']', rest, tail)
}

/// A name with its parameters, the sorts of arguments and that of the result.
#[derive(Drop)]
struct Declared {
    name: Name,
    parameters: Vec<Name>,
    arguments: Vec<Sort>,
    result_sort: Sort,
}

/// `name{parameters}(sorts):sort`, and what comes behind it.
fn signature(alloc: Global, text: &str, tail: Tail) -> Result<(Declared, &str), TextFailure>
    ensures found { IfOk result (λ x. FindsDeclared tail text.now x.0 x.1.now) }
    ensures fault { IfErr result (StopsDeclared tail text.now) }
    ensures behind { IfOk result (λ x. IsBehind x.1.now text.now) }
{
    let (name, rest) = name(alloc, text, tail)?;
    let (parameters, rest) = braced_names(alloc, rest, tail)?;
    let rest = mark(alloc, '(', rest, tail)?;
    let (arguments, rest) = sorts(alloc, 1, ')', rest, tail)?;
    let rest = mark(alloc, ':', rest, tail)?;
    let (result_sort, rest) = a_sort(alloc, 1, rest, tail)?;
    Ok((
        Declared {
            name,
            parameters,
            arguments,
            result_sort,
        },
        rest,
    ))
}

/// An import whose word was read.
fn import(alloc: Global, text: &str, tail: Tail) -> Result<(Sentence, &str), TextFailure>
    ensures found { IfOk result (λ x. Finds tail text.now an_import (sentence_view x.0) x.1.now) }
    ensures fault { IfErr result (Stops tail text.now an_import) }
    ensures behind { IfOk result (λ x. IsBehind x.1.now text.now) }
{
    let (name, rest) = name(alloc, text, tail)?;
    let (attributes, rest) = attributes(alloc, rest, tail)?;
    Ok((Sentence::Import { name, attributes }, rest))
}

/// The declaration of a sort whose word was read.
fn sort(
    alloc: Global,
    hooked: bool,
    text: &str,
    tail: Tail,
) -> Result<(SortSentence, &str), TextFailure>
    ensures found { IfOk result (λ x. Finds tail text.now (sort_declared hooked) (sort_sentence_view x.0) x.1.now) }
    ensures fault { IfErr result (Stops tail text.now (sort_declared hooked)) }
    ensures behind { IfOk result (λ x. IsBehind x.1.now text.now) }
{
    let (name, rest) = name(alloc, text, tail)?;
    let (parameters, rest) = braced_names(alloc, rest, tail)?;
    let (attributes, rest) = attributes(alloc, rest, tail)?;
    Ok((
        SortSentence {
            hooked,
            name,
            parameters,
            attributes,
        },
        rest,
    ))
}

/// The declaration of a symbol whose word was read.
fn symbol(
    alloc: Global,
    hooked: bool,
    text: &str,
    tail: Tail,
) -> Result<(SymbolSentence, &str), TextFailure>
    ensures found { IfOk result (λ x. Finds tail text.now (symbol_declared hooked) (symbol_sentence_view x.0) x.1.now) }
    ensures fault { IfErr result (Stops tail text.now (symbol_declared hooked)) }
    ensures behind { IfOk result (λ x. IsBehind x.1.now text.now) }
{
    let (declared, rest) = signature(alloc, text, tail)?;
    let (attributes, rest) = attributes(alloc, rest, tail)?;
    Ok((
        SymbolSentence {
            hooked,
            name: declared.name,
            parameters: declared.parameters,
            arguments: declared.arguments,
            result_sort: declared.result_sort,
            attributes,
        },
        rest,
    ))
}

/// Whether an identifier is a word.
pub fn is_word(found: &str, wanted: &str) -> bool
    ensures { result ≡ bytes_eq found.now wanted.now }
{
    found == wanted
}

/// What comes behind the word that ought to stand next.
#[tactic(auto, using(crate::proofs::InSentences::word_leads, crate::proofs::InSentences::word_refused))]
pub fn word<'a>(
    alloc: Global,
    wanted: &str,
    text: &'a str,
    tail: Tail,
) -> Result<&'a str, TextFailure>
    ensures found { IfOk result (λ rest. Leads tail text.now (a_word wanted.now) rest.now) }
    ensures fault { IfErr result (StopsAt tail text.now (a_word wanted.now)) }
    ensures behind { IfOk result (λ rest. IsBehind rest.now text.now) }
{
    let (left, token, rest) = next_token(alloc, text, tail)?;
    match token {
        Token::Identifier(found) => {
            if is_word(&found, wanted) {
                return Ok(rest);
            }
            Err(TextFailure::Fault {
                left,
                kind: FaultKind::Token,
            })
        }
        _ => Err(TextFailure::Fault {
            left,
            kind: FaultKind::Token,
        }),
    }
}

/// What comes behind `:=`.
fn defined_as(alloc: Global, text: &str, tail: Tail) -> Result<&str, TextFailure>
    ensures found { IfOk result (λ rest. Leads tail text.now a_defined_as rest.now) }
    ensures fault { IfErr result (StopsAt tail text.now a_defined_as) }
    ensures behind { IfOk result (λ rest. IsBehind rest.now text.now) }
{
    let (left, token, rest) = next_token(alloc, text, tail)?;
    match token {
        Token::DefinedAs => Ok(rest),
        _ => Err(TextFailure::Fault {
            left,
            kind: FaultKind::Token,
        }),
    }
}

/// `where p := q`, and what comes behind it.
fn equation(alloc: Global, text: &str, tail: Tail) -> Result<(Pattern, Pattern, &str), TextFailure>
    ensures found { IfOk result (λ x. Finds2 tail text.now an_equation (view x.0) (view x.1) x.2.now) }
    ensures fault { IfErr result (Stops2 tail text.now an_equation) }
    ensures behind { IfOk result (λ x. IsBehind x.2.now text.now) }
{
    let rest = word(alloc, "where", text, tail)?;
    let (left, rest) = a_pattern(alloc, Level::first(), rest, tail)?;
    let rest = defined_as(alloc, rest, tail)?;
    let (right, rest) = a_pattern(alloc, Level::first(), rest, tail)?;
    Ok((left, right, rest))
}

/// The declaration of an alias whose word was read.
fn alias(alloc: Global, text: &str, tail: Tail) -> Result<(AliasSentence, &str), TextFailure>
    ensures found { IfOk result (λ x. Finds tail text.now alias_declared (alias_sentence_view x.0) x.1.now) }
    ensures fault { IfErr result (Stops tail text.now alias_declared) }
    ensures behind { IfOk result (λ x. IsBehind x.1.now text.now) }
{
    let (declared, rest) = signature(alloc, text, tail)?;
    let (left, right, rest) = equation(alloc, rest, tail)?;
    let (attributes, rest) = attributes(alloc, rest, tail)?;
    Ok((
        AliasSentence {
            name: declared.name,
            parameters: declared.parameters,
            arguments: declared.arguments,
            result_sort: declared.result_sort,
            left,
            right,
            attributes,
        },
        rest,
    ))
}

/// An axiom or a claim whose word was read.
fn statement(alloc: Global, text: &str, tail: Tail) -> Result<(AxiomSentence, &str), TextFailure>
    ensures found { IfOk result (λ x. Finds tail text.now stated (axiom_sentence_view x.0) x.1.now) }
    ensures fault { IfErr result (Stops tail text.now stated) }
    ensures behind { IfOk result (λ x. IsBehind x.1.now text.now) }
{
    let (parameters, rest) = braced_names(alloc, text, tail)?;
    let (pattern, rest) = a_pattern(alloc, Level::first(), rest, tail)?;
    let (attributes, rest) = attributes(alloc, rest, tail)?;
    Ok((
        AxiomSentence {
            parameters,
            pattern,
            attributes,
        },
        rest,
    ))
}

/// A sentence whose word was read, or nothing where that ends the module; and what comes behind it.
fn after_word(
    alloc: Global,
    word: SentenceWord,
    text: &str,
    tail: Tail,
) -> Result<(Option<Sentence>, &str), TextFailure>
    ensures found { IfOk result (λ x. (so_far : List KoreSentence) (k : List KoreSentence → Place) → let place = word_place so_far k word in let place_behind = sentence_goes so_far k x.0 in run_text tail x.1.now place_behind ≡ run_text tail text.now place) }
    ensures fault { IfErr result (λ e. (so_far : List KoreSentence) → Stops tail text.now (λ k. word_place so_far k word) e) }
    ensures behind { IfOk result (λ x. IsNotBefore x.1.now text.now) }
{
    match word {
        SentenceWord::End => Ok((None, text)),
        SentenceWord::Import => {
            let (sentence, rest) = import(alloc, text, tail)?;
            Ok((Some(sentence), rest))
        }
        SentenceWord::Sort { hooked } => {
            let (sentence, rest) = sort(alloc, hooked, text, tail)?;
            Ok((Some(Sentence::Sort(sentence)), rest))
        }
        SentenceWord::Symbol { hooked } => {
            let (sentence, rest) = symbol(alloc, hooked, text, tail)?;
            Ok((Some(Sentence::Symbol(sentence)), rest))
        }
        SentenceWord::Alias => {
            let (sentence, rest) = alias(alloc, text, tail)?;
            Ok((Some(Sentence::Alias(sentence)), rest))
        }
        SentenceWord::Axiom => {
            let (sentence, rest) = statement(alloc, text, tail)?;
            Ok((Some(Sentence::Axiom(sentence)), rest))
        }
        SentenceWord::Claim => {
            let (sentence, rest) = statement(alloc, text, tail)?;
            Ok((Some(Sentence::Claim(sentence)), rest))
        }
    }
}

/// Which of these words a token is.
fn token_word(token: Token) -> Option<SentenceWord>
    ensures { (so_far : List KoreSentence) (k : List KoreSentence → Place) → by_name (token_view token) (by_sentence so_far k) ≡ sentence_step so_far k result }
{
    match token {
        Token::Identifier(word) => sentence_word(&word),
        Token::Backslashed(_) | Token::Text(_) | Token::Mark(_) | Token::DefinedAs => None,
    }
}

/// The next sentence, or nothing at the end of a module; and what comes behind it.
#[tactic(auto, using(crate::proofs::InSentences::sentence_begins, crate::proofs::InSentences::sentence_refused))]
fn next_sentence(
    alloc: Global,
    text: &str,
    tail: Tail,
) -> Result<(Option<Sentence>, &str), TextFailure>
    ensures found { IfOk result (λ x. (so_far : List KoreSentence) (k : List KoreSentence → Place) → let place_behind = sentence_goes so_far k x.0 in run_text tail x.1.now place_behind ≡ run_text tail text.now (sentences so_far k)) }
    ensures fault { IfErr result (λ e. (so_far : List KoreSentence) → Stops tail text.now (sentences so_far) e) }
    ensures behind { IfOk result (λ x. IsBehind x.1.now text.now) }
{
    let (left, token, rest) = next_token(alloc, text, tail)?;
    match token_word(token) {
        None => Err(TextFailure::Fault {
            left,
            kind: FaultKind::Token,
        }),
        Some(word) => after_word(alloc, word, rest, tail),
    }
}

/// The sentences of a module, and what comes behind the word that ends it.
pub fn sentences(
    alloc: Global,
    text: &str,
    tail: Tail,
) -> Result<(Vec<Sentence>, &str), TextFailure>
    ensures found { IfOk result (λ x. Finds tail text.now (sentences []) (map sentence_view x.0.items) x.1.now) }
    ensures fault { IfErr result (Stops tail text.now (sentences [])) }
    ensures behind { IfOk result (λ x. IsBehind x.1.now text.now) }
{
    let mut sentences = Vec::new(alloc);
    let mut rest = text;
    loop {
        let (next, after) = next_sentence(alloc, rest, tail)?;
        match next {
            None => return Ok((sentences, after)),
            Some(sentence) => {
                sentences.push(sentence)?;
                rest = after;
            }
        }
    }
}
