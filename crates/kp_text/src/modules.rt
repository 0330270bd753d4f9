ghost use Rattle.std.specs.Prelude.{◌≡◌, ℕ, List, [], ◌∷◌, ◌++◌, map, length, IfOk, IfErr, OnOk, string_bytes, codes};
ghost use Rattle.kp_kore.specs.Syntax.{KoreModule};
ghost use Rattle.kp_kore.specs.View.{view, module_view, definition_view};
ghost use Rattle.kp_text.specs.Tokens.{lexed, between, finished};
ghost use Rattle.kp_text.specs.Next.{Place, Answer, pattern_answer, module_answer, modules_answer, definition_answer, answered, done, after_module, more_modules};
ghost use Rattle.kp_text.specs.Reads.{run_text, failed, Finds, Stops, IsBehind};
ghost use Rattle.kp_text.specs.Starts.{pattern_start, module_start, modules_start, definition_start, a_module, some_modules, IsModuleAhead};

use crate::descent::a_pattern;
use crate::expected::name;
use crate::fault::{FaultKind, TextFailure};
use crate::level::Level;
use crate::lexer::{Ahead, Token, look_ahead};
use crate::sentences::{attributes, is_word, sentences, word};
use crate::tail::Tail;
use kp_kore::{Definition, Module, Pattern};
use std::alloc::Global;

/// A module whose word was read, and what comes behind it.
fn after_module(alloc: Global, text: &str, tail: Tail) -> Result<(Module, &str), TextFailure>
    ensures found { IfOk result (λ x. Finds tail text.now after_module (module_view x.0) x.1.now) }
    ensures fault { IfErr result (Stops tail text.now after_module) }
    ensures behind { IfOk result (λ x. IsBehind x.1.now text.now) }
{
    let (name, rest) = name(alloc, text, tail)?;
    let (sentences, rest) = sentences(alloc, rest, tail)?;
    let (attributes, rest) = attributes(alloc, rest, tail)?;
    Ok((
        Module {
            name,
            sentences,
            attributes,
        },
        rest,
    ))
}

/// A module, and what comes behind it.
fn a_module(alloc: Global, text: &str, tail: Tail) -> Result<(Module, &str), TextFailure>
    ensures found { IfOk result (λ x. Finds tail text.now a_module (module_view x.0) x.1.now) }
    ensures fault { IfErr result (Stops tail text.now a_module) }
    ensures behind { IfOk result (λ x. IsBehind x.1.now text.now) }
{
    let rest = word(alloc, "module", text, tail)?;
    after_module(alloc, rest, tail)
}

/// Whether a word stands next that begins a module, and then what comes behind it; nothing at the end.
#[tactic(auto, using(crate::proofs::InModules::modules_refused))]
fn module_ahead(alloc: Global, text: &str, tail: Tail) -> Result<Option<&str>, TextFailure>
    ensures found { IfOk result (IsModuleAhead tail text.now) }
    ensures fault { IfErr result (λ e. (ms : List KoreModule) (answer : List KoreModule → Answer) → let outcome = run_text tail text.now (more_modules ms answer) in outcome ≡ failed e outcome) }
{
    match look_ahead(alloc, text, tail)? {
        Ahead::Finished => Ok(None),
        Ahead::Token { left, token, rest } => match token {
            Token::Identifier(found) => {
                if is_word(&found, "module") {
                    return Ok(Some(rest));
                }
                Err(TextFailure::Fault {
                    left,
                    kind: FaultKind::Token,
                })
            }
            _ => Err(TextFailure::Fault {
                left,
                kind: FaultKind::Token,
            }),
        },
        Ahead::Broken { left, kind } => Err(TextFailure::Fault { left, kind }),
        Ahead::BrokenString { quote, .. } => Err(TextFailure::Fault {
            left: quote,
            kind: FaultKind::Token,
        }),
    }
}

/// Nothing but blanks and comments up to the end.
fn the_end(alloc: Global, text: &str, tail: Tail) -> Result<(), TextFailure>
    ensures found { OnOk result (lexed tail text.now between ≡ finished) }
    ensures fault { IfErr result (λ e. (a : Answer) → run_text tail text.now (done a) ≡ failed e (run_text tail text.now (done a))) }
{
    match look_ahead(alloc, text, tail)? {
        Ahead::Finished => Ok(()),
        Ahead::Token { left, .. } => Err(TextFailure::Fault {
            left,
            kind: FaultKind::Token,
        }),
        Ahead::Broken { left, kind } => Err(TextFailure::Fault { left, kind }),
        Ahead::BrokenString { quote, .. } => Err(TextFailure::Fault {
            left: quote,
            kind: FaultKind::Token,
        }),
    }
}

/// A pattern, up to the end.
#[tactic(auto, using(crate::proofs::InModules::end_answers))]
pub fn whole_pattern(alloc: Global, text: &str, tail: Tail) -> Result<Pattern, TextFailure>
    ensures found { IfOk result (λ x. run_text tail text.now pattern_start ≡ answered (pattern_answer (view x))) }
    ensures fault { IfErr result (λ e. run_text tail text.now pattern_start ≡ failed e (run_text tail text.now pattern_start)) }
{
    let (pattern, rest) = a_pattern(alloc, Level::first(), text, tail)?;
    the_end(alloc, rest, tail)?;
    Ok(pattern)
}

/// A module, up to the end.
#[tactic(auto, using(crate::proofs::InModules::end_answers))]
pub fn whole_module(alloc: Global, text: &str, tail: Tail) -> Result<Module, TextFailure>
    ensures found { IfOk result (λ x. run_text tail text.now module_start ≡ answered (module_answer (module_view x))) }
    ensures fault { IfErr result (λ e. run_text tail text.now module_start ≡ failed e (run_text tail text.now module_start)) }
{
    let (module, rest) = a_module(alloc, text, tail)?;
    the_end(alloc, rest, tail)?;
    Ok(module)
}

/// One or more modules, up to the end.
fn some_modules(alloc: Global, text: &str, tail: Tail) -> Result<Vec<Module>, TextFailure>
    ensures found { IfOk result (λ x. (answer : List KoreModule → Answer) → run_text tail text.now (some_modules answer) ≡ answered (answer (map module_view x.items))) }
    ensures fault { IfErr result (λ e. (answer : List KoreModule → Answer) → run_text tail text.now (some_modules answer) ≡ failed e (run_text tail text.now (some_modules answer))) }
{
    let (first, rest) = a_module(alloc, text, tail)?;
    other_modules(alloc, first, rest, tail)
}

/// Modules up to the end, of which the first was read.
#[tactic(auto, using(crate::proofs::InModules::modules_go_on, crate::proofs::InModules::modules_end))]
fn other_modules(
    alloc: Global,
    first: Module,
    text: &str,
    tail: Tail,
) -> Result<Vec<Module>, TextFailure>
    ensures found { IfOk result (λ x. (answer : List KoreModule → Answer) → let outcome = run_text tail text.now (more_modules (module_view first ∷ []) answer) in outcome ≡ answered (answer (map module_view x.items))) }
    ensures fault { IfErr result (λ e. (answer : List KoreModule → Answer) → let outcome = run_text tail text.now (more_modules (module_view first ∷ []) answer) in outcome ≡ failed e outcome) }
{
    let mut modules = Vec::new(alloc);
    modules.push(first)?;
    let mut rest = text;
    while let Some(behind) = module_ahead(alloc, rest, tail)? {
        let (module, after) = after_module(alloc, behind, tail)?;
        modules.push(module)?;
        rest = after;
    }
    Ok(modules)
}

/// One or more modules, up to the end.
pub fn whole_modules(alloc: Global, text: &str, tail: Tail) -> Result<Vec<Module>, TextFailure>
    ensures found { IfOk result (λ x. run_text tail text.now modules_start ≡ answered (modules_answer (map module_view x.items))) }
    ensures fault { IfErr result (λ e. run_text tail text.now modules_start ≡ failed e (run_text tail text.now modules_start)) }
{
    some_modules(alloc, text, tail)
}

/// Attributes and one or more modules, up to the end.
pub fn whole_definition(alloc: Global, text: &str, tail: Tail) -> Result<Definition, TextFailure>
    ensures found { IfOk result (λ x. run_text tail text.now definition_start ≡ answered (definition_answer (definition_view x))) }
    ensures fault { IfErr result (λ e. run_text tail text.now definition_start ≡ failed e (run_text tail text.now definition_start)) }
{
    let (attributes, rest) = attributes(alloc, text, tail)?;
    let modules = some_modules(alloc, rest, tail)?;
    Ok(Definition {
        attributes,
        modules,
    })
}
