ghost use Rattle.std.specs.Prelude.{◌≡◌, ℕ, ◌≤◌, List, [], ◌∷◌, map, length, IfOk, IfErr, string_bytes};
ghost use Rattle.kp_kore.specs.Syntax.{KorePattern};
ghost use Rattle.kp_kore.specs.View.{view, sort_view};
ghost use Rattle.kp_text.specs.Ahead.{token_view};
ghost use Rattle.kp_text.specs.declared.level.Level.{Level};
ghost use Rattle.kp_text.specs.Next.{Place, a_pattern, after_name, after_keyword, one_argument, two_arguments, arguments, patterns, more_patterns, by_pattern};
ghost use Rattle.kp_text.specs.Reads.{run_text, failed, Finds, Stops, Finds2, Stops2, Finds3, Stops3, IsBehind, IsNotBefore, begun_place, begun_step, bound_argument, IsSmall};

use crate::fault::{FaultKind, TextFailure};
use crate::keyword::Keyword;
use crate::level::Level;
use crate::lexer::{Ahead, Token, look_ahead};
use crate::parts::keyword;
use crate::tail::Tail;
use std::alloc::Global;

/// How a pattern begins.
#[derive(Drop)]
pub enum Beginning {
    Name(String),
    SetVariable,
    Text(String),
    Keyword(Keyword),
}

/// How a token begins a pattern.
fn begins(token: Token) -> Option<Beginning>
    ensures { (level : Level) (k : KorePattern → Place) → by_pattern level k (token_view token) ≡ begun_step level k result }
{
    match token {
        Token::Identifier(name) => Some(Beginning::Name(name)),
        Token::Text(text) => Some(Beginning::Text(text)),
        Token::Backslashed(word) => match keyword(&word) {
            Some(keyword) => Some(Beginning::Keyword(keyword)),
            None => None,
        },
        Token::Mark(c) => {
            if c == '@' {
                Some(Beginning::SetVariable)
            } else {
                None
            }
        }
        Token::DefinedAs => None,
    }
}

/// How a pattern at a level begins, and what comes behind that.
#[tactic(auto, using(crate::proofs::InPatterns::pattern_begins, crate::proofs::InPatterns::pattern_refused, crate::proofs::InPatterns::pattern_deep))]
pub fn begin(
    alloc: Global,
    level: Level,
    text: &str,
    tail: Tail,
) -> Result<(Beginning, &str), TextFailure>
    ensures found { IfOk result (λ x. (k : KorePattern → Place) → run_text tail x.1.now (begun_place level k x.0) ≡ run_text tail text.now (a_pattern level k)) }
    ensures fault { IfErr result (Stops tail text.now (a_pattern level)) }
    ensures shallow { IfOk result (λ x. level.reached ≤ 256) }
    ensures behind { IfOk result (λ x. IsBehind x.1.now text.now) }
{
    match look_ahead(alloc, text, tail)? {
        Ahead::Token { left, token, rest } => match begins(token) {
            None => Err(TextFailure::Fault {
                left,
                kind: FaultKind::Token,
            }),
            Some(beginning) => {
                if level.reached > 256 {
                    return Err(TextFailure::Fault {
                        left,
                        kind: FaultKind::Deep,
                    });
                }
                Ok((beginning, rest))
            }
        },
        Ahead::Finished => Err(TextFailure::Fault {
            left: 0,
            kind: FaultKind::End,
        }),
        Ahead::Broken { left, kind } => Err(TextFailure::Fault { left, kind }),
        Ahead::BrokenString { quote, left, kind } => {
            if level.reached > 256 {
                return Err(TextFailure::Fault {
                    left: quote,
                    kind: FaultKind::Deep,
                });
            }
            Err(TextFailure::Fault { left, kind })
        }
    }
}
