ghost use Rattle.std.specs.Prelude.{◌≡◌, ◌≢◌, ℕ, ◌+◌, ◌<◌, ◌≤◌, suc, false, List, [], ◌∷◌, ◌++◌, ◌==◌, length, IfOk, IsTrue, IsUtf8, MatchOption, encode_utf8, string_bytes};
ghost use Rattle.kp_text.specs.Tokens.{is_white, is_identifier_byte, is_mark, lexed, begun, Lexing, between, after_slash, in_line_comment, in_comment, in_identifier, in_backslashed, after_backslash, after_colon, in_string, after_escape, in_number, tail_after, lexeme, identifier, backslashed, tail_between};
ghost use Rattle.kp_text.specs.Ahead.{skipped, ahead_view, IsRestWithin, IsSkipWithin};

use crate::fault::FaultKind;
use crate::strings::string;
use crate::tail::Tail;
use std::alloc::{AllocError, Global};

/// A token of Kore text.
#[derive(Drop)]
pub enum Token {
    Identifier(String),
    /// A backslash and an identifier, as `\and`.
    Backslashed(String),
    /// A string, as the characters that it stands for.
    Text(String),
    /// Punctuation.
    Mark(char),
    /// `:=`.
    DefinedAs,
}

/// What stands next in a text. A place is told by how many bytes are left there.
#[derive(Drop)]
pub enum Ahead<'a> {
    Finished,
    Token {
        left: usize,
        token: Token,
        rest: &'a str,
    },
    Broken {
        left: usize,
        kind: FaultKind,
    },
    BrokenString {
        quote: usize,
        left: usize,
        kind: FaultKind,
    },
}

/// What stands behind a comment, or the fault in it.
#[derive(Clone, Copy)]
enum Skip<'a> {
    To(&'a str),
    Broken { left: usize, kind: FaultKind },
}

/// The first character, and the text after it.
pub fn first_character(text: &str) -> Option<(char, &str)>
    ensures { MatchOption result (text.now ≡ []) (λ x. (text.now ≡ encode_utf8 x.0 ++ x.1.now) × (length x.1.now < length text.now) × IsUtf8 x.1.now) }
{
    let mut characters = text.chars();
    match characters.next() {
        None => None,
        Some(c) => Some((c, characters.as_str())),
    }
}

/// Whether it is white space.
fn is_blank(c: char) -> bool
    ensures { result ≡ is_white c }
{
    c == ' ' || c == '\t' || c == '\r' || c == '\n'
}

/// A letter, a digit, ' or -.
fn is_identifier_character(c: char) -> bool
    ensures { result ≡ is_identifier_byte c }
{
    c.is_ascii_alphabetic() || c.is_ascii_digit() || c == '\'' || c == '-'
}

/// From behind `//` on.
#[tactic(auto, using(crate::proofs::Characters::line_goes_on, crate::proofs::Characters::line_ends))]
fn after_line_comment(text: &str, tail: Tail) -> Skip<'_>
    ensures same { skipped tail result ≡ lexed tail text.now in_line_comment }
    ensures within { IsSkipWithin result (length text.now) }
{
    let mut rest = text;
    while let Some((c, after)) = first_character(rest) {
        if c == '\n' {
            return Skip::To(after);
        }
        rest = after;
    }
    match tail {
        Tail::Cut => Skip::Broken {
            left: 0,
            kind: FaultKind::End,
        },
        Tail::Whole | Tail::Bad => Skip::To(rest),
    }
}

/// From behind `/*` on.
#[tactic(auto, using(crate::proofs::Comments::comment_goes_on, crate::proofs::Comments::comment_ends))]
fn after_comment(text: &str, tail: Tail) -> Skip<'_>
    ensures same { skipped tail result ≡ lexed tail text.now in_comment }
    ensures within { IsSkipWithin result (length text.now) }
{
    let mut rest = text;
    let mut starred = false;
    while let Some((c, after)) = first_character(rest) {
        if starred && c == '/' {
            return Skip::To(after);
        }
        starred = c == '*';
        rest = after;
    }
    Skip::Broken {
        left: 0,
        kind: tail.kind(),
    }
}

/// From behind a slash on, which stands where left bytes are left.
#[tactic(auto, using(crate::proofs::Comments::slash_character, crate::proofs::Comments::slash_stands_alone))]
fn after_slash(text: &str, tail: Tail, left: usize) -> Skip<'_>
    ensures same { skipped tail result ≡ lexed tail text.now (after_slash left) }
    ensures within { IsSkipWithin result (length text.now) }
{
    match first_character(text) {
        Some(('/', after)) => after_line_comment(after, tail),
        Some(('*', after)) => after_comment(after, tail),
        Some(_) => Skip::Broken {
            left,
            kind: FaultKind::Byte,
        },
        None => alone(tail, left),
    }
}

/// A slash or a backslash before the tail: where nothing follows, the text ends too early.
fn alone(tail: Tail, left: usize) -> Skip<'static>
    ensures same { skipped tail result ≡ tail_after tail left }
    ensures within { (n : ℕ) → IsSkipWithin result n }
{
    match tail {
        Tail::Whole => Skip::Broken {
            left: 0,
            kind: FaultKind::End,
        },
        Tail::Bad | Tail::Cut => Skip::Broken {
            left,
            kind: FaultKind::Byte,
        },
    }
}

/// An identifier whose first letter was read.
#[tactic(auto, using(crate::proofs::Words::identifier_goes_on, crate::proofs::Words::identifier_ends, crate::proofs::Words::backslashed_goes_on, crate::proofs::Words::backslashed_ends))]
fn word(alloc: Global, first: char, text: &str) -> Result<(String, &str), AllocError>
    requires { first < 128 }
    ensures identifier { IfOk result (λ x. (tail : Tail) (left : ℕ) → let name = string_bytes x.0 in let the_rest = lexed tail x.1.now between in lexed tail text.now (in_identifier left (first ∷ [])) ≡ lexeme left (identifier name) the_rest) }
    ensures backslashed { IfOk result (λ x. (tail : Tail) (left : ℕ) → let name = string_bytes x.0 in let the_rest = lexed tail x.1.now between in lexed tail text.now (in_backslashed left (first ∷ [])) ≡ lexeme left (backslashed name) the_rest) }
    ensures within { IfOk result (λ x. (length x.1.now ≤ length text.now) × IsUtf8 x.1.now) }
{
    let mut name = String::new(alloc);
    name.push(first)?;
    let mut rest = text;
    while let Some((c, after)) = first_character(rest) {
        if !is_identifier_character(c) {
            return Ok((name, rest));
        }
        name.push(c)?;
        rest = after;
    }
    Ok((name, rest))
}

/// From behind a backslash on, which stands where left bytes are left.
#[tactic(auto, using(crate::proofs::Words::backslash_letter, crate::proofs::Words::backslash_stands_alone))]
fn after_backslash<'a>(
    alloc: Global,
    text: &'a str,
    tail: Tail,
    left: usize,
) -> Result<Ahead<'a>, AllocError>
    ensures same { IfOk result (λ x. ahead_view tail x ≡ lexed tail text.now (after_backslash left)) }
    ensures within { IfOk result (λ x. IsRestWithin x (suc (length text.now))) }
{
    let Some((c, after)) = first_character(text) else {
        return Ok(ended(tail, left));
    };
    if !c.is_ascii_alphabetic() {
        return Ok(Ahead::Broken {
            left,
            kind: FaultKind::Byte,
        });
    }
    let (name, rest) = word(alloc, c, after)?;
    Ok(Ahead::Token {
        left,
        token: Token::Backslashed(name),
        rest,
    })
}

/// A backslash before the tail: where nothing follows, the text ends too early.
fn ended(tail: Tail, left: usize) -> Ahead<'static>
    ensures same { ahead_view tail result ≡ tail_after tail left }
    ensures within { (n : ℕ) → IsRestWithin result n }
{
    match tail {
        Tail::Whole => Ahead::Broken {
            left: 0,
            kind: FaultKind::End,
        },
        Tail::Bad | Tail::Cut => Ahead::Broken {
            left,
            kind: FaultKind::Byte,
        },
    }
}

/// From behind a colon on.
#[tactic(auto, using(crate::proofs::Words::colon_equals, crate::proofs::Words::colon_stands_alone))]
fn after_colon(text: &str, tail: Tail, left: usize) -> Ahead<'_>
    ensures same { ahead_view tail result ≡ lexed tail text.now (after_colon left) }
    ensures within { IsRestWithin result (suc (length text.now)) }
{
    match first_character(text) {
        Some(('=', after)) => Ahead::Token {
            left,
            token: Token::DefinedAs,
            rest: after,
        },
        _ => Ahead::Token {
            left,
            token: Token::Mark(':'),
            rest: text,
        },
    }
}

/// A bracket, a comma or @.
fn is_mark_character(c: char) -> bool
    ensures { result ≡ is_mark c }
{
    ((c == '{' || c == '}') || (c == '(' || c == ')'))
        || ((c == '[' || c == ']') || (c == ',' || c == '@'))
}

/// The token that a character begins, which is neither blank nor a slash.
fn token_from<'a>(
    alloc: Global,
    c: char,
    after: &'a str,
    tail: Tail,
    left: usize,
) -> Result<Ahead<'a>, AllocError>
    requires not_blank { is_white c ≡ false }
    requires no_slash { c ≢ 47 }
    ensures same { IfOk result (λ x. ahead_view tail x ≡ begun (lexed tail after.now) c left) }
    ensures within { IfOk result (λ x. IsRestWithin x (suc (length after.now))) }
{
    if c.is_ascii_alphabetic() {
        let (name, rest) = word(alloc, c, after)?;
        return Ok(Ahead::Token {
            left,
            token: Token::Identifier(name),
            rest,
        });
    }
    if is_mark_character(c) {
        return Ok(Ahead::Token {
            left,
            token: Token::Mark(c),
            rest: after,
        });
    }
    match c {
        ':' => Ok(after_colon(after, tail, left)),
        '\\' => after_backslash(alloc, after, tail, left),
        '"' => string(alloc, after, tail, left),
        _ => Ok(Ahead::Broken {
            left,
            kind: FaultKind::Byte,
        }),
    }
}

/// What stands next in a text that a tail follows.
#[tactic(auto, using(crate::proofs::Words::blank_goes_on, crate::proofs::Words::slash_begins, crate::proofs::Words::token_begins))]
pub fn look_ahead<'a>(alloc: Global, text: &'a str, tail: Tail) -> Result<Ahead<'a>, AllocError>
    ensures same { IfOk result (λ x. ahead_view tail x ≡ lexed tail text.now between) }
    ensures within { IfOk result (λ x. IsRestWithin x (length text.now)) }
{
    let mut rest = text;
    while let Some((c, after)) = first_character(rest) {
        if is_blank(c) {
            rest = after;
            continue;
        }
        if c != '/' {
            return token_from(alloc, c, after, tail, rest.len());
        }
        match after_slash(after, tail, rest.len()) {
            Skip::To(behind) => rest = behind,
            Skip::Broken { left, kind } => return Ok(Ahead::Broken { left, kind }),
        }
    }
    Ok(finished(tail))
}

/// The tail between tokens.
fn finished(tail: Tail) -> Ahead<'static>
    ensures same { ahead_view tail result ≡ tail_between tail }
    ensures within { (n : ℕ) → IsRestWithin result n }
{
    match tail {
        Tail::Whole => Ahead::Finished,
        Tail::Bad | Tail::Cut => Ahead::Broken {
            left: 0,
            kind: FaultKind::Byte,
        },
    }
}
