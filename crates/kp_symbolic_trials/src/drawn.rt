use std::alloc::{AllocError, Global};

/// The forms of a kind; but for states the first eight have no part that is drawn.
type Forms = [&'static str; 16];

/// A state: `$` stands for a term, `!` for a predicate, `=` for an equation. Each form has parts.
static STATES: Forms = [
    r"$",
    r"\and{S{}}(f{}(X:I{}),=,!)",
    r"\and{S{}}(pair{}(X:I{},Z:S{}),=,=,=)",
    r"\and{S{}}(e{}(Q:E{}),!,=)",
    r"\and{S{}}(g{}(Z:S{}),=,!,!)",
    r"\and{S{}}(!,pair{}(#,$),=)",
    r"\and{S{}}(e{}(%),=,=)",
    r"\and{S{}}($,\equals{I{},S{}}(X:I{},Y:I{}),!)",
    r"\and{S{}}($,!,!)",
    r"\and{S{}}($,=,!)",
    r"\and{S{}}(!,$,=)",
    r"\and{S{}}($,=,=,!)",
    r"\and{S{}}(!,\and{S{}}(=,$),!)",
    r"\and{S{}}(=,\and{S{}}(!,=),$)",
    r"\and{S{}}($,!,!,!,!)",
    r"\and{S{}}(\and{S{}}($,!),\and{S{}}(=,!))",
];

/// An equation that may be solved.
static EQUATIONS: Forms = [
    r"\equals{I{},S{}}(X:I{},Y:I{})",
    r"\equals{I{},S{}}(Y:I{},X:I{})",
    r#"\equals{B{},S{}}(B:B{},\dv{B{}}("true"))"#,
    r#"\equals{B{},S{}}(eq{}(Y:I{},\dv{I{}}("1")),\dv{B{}}("true"))"#,
    r#"\equals{B{},S{}}(\dv{B{}}("false"),ne{}(X:I{},\dv{I{}}("2")))"#,
    r"\equals{P{},S{}}(a{}(),P:P{})",
    r"\equals{S{},S{}}(Z:S{},f{}(Y:I{}))",
    r#"\in{T{},S{}}(T:T{},\dv{T{}}("4"))"#,
    r"\equals{I{},S{}}(X:I{},#)",
    r"\equals{I{},S{}}(#,Y:I{})",
    r"\equals{S{},S{}}(Z:S{},$)",
    r"\equals{S{},S{}}($,Z:S{})",
    r"\equals{E{},S{}}(%,Q:E{})",
    r"\equals{E{},S{}}(Q:E{},%)",
    r"\equals{B{},S{}}(B:B{},?)",
    r#"\equals{B{},S{}}(same{}(Q:E{},%),\dv{B{}}("true"))"#,
];

/// A predicate.
static PREDICATES: Forms = [
    r"\top{S{}}()",
    r"\exists{S{}}(W:I{},\equals{S{},S{}}(Z:S{},f{}(W:I{})))",
    r"\not{S{}}(\exists{S{}}(W:I{},\equals{E{},S{}}(Q:E{},inj{I{},E{}}(W:I{}))))",
    r"\exists{S{}}(X:I{},\exists{S{}}(V:S{},\equals{S{},S{}}(Z:S{},pair{}(X:I{},V:S{}))))",
    r#"\equals{B{},S{}}(lt{}(X:I{},Y:I{}),\dv{B{}}("true"))"#,
    r#"\not{S{}}(\equals{I{},S{}}(X:I{},\dv{I{}}("1")))"#,
    r"\ceil{S{},S{}}(\and{S{}}(Z:S{},f{}(Y:I{})))",
    r"\exists{S{}}(X:I{},\equals{I{},S{}}(X:I{},Y:I{}))",
    r"\not{S{}}(!)",
    r"\or{S{}}(!,=,!)",
    r"\implies{S{}}(!,!)",
    r"\iff{S{}}(!,=)",
    r"\exists{S{}}(X:I{},!)",
    r"\forall{S{}}(P:P{},\or{S{}}(!,=))",
    r"\and{S{}}(!,\floor{S{},S{}}(!),\ceil{S{},S{}}(=))",
    r#"\equals{B{},S{}}(?,\dv{B{}}("false"))"#,
];

/// A term of S.
static TERMS: Forms = [
    r"Z:S{}",
    r"f{}(X:I{})",
    r"g{}(Z:S{})",
    r"h{}(P:P{})",
    r"t{}(T:T{})",
    r"e{}(Q:E{})",
    r#"f{}(\dv{I{}}("2"))"#,
    r"h{}(b{}())",
    r"f{}(#)",
    r"g{}($)",
    r"pair{}(#,$)",
    r"e{}(%)",
    r"pair{}(#,Z:S{})",
    r"g{}(f{}(#))",
    r"f{}(#)",
    r"e{}(inj{I{},E{}}(#))",
];

/// A number.
static NUMBERS: Forms = [
    r"X:I{}",
    r"Y:I{}",
    r#"\dv{I{}}("0")"#,
    r#"\dv{I{}}("-1")"#,
    r#"sub{}(X:I{},\dv{I{}}("1"))"#,
    r#"add{}(Y:I{},\dv{I{}}("1"))"#,
    r#"add{}(\dv{I{}}("+1"),\dv{I{}}("02"))"#,
    r"add{}(X:I{},Y:I{})",
    r#"add{}(#,\dv{I{}}("1"))"#,
    r#"sub{}(#,\dv{I{}}("1"))"#,
    r"sub{}(#,#)",
    r"add{}(#,#)",
    r#"sub{}(add{}(#,\dv{I{}}("2")),\dv{I{}}("2"))"#,
    r#"add{}(\dv{I{}}("2"),#)"#,
    r#"sub{}(\dv{I{}}("2"),#)"#,
    r#"add{}(#,\dv{I{}}("0"))"#,
];

/// A term of E, over that of I and of T.
static OVER: Forms = [
    r"Q:E{}",
    r"nil{}()",
    r"inj{I{},E{}}(X:I{})",
    r"inj{T{},E{}}(T:T{})",
    r#"inj{I{},E{}}(\dv{I{}}("1"))"#,
    r#"inj{T{},E{}}(\dv{T{}}("5"))"#,
    r"inj{I{},E{}}(Y:I{})",
    r"Q:E{}",
    r"inj{I{},E{}}(#)",
    r"inj{I{},E{}}(#)",
    r"inj{I{},E{}}(#)",
    r"inj{I{},E{}}(#)",
    r"Q:E{}",
    r"nil{}()",
    r"inj{T{},E{}}(T:T{})",
    r#"inj{T{},E{}}(\dv{T{}}("4"))"#,
];

/// A truth value.
static TRUTHS: Forms = [
    r"B:B{}",
    r#"\dv{B{}}("true")"#,
    r"lt{}(X:I{},Y:I{})",
    r#"ge{}(Y:I{},\dv{I{}}("1"))"#,
    r"eq{}(X:I{},Y:I{})",
    r"no{}(B:B{})",
    r"same{}(Q:E{},inj{I{},E{}}(X:I{}))",
    r#"ne{}(X:I{},\dv{I{}}("2"))"#,
    r"lt{}(#,#)",
    r"ge{}(#,#)",
    r"eq{}(#,#)",
    r"ne{}(#,#)",
    r"no{}(?)",
    r"both{}(?,?)",
    r"either{}(?,?)",
    r"same{}(%,%)",
];

/// The number after this one, as linear congruences go (Knuth).
pub(crate) fn next(number: u64) -> u64 {
    number
        .wrapping_mul(6364136223846793005)
        .wrapping_add(1442695040888963407)
}

/// A form that a number draws, one without parts where it is the last level.
fn form(forms: &Forms, number: u64, is_last: bool) -> &'static str {
    if is_last {
        return forms[(number % 8) as usize];
    }
    forms[(number % 16) as usize]
}

/// A form of the kind that a byte stands for; none where it stands for itself.
fn form_of(kind: u8, number: u64, is_last: bool) -> Option<&'static str> {
    match kind {
        b'*' => Some(form(&STATES, number, is_last)),
        b'=' => Some(form(&EQUATIONS, number, is_last)),
        b'!' => Some(form(&PREDICATES, number, is_last)),
        b'$' => Some(form(&TERMS, number, is_last)),
        b'#' => Some(form(&NUMBERS, number, is_last)),
        b'%' => Some(form(&OVER, number, is_last)),
        b'?' => Some(form(&TRUTHS, number, is_last)),
        _ => None,
    }
}

/// Adds a byte, or what is drawn for it.
fn add(text: &mut Vec<u8>, kind: u8, number: u64, is_last: bool) -> Result<(), AllocError> {
    match form_of(kind, number, is_last) {
        Some(form) => text.extend_from_slice(form.as_bytes()),
        None => Ok(text.push(kind)?),
    }
}

/// The bytes, with what is drawn for those that stand for a part.
fn drawn_once(
    alloc: Global,
    bytes: &[u8],
    number: &mut u64,
    is_last: bool,
) -> Result<Vec<u8>, AllocError> {
    let mut text = Vec::new(alloc);
    for byte in bytes {
        *number = next(*number);
        add(&mut text, *byte, *number >> 40, is_last)?;
    }
    Ok(text)
}

/// The state that a number draws, of at most five levels of parts.
pub(crate) fn drawn(alloc: Global, seed: u64) -> Result<Vec<u8>, AllocError> {
    let mut number = seed;
    let mut text = drawn_once(alloc, b"*", &mut number, false)?;
    for _level in 0..3 {
        text = drawn_once(alloc, &text, &mut number, false)?;
    }
    drawn_once(alloc, &text, &mut number, true)
}
