use crate::opened_states::open;
use kp_heads::HeadTable;
use kp_kore::Pattern;
use kp_limits::{Weighed, WeightKind};
use kp_satisfiability::{Verdict, decide};
use kp_symbolic::{Atom, Clause, Language, Literal, State, term_under};
use kp_text::read_pattern;
use std::alloc::{AllocError, Global};
use std::sync::Arc;

/// Numbers, truth values, tokens of T and of U, both below K, constructors of S, and E without values.
pub(crate) const SMALL: &str = r#"module SMALL
  hooked-sort I{} [hook{}("INT.Int")]
  hooked-sort B{} [hook{}("BOOL.Bool")]
  sort T{} [hasDomainValues{}()]
  sort U{} [hasDomainValues{}()]
  sort K{} []
  sort S{} []
  sort E{} []
  symbol f{}(I{}) : S{} [constructor{}()]
  symbol g{}(S{}) : S{} [constructor{}()]
  symbol c{}() : S{} [constructor{}()]
  symbol d{}() : S{} [constructor{}()]
  symbol e{}(E{}) : S{} [constructor{}()]
  symbol loop{}(E{}) : E{} [constructor{}()]
  hooked-symbol add{}(I{}, I{}) : I{} [hook{}("INT.add")]
  hooked-symbol sub{}(I{}, I{}) : I{} [hook{}("INT.sub")]
  hooked-symbol mul{}(I{}, I{}) : I{} [hook{}("INT.mul")]
  hooked-symbol lt{}(I{}, I{}) : B{} [hook{}("INT.lt")]
  hooked-symbol le{}(I{}, I{}) : B{} [hook{}("INT.le")]
  hooked-symbol gt{}(I{}, I{}) : B{} [hook{}("INT.gt")]
  hooked-symbol ge{}(I{}, I{}) : B{} [hook{}("INT.ge")]
  hooked-symbol eq{}(I{}, I{}) : B{} [hook{}("INT.eq")]
  hooked-symbol ne{}(I{}, I{}) : B{} [hook{}("INT.ne")]
  hooked-symbol same{}(K{}, K{}) : B{} [hook{}("KEQUAL.eq")]
  hooked-symbol differ{}(K{}, K{}) : B{} [hook{}("KEQUAL.ne")]
  hooked-symbol alike{}(S{}, S{}) : B{} [hook{}("KEQUAL.eq")]
  hooked-symbol unlike{}(S{}, S{}) : B{} [hook{}("KEQUAL.ne")]
  axiom{R} \top{R}() [subsort{T{}, K{}}()]
  axiom{R} \top{R}() [subsort{U{}, K{}}()]
endmodule []
"#;

/// The literals, each behind its letter. Those from A to P are over X and Y from 0 to 2, and P; those from Q on over N.
const LITERALS: &str = r##"a \equals{B{},S{}}(lt{}(X:I{}, Y:I{}), \dv{B{}}("true"))
b \equals{B{},S{}}(lt{}(Y:I{}, X:I{}), \dv{B{}}("true"))
c \equals{I{},S{}}(X:I{}, Y:I{})
d \not{S{}}(\equals{I{},S{}}(X:I{}, Y:I{}))
e \equals{B{},S{}}(gt{}(X:I{}, \dv{I{}}("3")), \dv{B{}}("true"))
f \equals{B{},S{}}(lt{}(X:I{}, \dv{I{}}("5")), \dv{B{}}("true"))
g \not{S{}}(\equals{I{},S{}}(X:I{}, \dv{I{}}("4")))
h \equals{B{},S{}}(P:B{}, \dv{B{}}("true"))
i \not{S{}}(\equals{B{},S{}}(P:B{}, \dv{B{}}("true")))
j \equals{B{},S{}}(eq{}(mul{}(X:I{}, X:I{}), \dv{I{}}("5")), \dv{B{}}("true"))
k \equals{K{},S{}}(X:T{}, Y:U{})
l \not{S{}}(\equals{K{},S{}}(X:T{}, Y:U{}))
m \equals{T{},S{}}(X:T{}, \dv{T{}}("a"))
n \equals{T{},S{}}(X:T{}, \dv{T{}}("b"))
o \equals{T{},S{}}(Y:T{}, X:T{})
p \not{S{}}(\equals{T{},S{}}(Y:T{}, \dv{T{}}("a")))
q \not{S{}}(\equals{S{},S{}}(M:S{}, c{}()))
r \not{S{}}(\equals{S{},S{}}(M:S{}, d{}()))
s \equals{S{},S{}}(M:S{}, f{}(X:I{}))
t \equals{S{},S{}}(N:S{}, f{}(X:I{}))
u \equals{B{},S{}}(le{}(X:I{}, \dv{I{}}("85070591730234615865843651857942052864")), \dv{B{}}("true"))
v \equals{B{},S{}}(ge{}(X:I{}, \dv{I{}}("0")), \dv{B{}}("true"))
w \equals{B{},S{}}(le{}(X:I{}, \dv{I{}}("2")), \dv{B{}}("true"))
x \equals{B{},S{}}(ge{}(Y:I{}, \dv{I{}}("0")), \dv{B{}}("true"))
y \equals{B{},S{}}(le{}(Y:I{}, \dv{I{}}("2")), \dv{B{}}("true"))
z \not{S{}}(\equals{B{},S{}}(P:B{}, \dv{B{}}("false")))
A \equals{B{},S{}}(lt{}(X:I{}, Y:I{}), \dv{B{}}("true"))
B \not{S{}}(\equals{B{},S{}}(lt{}(X:I{}, Y:I{}), \dv{B{}}("true")))
C \equals{B{},S{}}(le{}(Y:I{}, X:I{}), \dv{B{}}("false"))
D \equals{B{},S{}}(gt{}(X:I{}, \dv{I{}}("1")), \dv{B{}}("true"))
E \not{S{}}(\equals{B{},S{}}(gt{}(X:I{}, \dv{I{}}("1")), \dv{B{}}("true")))
F \equals{B{},S{}}(gt{}(Y:I{}, \dv{I{}}("0")), \dv{B{}}("true"))
G \equals{B{},S{}}(ge{}(Y:I{}, \dv{I{}}("2")), \dv{B{}}("true"))
H \equals{I{},S{}}(X:I{}, Y:I{})
I \not{S{}}(\equals{I{},S{}}(X:I{}, Y:I{}))
J \equals{I{},S{}}(X:I{}, \dv{I{}}("1"))
K \not{S{}}(\equals{I{},S{}}(X:I{}, \dv{I{}}("1")))
L \equals{I{},S{}}(add{}(X:I{}, \dv{I{}}("1")), Y:I{})
M \not{S{}}(\equals{B{},S{}}(ne{}(Y:I{}, \dv{I{}}("0")), \dv{B{}}("true")))
N \equals{B{},S{}}(le{}(add{}(Y:I{}, \dv{I{}}("1")), X:I{}), \dv{B{}}("true"))
O \equals{B{},S{}}(P:B{}, \dv{B{}}("true"))
P \not{S{}}(\equals{B{},S{}}(P:B{}, \dv{B{}}("true")))
Q \equals{S{},S{}}(N:S{}, c{}())
R \equals{B{},S{}}(alike{}(N:S{}, c{}()), \dv{B{}}("true"))
S \equals{B{},S{}}(\dv{B{}}("false"), unlike{}(c{}(), N:S{}))
T \not{S{}}(\equals{B{},S{}}(alike{}(N:S{}, c{}()), \dv{B{}}("true")))
U \equals{S{},S{}}(d{}(), N:S{})"##;

/// The literal of a letter, as it is written.
fn predicate_of(letter: u8) -> &'static str {
    for row in LITERALS.lines() {
        if let Some((name, predicate)) = row.split_once(" ") {
            if name.bytes().next() == Some(letter) {
                return predicate;
            }
        }
    }
    ""
}

/// Adds the literal of an equality.
fn add_equality(
    alloc: Global,
    language: &Language,
    holds: bool,
    equality: &Pattern,
    literals: &mut Vec<Literal>,
) -> Result<(), AllocError> {
    let Pattern::Equals {
        argument_sort,
        left,
        right,
        ..
    } = equality
    else {
        return Err(AllocError);
    };
    let Ok(left) = term_under(left, alloc, language, &[]) else {
        return Err(AllocError);
    };
    let Ok(right) = term_under(right, alloc, language, &[]) else {
        return Err(AllocError);
    };
    let sort = Arc::new(alloc, argument_sort.copy(alloc)?)?;
    let atom = Atom::Same { sort, left, right };
    literals.push(Literal { holds, atom })?;
    Ok(())
}

/// Adds the literal of a letter.
fn add_letter(
    alloc: Global,
    language: &Language,
    letter: u8,
    literals: &mut Vec<Literal>,
) -> Result<(), AllocError> {
    let Ok(predicate) = read_pattern(alloc, predicate_of(letter).as_bytes()) else {
        return Err(AllocError);
    };
    if let Pattern::Not { pattern, .. } = &predicate {
        return add_equality(alloc, language, false, pattern, literals);
    }
    add_equality(alloc, language, true, &predicate, literals)
}

/// Adds a clause of letters; `-` is no literal.
fn add_clause(
    alloc: Global,
    language: &Language,
    letters: &str,
    clauses: &mut Vec<Clause>,
) -> Result<(), AllocError> {
    let mut literals = Vec::new(alloc);
    for letter in letters.bytes() {
        if letter != 45 {
            add_letter(alloc, language, letter, &mut literals)?;
        }
    }
    let literals = Arc::new(alloc, literals)?;
    clauses.push(Clause { literals })?;
    Ok(())
}

/// Adds the clauses of `"ab;c"`: one of a and b, and one of c. No letters are no clauses.
fn add_clauses(
    alloc: Global,
    language: &Language,
    text: &str,
    clauses: &mut Vec<Clause>,
) -> Result<(), AllocError> {
    if text.is_empty() {
        return Ok(());
    }
    for letters in text.split(';') {
        add_clause(alloc, language, letters, clauses)?;
    }
    Ok(())
}

/// The weight that is passed, by its kind.
fn kind(over: &Weighed) -> &'static str {
    match over.weight {
        WeightKind::Bits => "bits",
        WeightKind::Literals => "literals",
        WeightKind::Product => "product",
    }
}

/// Adds the answer in a word, a weight that is passed by its kind and number.
fn add_verdict(alloc: Global, verdict: &Verdict, told: &mut String) -> Result<(), AllocError> {
    match verdict {
        Verdict::SomeValuation => told.push_str("some"),
        Verdict::NoValuation => told.push_str("none"),
        Verdict::Undecided { over: None, .. } => told.push_str("open"),
        Verdict::Undecided {
            over: Some(over),
            ..
        } => {
            let weight = format!(in alloc; "{} {}", kind(over), over.number)?;
            told.push_str(weight.as_str())
        }
    }
}

/// Adds what is decided of a state with these clauses.
fn clauses_told(
    alloc: Global,
    language: &Language,
    clauses: &str,
    state: &mut State,
    told: &mut String,
) -> Result<(), AllocError> {
    add_clauses(alloc, language, clauses, &mut state.clauses)?;
    let table = HeadTable::new(alloc, language.signature)?;
    let verdict = decide(alloc, language.signature, &table, state)?;
    add_verdict(alloc, &verdict, told)
}

/// Adds what is decided of a text's state with clauses of letters.
pub(crate) fn decided_told(
    alloc: Global,
    language: &Language,
    clauses: &str,
    state: &str,
    told: &mut String,
) -> Result<(), AllocError> {
    let Ok(pattern) = read_pattern(alloc, state.as_bytes()) else {
        return told.push_str("no pattern");
    };
    match open(alloc, language, &pattern) {
        Ok(mut state) => clauses_told(alloc, language, clauses, &mut state, told),
        Err(_) => told.push_str("no state"),
    }
}
