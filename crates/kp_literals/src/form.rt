// What literals say: comparisons of whole numbers, Boolean variables, equality of tokens.
ghost use Rattle.std.specs.Prelude.{◌≡◌, true, [], ◌∷◌, ◌++◌, map, IfSome};
ghost use Rattle.std.specs.Option.{option_map};
ghost use Rattle.kp_kore.specs.Signature.{KoreSignature};
ghost use Rattle.kp_signature.specs.Meanings.{meaning_view};
ghost use Rattle.kp_kore.specs.HookView.{comparison_view};
ghost use Rattle.kp_ground.specs.View.{value_view};
ghost use Rattle.kp_signature.specs.View.{signature_view};
ghost use Rattle.kp_symbolic.specs.Plain as model;
ghost use Rattle.kp_symbolic.specs.States.{atom_variables};
ghost use Rattle.kp_symbolic.specs.Terms.{unknown, headed, term_variables, all_term_variables};
ghost use Rattle.kp_symbolic.specs.View.{variable_view, term_view, terms_of, literal_view};
ghost use Rattle.kp_literals.specs.Forms.{whole_part_view, token_part_view, form_view, number_said, token_said, truth_known};
ghost use Rattle.kp_literals.specs.Unknowns.{side_variables, token_variables, unknowns_of, AreNumbers, IsTokenPart, IsOfKind, IsSaidOfKind, IsSaidOf};

use crate::value_kinds::{has_only_numbers, has_only_tokens, has_only_truths};
use kp_ground::Value;
use kp_kore::{Comparison, Hook, Sort};
use kp_signature::{Function, Meaning, Signature, meaning_of};
use kp_symbolic::{Atom, Literal, Term, Variable};

/// A side of a comparison: a whole-number variable or none, and a constant.
#[derive(Clone, Copy)]
pub struct WholePart<'a> {
    pub variable: Option<&'a Variable>,
    pub constant: i128,
}

/// A side of an equality of tokens.
#[derive(Clone, Copy)]
pub enum TokenPart<'a> {
    Unknown { variable: &'a Variable },
    Known { value: &'a Value },
}

/// What a literal says. `form_view` in specs/Forms.antt says which form of kp_symbolic it is.
#[derive(Clone, Copy)]
pub enum LiteralForm<'a> {
    Compares {
        comparison: Comparison,
        first: WholePart<'a>,
        second: WholePart<'a>,
    },
    /// A Boolean variable is true, or false.
    Truth {
        variable: &'a Variable,
        value: bool,
    },
    /// Two tokens are equal, or differ.
    Equates {
        holds: bool,
        first: TokenPart<'a>,
        second: TokenPart<'a>,
    },
    /// The head of a variable passes a test, or doesn't.
    Asks {
        variable: &'a Variable,
        test: AskedHeads<'a>,
        passes: bool,
    },
    /// The equation of a variable that stands in no other clause.
    Gives {
        variable: &'a Variable,
        term: &'a Term,
    },
}

/// Which heads are asked for: a constructor's own, or any of a sort's.
#[derive(Clone, Copy)]
pub enum AskedHeads<'a> {
    Constructor { symbol: &'a str },
    Sort { sort: &'a Sort },
}

/// The comparison that holds where this one doesn't.
fn opposite(comparison: Comparison) -> Comparison
    ensures { comparison_view result ≡ model.opposite (comparison_view comparison) }
{
    match comparison {
        Comparison::Equal => Comparison::Different,
        Comparison::Different => Comparison::Equal,
        Comparison::Less => Comparison::AtLeast,
        Comparison::AtLeast => Comparison::Less,
        Comparison::AtMost => Comparison::Greater,
        Comparison::Greater => Comparison::AtMost,
    }
}

/// The comparison, or its opposite.
fn comparison_if(holds: bool, comparison: Comparison) -> Comparison
    ensures { comparison_view result ≡ model.comparison_if holds (comparison_view comparison) }
{
    if holds {
        comparison
    } else {
        opposite(comparison)
    }
}

/// The variable and a constant, where it is of whole numbers alone.
fn variable_part<'a>(
    signature: &Signature,
    variable: &'a Variable,
    constant: i128,
) -> Option<WholePart<'a>>
    ensures view { option_map whole_part_view result ≡ model.whole_part_of (signature_view signature.now) (variable_view variable.now) constant }
    ensures kinds { IfSome result (λ m. AreNumbers (signature_view signature.now) (side_variables m)) }
    ensures unknowns { IfSome result (λ m. side_variables m ≡ variable_view variable.now ∷ []) }
{
    if has_only_numbers(signature, &variable.sort) {
        Some(WholePart {
            variable: Some(variable),
            constant,
        })
    } else {
        None
    }
}

/// The number that a value is, as a side.
fn number_part<'a>(value: &Value) -> Option<WholePart<'a>>
    ensures view { option_map whole_part_view result ≡ number_said (value_view value.now) }
    ensures kinds { (g : KoreSignature) → IfSome result (λ m. AreNumbers g (side_variables m)) }
    ensures unknowns { IfSome result (λ m. side_variables m ≡ []) }
{
    match value {
        Value::Whole { number } => Some(WholePart {
            variable: None,
            constant: *number,
        }),
        Value::Truth { .. } | Value::Token { .. } | Value::Constructed { .. } => None,
    }
}

/// A whole-number variable, such a variable and a constant, or a number.
fn whole_part<'a>(signature: &Signature, term: &'a Term) -> Option<WholePart<'a>>
    ensures view { option_map whole_part_view result ≡ model.whole_part (signature_view signature.now) (term_view term.now) }
    ensures kinds { IfSome result (λ m. AreNumbers (signature_view signature.now) (side_variables m)) }
    ensures unknowns { IfSome result (λ m. side_variables m ≡ term_variables (term_view term.now)) }
{
    match term {
        Term::Unknown { variable } => variable_part(signature, variable, 0),
        Term::Offset { variable, constant } => { variable_part(signature, variable, *constant) }
        Term::Known { value } => number_part(value),
        Term::Headed { .. } => None,
    }
}

/// The variable, where it is of tokens alone.
fn token_variable<'a>(signature: &Signature, variable: &'a Variable) -> Option<TokenPart<'a>>
    ensures view { option_map token_part_view result ≡ model.token_part (signature_view signature.now) (unknown (variable_view variable.now)) }
    ensures kinds { IfSome result (IsTokenPart (signature_view signature.now)) }
    ensures unknowns { IfSome result (λ p. token_variables p ≡ variable_view variable.now ∷ []) }
{
    if has_only_tokens(signature, &variable.sort) {
        Some(TokenPart::Unknown { variable })
    } else {
        None
    }
}

/// The token that a value is, as a side.
fn known_token<'a>(value: &'a Value) -> Option<TokenPart<'a>>
    ensures view { option_map token_part_view result ≡ token_said (value_view value.now) }
    ensures kinds { (g : KoreSignature) → IfSome result (IsTokenPart g) }
    ensures unknowns { IfSome result (λ p. token_variables p ≡ []) }
{
    match value {
        Value::Token { .. } => Some(TokenPart::Known { value }),
        Value::Whole { .. } | Value::Truth { .. } | Value::Constructed { .. } => None,
    }
}

/// A variable of tokens, or a token.
fn token_part<'a>(signature: &Signature, term: &'a Term) -> Option<TokenPart<'a>>
    ensures view { option_map token_part_view result ≡ model.token_part (signature_view signature.now) (term_view term.now) }
    ensures kinds { IfSome result (IsTokenPart (signature_view signature.now)) }
    ensures unknowns { IfSome result (λ p. token_variables p ≡ term_variables (term_view term.now)) }
{
    match term {
        Term::Unknown { variable } => token_variable(signature, variable),
        Term::Known { value } => known_token(value),
        Term::Offset { .. } | Term::Headed { .. } => None,
    }
}

/// The comparison of two sides, or its opposite.
fn comparing<'a>(
    holds: bool,
    comparison: Comparison,
    first: WholePart<'a>,
    second: WholePart<'a>,
) -> LiteralForm<'a>
    ensures view { form_view result ≡ model.compares (model.comparison_if holds (comparison_view comparison)) (whole_part_view first.entry) (whole_part_view second.entry) }
    ensures kinds { (g : KoreSignature) → AreNumbers g (side_variables first.entry) → AreNumbers g (side_variables second.entry) → IsOfKind g result }
    ensures unknowns { unknowns_of result ≡ side_variables first.entry ++ side_variables second.entry }
{
    LiteralForm::Compares {
        comparison: comparison_if(holds, comparison),
        first,
        second,
    }
}

/// The comparison of two terms, or its opposite, where both are sides.
fn compared<'a>(
    signature: &Signature,
    holds: bool,
    comparison: Comparison,
    left: &'a Term,
    right: &'a Term,
) -> Option<LiteralForm<'a>>
    ensures view { let g = signature_view signature.now in option_map form_view result ≡ model.comparing holds (comparison_view comparison) (model.whole_part g (term_view left.now)) (model.whole_part g (term_view right.now)) }
    ensures kinds { IsSaidOfKind (signature_view signature.now) result }
    ensures unknowns { IsSaidOf (term_variables (term_view left.now) ++ term_variables (term_view right.now)) result }
{
    let Some(first) = whole_part(signature, left) else {
        return None;
    };
    let Some(second) = whole_part(signature, right) else {
        return None;
    };
    Some(comparing(holds, comparison, first, second))
}

/// The equality of two tokens, or its opposite, where both terms are such.
fn equated<'a>(
    signature: &Signature,
    holds: bool,
    left: &'a Term,
    right: &'a Term,
) -> Option<LiteralForm<'a>>
    ensures view { let g = signature_view signature.now in option_map form_view result ≡ model.equating holds (model.token_part g (term_view left.now)) (model.token_part g (term_view right.now)) }
    ensures kinds { IsSaidOfKind (signature_view signature.now) result }
    ensures unknowns { IsSaidOf (term_variables (term_view left.now) ++ term_variables (term_view right.now)) result }
{
    let Some(first) = token_part(signature, left) else {
        return None;
    };
    let Some(second) = token_part(signature, right) else {
        return None;
    };
    Some(LiteralForm::Equates {
        holds,
        first,
        second,
    })
}

/// The equality of two terms, or its opposite.
fn equality_form<'a>(
    signature: &Signature,
    holds: bool,
    left: &'a Term,
    right: &'a Term,
) -> Option<LiteralForm<'a>>
    ensures view { option_map form_view result ≡ model.equality_form (signature_view signature.now) holds (term_view left.now) (term_view right.now) }
    ensures kinds { IsSaidOfKind (signature_view signature.now) result }
    ensures unknowns { IsSaidOf (term_variables (term_view left.now) ++ term_variables (term_view right.now)) result }
{
    match compared(signature, holds, Comparison::Equal, left, right) {
        Some(form) => Some(form),
        None => equated(signature, holds, left, right),
    }
}

/// A call of two terms that is true, or false.
fn call_form<'a>(
    signature: &Signature,
    holds: bool,
    meaning: Meaning,
    left: &'a Term,
    right: &'a Term,
) -> Option<LiteralForm<'a>>
    ensures view { option_map form_view result ≡ model.call_form (signature_view signature.now) holds (meaning_view meaning) (term_view left.now) (term_view right.now) }
    ensures kinds { IsSaidOfKind (signature_view signature.now) result }
    ensures unknowns { IsSaidOf (term_variables (term_view left.now) ++ term_variables (term_view right.now)) result }
{
    match meaning {
        Meaning::Interpreted(Function::Two(Hook::Comparison(comparison))) => {
            compared(signature, holds, comparison, left, right)
        }
        Meaning::Interpreted(Function::Two(Hook::Equal)) => {
            equality_form(signature, holds, left, right)
        }
        Meaning::Interpreted(Function::Two(Hook::Different)) => {
            equality_form(signature, !holds, left, right)
        }
        Meaning::Interpreted(Function::Two(Hook::Arithmetic(_) | Hook::Connective(_)))
        | Meaning::Interpreted(Function::Negation)
        | Meaning::Injection
        | Meaning::Constructor
        | Meaning::Foreign => None,
    }
}

/// A Boolean variable that is true, or false.
fn variable_truth<'a>(
    signature: &Signature,
    holds: bool,
    variable: &'a Variable,
) -> Option<LiteralForm<'a>>
    ensures view { option_map form_view result ≡ model.truth_form (signature_view signature.now) holds (unknown (variable_view variable.now)) }
    ensures kinds { IsSaidOfKind (signature_view signature.now) result }
    ensures unknowns { IsSaidOf (variable_view variable.now ∷ []) result }
{
    if has_only_truths(signature, &variable.sort) {
        Some(LiteralForm::Truth {
            variable,
            value: holds,
        })
    } else {
        None
    }
}

/// A symbol's call that is true, or false.
fn headed_form<'a>(
    signature: &Signature,
    holds: bool,
    symbol: &str,
    arguments: &'a [Term],
) -> Option<LiteralForm<'a>>
    ensures view { option_map form_view result ≡ model.truth_form (signature_view signature.now) holds (headed symbol.now (terms_of (map term_view arguments.now))) }
    ensures kinds { IsSaidOfKind (signature_view signature.now) result }
    ensures unknowns { IsSaidOf (all_term_variables (terms_of (map term_view arguments.now))) result }
{
    match arguments {
        [left, right] => {
            let meaning = meaning_of(signature, symbol);
            call_form(signature, holds, meaning, left, right)
        }
        _ => None,
    }
}

/// A Boolean expression that is true, or false.
fn truth_form<'a>(signature: &Signature, holds: bool, term: &'a Term) -> Option<LiteralForm<'a>>
    ensures view { option_map form_view result ≡ model.truth_form (signature_view signature.now) holds (term_view term.now) }
    ensures kinds { IsSaidOfKind (signature_view signature.now) result }
    ensures unknowns { IsSaidOf (term_variables (term_view term.now)) result }
{
    match term {
        Term::Unknown { variable } => variable_truth(signature, holds, variable),
        Term::Headed { symbol, arguments } => { headed_form(signature, holds, symbol, arguments) }
        Term::Offset { .. } | Term::Known { .. } => None,
    }
}

/// The truth value that a term is, if it is one.
pub fn truth_of(term: &Term) -> Option<bool>
    ensures { result ≡ truth_known (term_view term.now) }
{
    match term {
        Term::Known {
            value: Value::Truth { holds },
        } => Some(*holds),
        _ => None,
    }
}

/// Equality of two terms at the truth sort, or its opposite: read where one of them is a truth value.
fn truth_equality<'a>(
    signature: &Signature,
    holds: bool,
    left: &'a Term,
    right: &'a Term,
) -> Option<LiteralForm<'a>>
    ensures view { option_map form_view result ≡ model.same_form (signature_view signature.now) true holds (term_view left.now) (term_view right.now) }
    ensures kinds { IsSaidOfKind (signature_view signature.now) result }
    ensures unknowns { IsSaidOf (term_variables (term_view left.now) ++ term_variables (term_view right.now)) result }
{
    if let Some(value) = truth_of(right) {
        return truth_form(signature, holds == value, left);
    }
    if let Some(value) = truth_of(left) {
        return truth_form(signature, holds == value, right);
    }
    None
}

/// What a literal says in any clause, where it says what is decided.
pub fn form_of<'a>(signature: &Signature, literal: &'a Literal) -> Option<LiteralForm<'a>>
    ensures view { option_map form_view result ≡ model.form_of (signature_view signature.now) (literal_view literal.now) }
    ensures kinds { IsSaidOfKind (signature_view signature.now) result }
    ensures unknowns { IsSaidOf (atom_variables (literal_view literal.now).atom) result }
{
    match &literal.atom {
        Atom::Same { sort, left, right } => {
            if signature.is_truth_sort(sort) {
                truth_equality(signature, literal.holds, left, right)
            } else {
                equality_form(signature, literal.holds, left, right)
            }
        }
        Atom::Head { .. } | Atom::Quoted { .. } => None,
    }
}
