// Whether each variable whose head is asked for may have a head that is as all clauses ask.
ghost use Rattle.std.specs.Prelude.{◌≡◌, ◌↔◌, IsTrue, List, map, string_bytes};
ghost use Rattle.std.specs.Option.{option_map};
ghost use Rattle.std.specs.Str.{bytes_eq};
ghost use Rattle.kp_signature.specs.View.{signature_view};
ghost use Rattle.kp_kore.specs.Signature.{KoreSignature};
ghost use Rattle.kp_symbolic.specs.Heads.{passes_head};
ghost use Rattle.kp_symbolic.specs.Plain as model;
ghost use Rattle.kp_heads.specs.Made.{IsHeadTableOf};
ghost use Rattle.kp_sort_heads.specs.Views.{head_view};
ghost use Rattle.kp_symbolic.specs.View.{variable_view};
ghost use Rattle.kp_literals.specs.Forms.{asked_view, form_view};
ghost use Rattle.kp_literals.specs.Readings.{read_view, clauses_view};
ghost use Rattle.kp_satisfiability.specs.Heads as spec;

use kp_heads::HeadTable;
use kp_literals::{AskedHeads, LiteralForm, ReadLiteral};
use kp_signature::Signature;
use kp_sort_heads::{SortHead, heads, is_head, is_named};
use kp_symbolic::Variable;

/// Whether the head passes the test.
fn passes(signature: &Signature, head: &SortHead, test: AskedHeads) -> bool
    ensures { result ≡ passes_head (signature_view signature.now) (asked_view test.entry) (head_view head.now) }
{
    match test {
        AskedHeads::Constructor { symbol } => is_named(head, symbol),
        AskedHeads::Sort { sort } => is_head(signature, sort, head),
    }
}

/// Whether two variables have one name.
fn is_same_name(variable: &Variable, other: &Variable) -> bool
    ensures { result ≡ bytes_eq (string_bytes variable.now.name) (string_bytes other.now.name) }
{
    variable.name.as_str() == other.name.as_str()
}

/// Whether the head is as the literal asks, where it asks for that of the variable.
fn agrees(
    signature: &Signature,
    head: &SortHead,
    variable: &Variable,
    form: Option<LiteralForm>,
) -> bool
    ensures { result ≡ spec.head_agrees (signature_view signature.now) (head_view head.now) (string_bytes variable.now.name) (option_map form_view form.entry) }
{
    match form {
        Some(
            LiteralForm::Asks {
                variable: asked,
                test,
                passes: holds,
            },
        ) => !is_same_name(asked, variable) || passes(signature, head, test) == holds,
        Some(
            LiteralForm::Compares { .. }
            | LiteralForm::Truth { .. }
            | LiteralForm::Equates { .. }
            | LiteralForm::Gives { .. },
        ) => true,
        None => true,
    }
}

/// Whether the head is as one of the literals asks.
fn agrees_with_one(
    signature: &Signature,
    head: &SortHead,
    variable: &Variable,
    clause: &[ReadLiteral],
) -> bool
    ensures { result ≡ spec.agrees_with_one (signature_view signature.now) (head_view head.now) (string_bytes variable.now.name) (map read_view clause.now) }
{
    for literal in clause {
        if agrees(signature, head, variable, literal.form) {
            return true;
        }
    }
    false
}

/// Whether the head is as all clauses ask.
fn agrees_with_all(
    signature: &Signature,
    head: &SortHead,
    variable: &Variable,
    clauses: &[Vec<ReadLiteral>],
) -> bool
    ensures { result ≡ spec.agrees_with_all (signature_view signature.now) (head_view head.now) (string_bytes variable.now.name) (clauses_view clauses.now) }
{
    for clause in clauses {
        if !agrees_with_one(signature, head, variable, clause) {
            return false;
        }
    }
    true
}

/// Whether some head that values have may be the variable's.
fn has_head(
    signature: &Signature,
    table: &HeadTable,
    variable: &Variable,
    clauses: &[Vec<ReadLiteral>],
) -> bool
    requires { IsHeadTableOf (signature_view signature.now) table.now }
    ensures { IsTrue result ↔ spec.HasHead (signature_view signature.now) (clauses_view clauses.now) (variable_view variable.now) }
{
    let mut left = heads(signature, &variable.sort);
    while let Some(head) = left.next_live(table) {
        if agrees_with_all(signature, &head, variable, clauses) {
            return true;
        }
    }
    false
}

/// Whether the literal asks for the variable's head.
fn asks_for(form: Option<LiteralForm>, variable: &Variable) -> bool
    ensures { let form' = option_map form_view form.entry in let variable' = variable_view variable.now in (g : KoreSignature) (cs : List (List model.ReadLiteral)) → spec.IsStanding g cs form' → IsTrue result → spec.HasHead g cs variable' }
{
    match form {
        Some(
            LiteralForm::Asks {
                variable: asked,
                ..
            },
        ) => asked.same(variable),
        Some(
            LiteralForm::Compares { .. }
            | LiteralForm::Truth { .. }
            | LiteralForm::Equates { .. }
            | LiteralForm::Gives { .. },
        ) => false,
        None => false,
    }
}

/// Whether a literal of the clause asks for the variable's head.
fn asks(clause: &[ReadLiteral], variable: &Variable) -> bool
    ensures { let clause' = map read_view clause.now in let variable' = variable_view variable.now in (g : KoreSignature) (cs : List (List model.ReadLiteral)) → spec.AllStand g cs clause' → IsTrue result → spec.HasHead g cs variable' }
{
    for literal in clause {
        if asks_for(literal.form, variable) {
            return true;
        }
    }
    false
}

/// Whether a literal of these clauses asks for the variable's head.
fn is_asked(clauses: &[Vec<ReadLiteral>], variable: &Variable) -> bool
    ensures { let clauses' = clauses_view clauses.now in let variable' = variable_view variable.now in (g : KoreSignature) (cs : List (List model.ReadLiteral)) → spec.StandIn g cs clauses' → IsTrue result → spec.HasHead g cs variable' }
{
    for clause in clauses {
        if asks(clause, variable) {
            return true;
        }
    }
    false
}

/// Whether some head may be the variable's, where that is so of those that the clauses before ask for: one of them has been gone
/// through.
fn may_have_head(
    signature: &Signature,
    table: &HeadTable,
    variable: &Variable,
    before: &[Vec<ReadLiteral>],
    clauses: &[Vec<ReadLiteral>],
) -> bool
    requires { IsHeadTableOf (signature_view signature.now) table.now }
    ensures { let g = signature_view signature.now in let cs = clauses_view clauses.now in spec.StandIn g cs (clauses_view before.now) → (IsTrue result ↔ spec.HasHead g cs (variable_view variable.now)) }
{
    is_asked(before, variable) || has_head(signature, table, variable, clauses)
}

/// Whether some head may be the variable's, where the literal asks for one, and that is so of those that the clauses before ask for.
fn is_standing(
    signature: &Signature,
    table: &HeadTable,
    form: Option<LiteralForm>,
    before: &[Vec<ReadLiteral>],
    clauses: &[Vec<ReadLiteral>],
) -> bool
    requires { IsHeadTableOf (signature_view signature.now) table.now }
    ensures { let g = signature_view signature.now in let cs = clauses_view clauses.now in spec.StandIn g cs (clauses_view before.now) → (IsTrue result ↔ spec.IsStanding g cs (option_map form_view form.entry)) }
{
    match form {
        Some(LiteralForm::Asks { variable, .. }) => {
            may_have_head(signature, table, variable, before, clauses)
        }
        Some(
            LiteralForm::Compares { .. }
            | LiteralForm::Truth { .. }
            | LiteralForm::Equates { .. }
            | LiteralForm::Gives { .. },
        ) => true,
        None => true,
    }
}

/// Whether some head may be that of each variable that the literals ask for, where that is so of the clauses before.
fn are_standing(
    signature: &Signature,
    table: &HeadTable,
    clause: &[ReadLiteral],
    before: &[Vec<ReadLiteral>],
    clauses: &[Vec<ReadLiteral>],
) -> bool
    requires { IsHeadTableOf (signature_view signature.now) table.now }
    ensures { let g = signature_view signature.now in let cs = clauses_view clauses.now in spec.StandIn g cs (clauses_view before.now) → (IsTrue result ↔ spec.AllStand g cs (map read_view clause.now)) }
{
    for literal in clause {
        if !is_standing(signature, table, literal.form, before, clauses) {
            return false;
        }
    }
    true
}

/// Whether some head may be that of each variable whose head is asked for.
pub fn heads_stand(signature: &Signature, table: &HeadTable, clauses: &[Vec<ReadLiteral>]) -> bool
    requires { IsHeadTableOf (signature_view signature.now) table.now }
    ensures { IsTrue result ↔ spec.AreStanding (signature_view signature.now) (clauses_view clauses.now) }
{
    for i in 0..clauses.len() {
        let before = &clauses[..i];
        if !are_standing(signature, table, &clauses[i], before, clauses) {
            return false;
        }
    }
    true
}
