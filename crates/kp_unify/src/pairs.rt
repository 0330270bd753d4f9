// One pair of a form and a term.
ghost use Rattle.std.specs.Prelude.{◌≡◌, ◌↔◌, ◌&&◌, IsTrue, IfOk, MatchOption, map};
ghost use Rattle.std.specs.Option.{option_map};
ghost use Rattle.std.specs.Str.{bytes_eq};
ghost use Rattle.kp_ground.specs.View.{value_view};
ghost use Rattle.kp_kore.specs.Signature.{meaning_of as named};
ghost use Rattle.kp_kore.specs.View.{sort_view};
ghost use Rattle.kp_signature.specs.View.{signature_view};
ghost use Rattle.kp_symbolic.specs.Heads.{is_construction};
ghost use Rattle.kp_symbolic.specs.Terms.{known, replacement_for};
ghost use Rattle.kp_symbolic.specs.View.{term_view, replaced_view};
ghost use Rattle.kp_unify.specs.Replaced.{equality_of};
ghost use Rattle.kp_unify.specs.Views.{equality_view, signature_of, HasItsTable};
ghost use Rattle.kp_unify.specs.Promises.{built_of, HasOtherHead, HasValueBuiltBy};

use crate::course::{Course, Equality, Pair, add_members};
use crate::head_sorts::{is_constructor, is_own_literal, makes};
use crate::left_parts::{Ask, Members, ask_of};
use crate::part::Setting;
use kp_compile::{CompileError, own_sort};
use kp_ground::Value;
use kp_kore::Sort;
use kp_signature::Signature;
use kp_symbolic::replaced::replacement_of;
use kp_symbolic::{Replaced, Term, Variable};
use std::alloc::{AllocError, Global};
use std::sync::Arc;

/// A value as a term.
fn make_known(alloc: Global, value: &Value) -> Result<Term, AllocError>
    ensures { IfOk result (λ t. term_view t ≡ known (value_view value.now)) }
{
    Ok(Term::Known {
        value: value.share(alloc)?,
    })
}

/// Values as terms.
fn known_terms(alloc: Global, values: &[Value]) -> Result<Vec<Term>, AllocError>
    ensures { IfOk result (λ ts. map term_view ts.items ≡ map (λ u. known (value_view u)) values.now) }
{
    let mut terms = Vec::new(alloc);
    for value in values {
        terms.push(make_known(alloc, value)?)?;
    }
    Ok(terms)
}

/// Whether both are one name.
fn are_same(name: &str, other: &str) -> bool
    ensures { result ≡ bytes_eq name.now other.now }
{
    name == other
}

/// The arguments of the value, where the constructor has this name.
fn arguments_named<'a>(
    constructor: &str,
    arguments: &'a [Value],
    symbol: &str,
) -> Option<&'a [Value]>
    ensures { let u = built_of constructor.now arguments.now in MatchOption result (HasOtherHead u symbol.now) (λ us. u ≡ built_of symbol.now us.now) }
{
    if are_same(constructor, symbol) {
        return Some(arguments);
    }
    None
}

/// The arguments of a value, where it is built by the constructor of this name.
fn arguments_if<'a>(value: &'a Value, symbol: &str) -> Option<&'a [Value]>
    ensures { let u = value_view value.now in MatchOption result (HasOtherHead u symbol.now) (λ us. u ≡ built_of symbol.now us.now) }
{
    match value {
        Value::Constructed {
            constructor,
            arguments,
        } => arguments_named(constructor, arguments, symbol),
        Value::Whole { .. } => None,
        Value::Truth { .. } => None,
        Value::Token { .. } => None,
    }
}

/// Whether the second name is that of a constructor, and the first.
fn is_same(signature: &Signature, symbol: &str, head: &str) -> bool
    ensures { result ≡ (bytes_eq symbol.now head.now && is_construction (named (signature_view signature.now) head.now)) }
{
    are_same(symbol, head) && is_constructor(signature, head)
}

impl<'a> Course<'a> {
    ghost use Rattle.std.specs.Prelude.{◌≡◌, Some, None, IfOk, OnOk, string_bytes};
    ghost use Rattle.kp_kore.specs.Syntax.{KoreSort};
    ghost use Rattle.kp_kore.specs.View.{sort_view};
    ghost use Rattle.kp_ground.specs.View.{value_view};
    ghost use Rattle.kp_compile.specs.Spelled as spelled;
    ghost use Rattle.kp_rules.specs.Skeletons.{any_of, one_of, fixed};
    ghost use Rattle.kp_symbolic.specs.Terms.{unknown, known};
    ghost use Rattle.kp_symbolic.specs.View.{variable_view, term_view};
    ghost use Rattle.kp_unify.specs.Forms.{members_view};
    ghost use Rattle.kp_unify.specs.Literals.{IsLiteral};
    ghost use Rattle.kp_unify.specs.Replaced.{equality_of, pair_of};
    ghost use Rattle.kp_unify.specs.Views.{signature_of, pair_view, stage_view, HasItsTable};
    ghost use Rattle.kp_unify.specs.Way.{bound_stage, equal_stage};
    ghost use Rattle.kp_unify.specs.Promises.{MeetsPair, MeetsConstructor, MeetsValue, AddsMembers, IsBoundOn};

    /// One pair: whether the part may be met on.
    pub fn meet_pair(
        &mut self,
        alloc: Global,
        setting: &Setting<'_>,
        pair: &Pair<'a>,
    ) -> Result<bool, CompileError>
        requires heads { HasItsTable setting.now }
        ensures { MeetsPair setting.now self.old (pair_view pair.now) result self.new }
    {
        match ask_of(pair.form) {
            Ask::Anything => Ok(true),
            Ask::Nothing => Ok(false),
            Ask::Any { sort } => self.meet_any(alloc, setting, sort, &pair.term),
            Ask::Variable { name, sort } => {
                self.meet_variable(alloc, setting, name, sort, &pair.term)
            }
            Ask::Literal { value } => self.meet_literal(alloc, setting, value, &pair.term),
            Ask::Constructor { symbol, members } => {
                self.meet_constructor(alloc, setting, symbol, members, &pair.term)
            }
        }
    }

    /// Any value of the sort.
    fn meet_any(
        &mut self,
        alloc: Global,
        setting: &Setting<'_>,
        sort: &Sort,
        term: &Term,
    ) -> Result<bool, CompileError>
        requires heads { HasItsTable setting.now }
        ensures { MeetsPair setting.now self.old (pair_of (any_of (sort_view sort.now)) (term_view term.now)) result self.new }
    {
        let placed = self.placed(alloc, setting, term, sort)?;
        Ok(placed.is_some())
    }

    /// A variable of the rule against a term of its sort.
    fn meet_variable(
        &mut self,
        alloc: Global,
        setting: &Setting<'_>,
        name: &Arc<String>,
        sort: &Sort,
        term: &Term,
    ) -> Result<bool, CompileError>
        requires heads { HasItsTable setting.now }
        ensures { MeetsPair setting.now self.old (pair_of (one_of (string_bytes name.now.value) (sort_view sort.now)) (term_view term.now)) result self.new }
    {
        match self.placed(alloc, setting, term, sort)? {
            Some(term) => {
                self.bind(alloc, name, sort, &term)?;
                Ok(true)
            }
            None => Ok(false),
        }
    }

    /// The rule's variable stands for the term; where it stands for another already, both are to be equal.
    fn bind(
        &mut self,
        alloc: Global,
        name: &Arc<String>,
        sort: &Sort,
        term: &Term,
    ) -> Result<(), AllocError>
        ensures { OnOk result (IsBoundOn self.old (string_bytes name.now.value) (sort_view sort.now) (term_view term.now) self.new) }
    {
        match shared_replacement(alloc, &self.bindings, name)? {
            Some(bound) => self.equate(alloc, sort, &bound, term),
            None => self.bind_first(alloc, name, term),
        }
    }

    /// The rule's variable stands for the term.
    fn bind_first(
        &mut self,
        alloc: Global,
        name: &Arc<String>,
        term: &Term,
    ) -> Result<(), AllocError>
        ensures { (s : KoreSort) → OnOk result (stage_view self.new ≡ bound_stage (stage_view self.old) (string_bytes name.now.value) s (term_view term.now) None) }
    {
        let name = name.clone()?;
        let term = term.share(alloc)?;
        self.bindings.push(Replaced { name, term })?;
        Ok(())
    }

    /// Both terms are to be equal.
    fn equate(
        &mut self,
        alloc: Global,
        sort: &Sort,
        left: &Term,
        right: &Term,
    ) -> Result<(), AllocError>
        ensures { OnOk result (stage_view self.new ≡ equal_stage (stage_view self.old) (equality_of (sort_view sort.now) (term_view left.now) (term_view right.now))) }
    {
        let equality = make_equality(alloc, sort, left, right)?;
        self.equalities.push(equality)?;
        Ok(())
    }

    /// A whole number, a truth value or a token against a term.
    fn meet_literal(
        &mut self,
        alloc: Global,
        setting: &Setting<'_>,
        value: &Value,
        term: &Term,
    ) -> Result<bool, CompileError>
        requires heads { HasItsTable setting.now }
        requires literal { IsLiteral (value_view value.now) }
        ensures { MeetsPair setting.now self.old (pair_of (fixed (value_view value.now)) (term_view term.now)) result self.new }
    {
        if let Term::Known { value: known } = term {
            return Ok(value.equal(known));
        }
        match own_sort(alloc, setting.language.signature, value)? {
            Some(own) => self.meet_own(alloc, setting, value, &own, term),
            None => Ok(false),
        }
    }

    /// A literal of this own sort against a term.
    fn meet_own(
        &mut self,
        alloc: Global,
        setting: &Setting<'_>,
        value: &Value,
        own: &Sort,
        term: &Term,
    ) -> Result<bool, CompileError>
        requires heads { HasItsTable setting.now }
        requires literal { IsLiteral (value_view value.now) }
        requires own { spelled.own_sort (signature_of setting.now) (value_view value.now) ≡ Some (sort_view own.now) }
        ensures { MeetsPair setting.now self.old (pair_of (fixed (value_view value.now)) (term_view term.now)) result self.new }
    {
        if !is_own_literal(setting.language.signature, value, own) {
            return Ok(false);
        }
        match self.placed(alloc, setting, term, own)? {
            Some(term) => {
                let known = make_known(alloc, value)?;
                self.equate(alloc, own, &term, &known)?;
                Ok(true)
            }
            None => Ok(false),
        }
    }

    /// A constructor against a term: its members, where the term has that head or may have it.
    fn meet_constructor(
        &mut self,
        alloc: Global,
        setting: &Setting<'_>,
        symbol: &Arc<String>,
        members: Members<'a>,
        term: &Term,
    ) -> Result<bool, CompileError>
        requires heads { HasItsTable setting.now }
        ensures { MeetsConstructor setting.now self.old (string_bytes symbol.now.value) (members_view members.entry) (term_view term.now) result self.new }
    {
        match term {
            Term::Unknown { variable } => {
                self.meet_unknown(alloc, setting, symbol, members, variable)
            }
            Term::Offset { .. } => Ok(false),
            Term::Known { value } => Ok(self.meet_value(alloc, symbol, members, value)?),
            Term::Headed {
                symbol: head,
                arguments,
            } => {
                if !is_same(setting.language.signature, symbol, head) {
                    return Ok(false);
                }
                Ok(self.meet_members(alloc, members, arguments)?)
            }
        }
    }

    /// A constructor against a value.
    fn meet_value(
        &mut self,
        alloc: Global,
        symbol: &str,
        members: Members<'a>,
        value: &Value,
    ) -> Result<bool, AllocError>
        ensures { MeetsValue self.old symbol.now (members_view members.entry) (known (value_view value.now)) result self.new }
    {
        match arguments_if(value, symbol) {
            Some(arguments) => {
                let terms = known_terms(alloc, arguments)?;
                self.meet_members(alloc, members, &terms)
            }
            None => Ok(false),
        }
    }

    /// Members against terms, where they are as many.
    fn meet_members(
        &mut self,
        alloc: Global,
        members: Members<'a>,
        terms: &[Term],
    ) -> Result<bool, AllocError>
        ensures { IfOk result (λ b. AddsMembers b self.old (members_view members.entry) terms.now self.new) }
    {
        if members.count() != terms.len() {
            return Ok(false);
        }
        add_members(&mut self.pairs, alloc, members, terms)?;
        Ok(true)
    }

    /// A constructor against a variable, which is narrowed to it where some value of its sort has that head.
    fn meet_unknown(
        &mut self,
        alloc: Global,
        setting: &Setting<'_>,
        symbol: &Arc<String>,
        members: Members<'a>,
        variable: &Arc<Variable>,
    ) -> Result<bool, CompileError>
        requires heads { HasItsTable setting.now }
        ensures { MeetsConstructor setting.now self.old (string_bytes symbol.now.value) (members_view members.entry) (unknown (variable_view variable.now.value)) result self.new }
    {
        if !may_have(setting, symbol, &variable.sort) {
            return Ok(false);
        }
        let terms = self.narrow_to_constructor(alloc, setting, variable, symbol)?;
        Ok(self.meet_members(alloc, members, &terms)?)
    }
}

/// The term that the rule's variable stands for, if it does.
fn shared_replacement(
    alloc: Global,
    bindings: &[Replaced],
    name: &str,
) -> Result<Option<Term>, AllocError>
    ensures { IfOk result (λ o. option_map term_view o ≡ replacement_for (map replaced_view bindings.now) name.now) }
{
    match replacement_of(bindings, name) {
        Some(term) => Ok(Some(term.share(alloc)?)),
        None => Ok(None),
    }
}

/// Two terms of a sort that are to be equal.
fn make_equality(
    alloc: Global,
    sort: &Sort,
    left: &Term,
    right: &Term,
) -> Result<Equality, AllocError>
    ensures { IfOk result (λ e. equality_view e ≡ equality_of (sort_view sort.now) (term_view left.now) (term_view right.now)) }
{
    Ok(Equality {
        sort: Arc::new(alloc, sort.copy(alloc)?)?,
        left: left.share(alloc)?,
        right: right.share(alloc)?,
    })
}

/// Whether some value of the sort has the constructor for its head, where the table is the signature's.
fn may_have(setting: &Setting<'_>, symbol: &str, sort: &Sort) -> bool
    ensures { HasItsTable setting.now → IsTrue result ↔ HasValueBuiltBy (signature_of setting.now) (sort_view sort.now) symbol.now }
{
    let signature = setting.language.signature;
    makes(signature, symbol, sort) && setting.table.is_live(signature, symbol)
}
