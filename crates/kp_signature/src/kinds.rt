// Which sorts have literals, and of what kind.
ghost use Rattle.std.specs.Prelude.{◌≡◌, string_bytes};
ghost use Rattle.std.specs.Option.{option_map};
ghost use Rattle.std.proofs.Props.{props};
ghost use Rattle.kp_kore.specs.Attributes.{sorts_equal};
ghost use Rattle.kp_kore.specs.Signature.{is_the};
ghost use Rattle.kp_kore.specs.Syntax.{sort_of, no_sorts};
ghost use Rattle.kp_kore.specs.View.{sort_view};
ghost use Rattle.kp_signature.specs.Alone.{numbers_stand_alone, truths_stand_alone};
ghost use Rattle.kp_signature.specs.Table.{table_view};

use crate::declarations::Declarations;
use crate::signature::Signature;
use kp_kore::{Module, Name, Sort};
use std::alloc::{AllocError, Global};

/// What the sentences of modules declare, and whether the sorts of whole numbers and of truth values have these values
/// alone.
#[derive(Drop)]
pub struct Kinds {
    pub(crate) declarations: Declarations,
    pub(crate) numbers_alone: bool,
    pub(crate) truths_alone: bool,
    ghost numbers_told: { numbers_alone ≡ numbers_stand_alone (table_view declarations.table) } by { Prim.hlevel props },
    ghost truths_told: { truths_alone ≡ truths_stand_alone (table_view declarations.table) } by { Prim.hlevel props },
}

impl Kinds {
    ghost use Rattle.std.specs.Prelude.{IfOk};
    ghost use Rattle.kp_kore.specs.Signature.{signature_of, is_number_sort, is_truth_sort};
    ghost use Rattle.kp_signature.specs.View.{sentences_of};

    /// What the sentences of these modules declare, in order.
    pub fn new(alloc: Global, modules: &[&Module]) -> Result<Kinds, AllocError>
        ensures { IfOk result (λ k. table_view k.declarations.table ≡ signature_of (sentences_of modules.now)) }
    {
        let declarations = Declarations::new(alloc, modules)?;
        let numbers_alone = declarations.numbers_stand_alone(alloc)?;
        let truths_alone = declarations.truths_stand_alone(alloc)?;
        Ok(Kinds {
            declarations,
            numbers_alone,
            truths_alone,
        })
    }

    /// Whether the sort is that of whole numbers, and has no other values.
    pub fn is_number_sort(&self, sort: &Sort) -> bool
        ensures { result ≡ is_number_sort (table_view self.now.declarations.table) (sort_view sort.now) }
    {
        if self.declarations.is_integer_sort(sort) {
            self.numbers_alone
        } else {
            false
        }
    }

    /// Whether the sort is that of truth values, and has no other values.
    pub fn is_truth_sort(&self, sort: &Sort) -> bool
        ensures { result ≡ is_truth_sort (table_view self.now.declarations.table) (sort_view sort.now) }
    {
        if self.declarations.is_boolean_sort(sort) {
            self.truths_alone
        } else {
            false
        }
    }
}

impl Signature {
    ghost use Rattle.kp_kore.specs.Signature.{is_integer_sort, is_boolean_sort, is_number_sort, is_truth_sort, is_token_sort, has_literals};
    ghost use Rattle.kp_signature.specs.View.{signature_view};

    /// Whether the sort is that of whole numbers.
    pub fn is_integer_sort(&self, sort: &Sort) -> bool
        ensures { result ≡ is_integer_sort (signature_view self.now) (sort_view sort.now) }
    {
        self.kinds.declarations.is_integer_sort(sort)
    }

    /// Whether the sort is that of truth values.
    pub fn is_boolean_sort(&self, sort: &Sort) -> bool
        ensures { result ≡ is_boolean_sort (signature_view self.now) (sort_view sort.now) }
    {
        self.kinds.declarations.is_boolean_sort(sort)
    }

    /// Whether the sort is that of whole numbers, and has no other values.
    pub fn is_number_sort(&self, sort: &Sort) -> bool
        ensures { result ≡ is_number_sort (signature_view self.now) (sort_view sort.now) }
    {
        self.kinds.is_number_sort(sort)
    }

    /// Whether the sort is that of truth values, and has no other values.
    pub fn is_truth_sort(&self, sort: &Sort) -> bool
        ensures { result ≡ is_truth_sort (signature_view self.now) (sort_view sort.now) }
    {
        self.kinds.is_truth_sort(sort)
    }

    /// Whether any text is a literal of the sort: a further hooked sort, or one with `hasDomainValues`.
    pub fn is_token_sort(&self, sort: &Sort) -> bool
        ensures { result ≡ is_token_sort (signature_view self.now) (sort_view sort.now) }
    {
        self.kinds.declarations.is_token_sort(sort)
    }

    /// Whether values of the sort are written as literals.
    pub fn has_literals(&self, sort: &Sort) -> bool
        ensures { result ≡ has_literals (signature_view self.now) (sort_view sort.now) }
    {
        self.is_integer_sort(sort) || self.is_boolean_sort(sort) || self.is_token_sort(sort)
    }
}

/// Whether the sort is the one of this name without arguments.
pub fn is_named(name: Option<&Name>, sort: &Sort) -> bool
    ensures { result ≡ is_the (option_map (λ n. sort_of (string_bytes n.now) no_sorts) name.entry) (sort_view sort.now) }
{
    match name {
        Some(name) => is_plain_sort(name, sort),
        None => false,
    }
}

/// Whether it is this name without arguments.
fn is_plain_sort(wanted: &Name, sort: &Sort) -> bool
    ensures { result ≡ sorts_equal (sort_of (string_bytes wanted.now) no_sorts) (sort_view sort.now) }
{
    match sort {
        Sort::App { name, arguments } => {
            if arguments.len() > 0 {
                return false;
            }
            wanted == name
        }
        Sort::Variable { .. } => false,
    }
}
