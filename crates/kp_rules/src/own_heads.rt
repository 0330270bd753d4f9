// Which sorts are the own sort of some head.
ghost use Rattle.std.specs.Prelude.{◌≡◌, [], IfOk, List, Some, map, string_bytes};
ghost use Rattle.std.specs.Option.{option_map};
ghost use Rattle.kp_kore.specs.Syntax.{KoreSort, SymbolDeclaration};
ghost use Rattle.kp_kore.specs.Signature.{KoreSignature};
ghost use Rattle.kp_kore.specs.View.{sort_view, symbol_sentence_view};
ghost use Rattle.kp_signature.specs.Order.{IsOrderOf, sorts_of};
ghost use Rattle.kp_signature.specs.View.{signature_view};
ghost use Rattle.kp_rules.specs.Index.{AreMarked, MarksOneMore, constructed_sort};

use kp_kore::{Name, Sort, SymbolSentence};
use kp_signature::order::SortOrder;
use kp_signature::{Meaning, Signature, meaning_of};
use std::alloc::{AllocError, Global};

/// Of each number whether some head has its sort for its own.
pub fn own_heads(
    alloc: Global,
    signature: &Signature,
    order: &SortOrder,
) -> Result<Vec<bool>, AllocError>
    ensures { let g = signature_view signature.now in IsOrderOf g.subsorts order.now → IfOk result (λ marks. AreMarked g g.symbols (sorts_of order.now.graph) marks.items) }
{
    let mut marks = literal_marks(alloc, signature, &order.graph.numbering.sorts)?;
    mark_results(&mut marks, signature, order);
    Ok(marks)
}

/// The marks of the sorts that have literals.
fn literal_marks(
    alloc: Global,
    signature: &Signature,
    sorts: &[Sort],
) -> Result<Vec<bool>, AllocError>
    ensures { IfOk result (λ marks. AreMarked (signature_view signature.now) [] (map sort_view sorts.now) marks.items) }
{
    let mut marks = Vec::new(alloc);
    for sort in sorts {
        marks.push(signature.has_literals(sort))?;
    }
    Ok(marks)
}

/// Marks the result sorts of constructors.
fn mark_results(marks: &mut Vec<bool>, signature: &Signature, order: &SortOrder)
    ensures { let g = signature_view signature.now in let sorts = sorts_of order.now.graph in IsOrderOf g.subsorts order.now → AreMarked g [] sorts marks.old.items → AreMarked g g.symbols sorts marks.new.items }
{
    for symbol in signature.symbols() {
        mark_result(marks, signature, order, symbol);
    }
}

/// Marks the result sort of a constructor.
fn mark_result(
    marks: &mut Vec<bool>,
    signature: &Signature,
    order: &SortOrder,
    symbol: &SymbolSentence,
)
    ensures { (ds : List SymbolDeclaration) → let g = signature_view signature.now in MarksOneMore g order.now ds (symbol_sentence_view symbol.now) marks.old.items marks.new.items }
{
    if let Some(sort) = constructed_sort(signature, &symbol.name) {
        mark(marks, order, sort);
    }
}

/// Marks the number of a sort, where it has one.
fn mark(marks: &mut Vec<bool>, order: &SortOrder, sort: &Sort)
    ensures { (g : KoreSignature) (ds : List SymbolDeclaration) (d : SymbolDeclaration) → let sort' = sort_view sort.now in constructed_sort g d.name ≡ Some sort' → MarksOneMore g order.now ds d marks.old.items marks.new.items }
{
    if let Some(number) = order.number_of(sort) {
        if number < marks.len() {
            marks[number] = true;
        }
    }
}

/// The result sort of the symbol of this name, where it is a constructor's.
fn constructed_sort<'a>(signature: &'a Signature, name: &Name) -> Option<&'a Sort>
    ensures { option_map (λ s. sort_view s.now) result ≡ constructed_sort (signature_view signature.now) (string_bytes name.now) }
{
    match signature.symbol(name) {
        Some(declaration) => match meaning_of(signature, name) {
            Meaning::Constructor => Some(&declaration.result_sort),
            _ => None,
        },
        None => None,
    }
}
