// The heads that a sort might have, one by one.
ghost use Rattle.std.specs.Option.{option_map};
ghost use Rattle.kp_kore.specs.View.{sort_view};
ghost use Rattle.kp_sort_heads.specs.Remaining.{IsNext, remaining_constructors, remaining_listed, remaining_possible};
ghost use Rattle.kp_sort_heads.specs.Views.{head_view};

use crate::head::SortHead;
use kp_kore::{Sort, SymbolSentence};
use kp_signature::Subsort;

/// Which of the heads that no sentence lists comes next: whole numbers, truth values, tokens of the sort itself, or none.
#[derive(Clone, Copy)]
pub enum Stage {
    Integers,
    Booleans,
    Own,
    Listed,
}

/// What is left of them: first those that no sentence lists, then the tokens of the sorts on the left of these pairs,
/// then these symbols.
#[derive(Drop)]
pub struct RemainingHeads<'a> {
    pub stage: Stage,
    pub pairs: &'a [Subsort],
    pub symbols: &'a [SymbolSentence],
}

impl<'a> RemainingHeads<'a> {
    /// The next of them, for this sort.
    pub fn next(&mut self, sort: &'a Sort) -> Option<SortHead<'a>>
        ensures { let s = sort_view sort.now in IsNext (option_map head_view result) (remaining_possible s self.old) (remaining_possible s self.new) }
    {
        match self.stage {
            Stage::Integers => {
                self.stage = Stage::Booleans;
                Some(SortHead::Integers)
            }
            Stage::Booleans => {
                self.stage = Stage::Own;
                Some(SortHead::Booleans)
            }
            Stage::Own => {
                self.stage = Stage::Listed;
                Some(SortHead::Tokens { sort })
            }
            Stage::Listed => next_listed(&mut self.pairs, &mut self.symbols),
        }
    }
}

/// The next of those that sentences list.
fn next_listed<'a>(
    pairs: &mut &'a [Subsort],
    symbols: &mut &'a [SymbolSentence],
) -> Option<SortHead<'a>>
    ensures { IsNext (option_map head_view result) (remaining_listed pairs.old.now symbols.old.now) (remaining_listed pairs.new.now symbols.new.now) }
{
    match *pairs {
        [first, rest @ ..] => {
            *pairs = rest;
            Some(SortHead::Tokens { sort: &first.lower })
        }
        [] => next_symbol(symbols),
    }
}

/// The next symbol.
fn next_symbol<'a>(symbols: &mut &'a [SymbolSentence]) -> Option<SortHead<'a>>
    ensures { IsNext (option_map head_view result) (remaining_constructors symbols.old.now) (remaining_constructors symbols.new.now) }
{
    match *symbols {
        [declaration, rest @ ..] => {
            *symbols = rest;
            Some(SortHead::Constructor { declaration })
        }
        [] => None,
    }
}
