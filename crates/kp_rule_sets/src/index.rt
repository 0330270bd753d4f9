// The places of rules by what stands at the top of their left terms.
ghost use Rattle.std.specs.Prelude.{◌≡◌, ◌≢◌, ◌<◌, ◌++◌, ◌∷◌, [], ℕ, Bool, List, IfOk, OnOk, length, map, set, get_or, slice_get, false};
ghost use Rattle.indexmap.specs.IndexMap.{get_by_text};
ghost use Rattle.kp_rule_sets.specs.Merged.{left_of};
ghost use Rattle.kp_rule_sets.specs.Tops.{Top, constructor_named, has, has_any, is_any, is_only, tops_same};
ghost use Rattle.kp_rule_sets.specs.Turns.{is_mine};
ghost use Rattle.kp_rule_sets.specs.HeadView.{head_view, tops_view};
ghost use Rattle.kp_rule_sets.specs.Rows.{Fills, FillsOf, Owns, numbered, places_at, row_at, row_of, rows_view};
ghost use Rattle.kp_rule_sets.specs.declared.places.Ranked.{Ranked};

use crate::head::ValueTop;
use crate::places::{Places, Ranked};
use crate::tops::{Tops, tops_of};
use indexmap::IndexMap;
use kp_kore::Name;
use kp_rules::Rule;
use std::alloc::{AllocError, Global};

/// A row of places for each head that some rule has, and one of the rules that may have any head; of each constructor
/// the row. The first row is empty: it is that of all other heads.
#[derive(Drop)]
pub struct Index {
    pub rows: Vec<Vec<Ranked>>,
    pub any: Vec<Ranked>,
    pub names: IndexMap<Name, usize>,
}

/// Adds a place to a row.
fn push_at(rows: &mut Vec<Vec<Ranked>>, row: usize, ranked: Ranked) -> Result<(), AllocError>
    ensures { let rows' = rows_view rows.old.items in row < length rows.old.items → OnOk result (rows_view rows.new.items ≡ set rows' row (get_or rows' row [] ++ ranked ∷ [])) }
{
    if row < rows.len() {
        rows[row].push(ranked)?;
    }
    Ok(())
}

/// Adds an empty row; its number.
fn add_row(alloc: Global, rows: &mut Vec<Vec<Ranked>>) -> Result<usize, AllocError>
    ensures number { IfOk result (λ n. n ≡ length rows.old.items) }
    ensures added { OnOk result (rows_view rows.new.items ≡ rows_view rows.old.items ++ [] ∷ []) }
{
    let number = rows.len();
    rows.push(Vec::new(alloc))?;
    Ok(number)
}

impl Index {
    /// The index of no places.
    pub fn new(alloc: Global) -> Result<Index, AllocError>
        ensures { (own : Top → ℕ → Bool) (all : ℕ → Bool) → IfOk result (Fills own all []) }
    {
        let mut rows = Vec::new(alloc);
        rows.push(Vec::new(alloc))?;
        rows.push(Vec::new(alloc))?;
        rows.push(Vec::new(alloc))?;
        rows.push(Vec::new(alloc))?;
        Ok(Index {
            rows,
            any: Vec::new(alloc),
            names: IndexMap::new(alloc),
        })
    }

    /// The row of a head.
    fn row(&self, head: &ValueTop<'_>) -> usize
        ensures { result ≡ row_of (get_by_text self.now.names) (head_view head.now) }
    {
        match head {
            ValueTop::Number => 1,
            ValueTop::Truth => 2,
            ValueTop::Token => 3,
            ValueTop::Constructor(name) => self.named(name),
        }
    }

    /// The row of a constructor.
    fn named(&self, name: &str) -> usize
        ensures { result ≡ row_of (get_by_text self.now.names) (constructor_named name.now) }
    {
        match self.names.get(name) {
            Some(row) => *row,
            None => 0,
        }
    }

    /// The places of the rules that have a head.
    fn own(&self, head: &ValueTop<'_>) -> &[Ranked]
        ensures { result.now ≡ row_at self.now (head_view head.now) }
    {
        let row = self.row(head);
        match self.rows.get(row) {
            Some(places) => places,
            None => &[],
        }
    }

    /// The places of the rules that may have a head. It takes no memory.
    pub fn places(&self, head: &ValueTop<'_>) -> Places<'_>
        ensures { left_of result ≡ places_at self.now (head_view head.now) }
    {
        Places {
            own: self.own(head),
            any: &self.any,
        }
    }

    /// Notes a constructor, which gets a row where it has none.
    fn note(&mut self, alloc: Global, name: &str) -> Result<(), AllocError>
        ensures filled { (own : Top → ℕ → Bool) (all : ℕ → Bool) (seen : List Ranked) → Fills own all seen self.old → OnOk result (Fills own all seen self.new) }
        ensures noted { let own_row = row_of (get_by_text self.new.names) (constructor_named name.now) in (own : Top → ℕ → Bool) (all : ℕ → Bool) (seen : List Ranked) → Fills own all seen self.old → OnOk result (own_row ≢ 0) }
    {
        if self.names.contains_key(name) {
            return Ok(());
        }
        let name = String::from_str(alloc, name)?;
        let row = add_row(alloc, &mut self.rows)?;
        self.names.insert(name, row)?;
        Ok(())
    }

    /// Sees to it that a head has a row of its own.
    fn prepare(&mut self, alloc: Global, head: &ValueTop<'_>) -> Result<(), AllocError>
        ensures filled { (own : Top → ℕ → Bool) (all : ℕ → Bool) (seen : List Ranked) → Fills own all seen self.old → OnOk result (Fills own all seen self.new) }
        ensures prepared { let own_row = row_of (get_by_text self.new.names) (head_view head.now) in (own : Top → ℕ → Bool) (all : ℕ → Bool) (seen : List Ranked) → Fills own all seen self.old → OnOk result (own_row ≢ 0) }
    {
        match head {
            ValueTop::Constructor(name) => self.note(alloc, name),
            ValueTop::Number | ValueTop::Truth | ValueTop::Token => Ok(()),
        }
    }

    /// Adds the place of a rule whose left term has this head.
    fn add_at(
        &mut self,
        alloc: Global,
        head: &ValueTop<'_>,
        ranked: Ranked,
    ) -> Result<(), AllocError>
        ensures { let head' = head_view head.now in
            (own : Top → ℕ → Bool) (all : ℕ → Bool) (seen : List Ranked) → Fills own all seen self.old → Owns own (tops_same head') ranked.place → all ranked.place ≡ false →
            OnOk result (Fills own all (seen ++ ranked ∷ []) self.new) }
    {
        self.prepare(alloc, head)?;
        let row = self.row(head);
        push_at(&mut self.rows, row, ranked)?;
        Ok(())
    }

    /// Adds the place of the next rule by turn.
    fn add(&mut self, alloc: Global, tops: &Tops<'_>, ranked: Ranked) -> Result<(), AllocError>
        ensures { let tops' = tops_view tops.now in
            (own : Top → ℕ → Bool) (all : ℕ → Bool) (seen : List Ranked) → Fills own all seen self.old → Owns own (is_only tops') ranked.place → all ranked.place ≡ is_any tops' →
            OnOk result (Fills own all (seen ++ ranked ∷ []) self.new) }
    {
        match tops {
            Tops::Any => Ok(self.any.push(ranked)?),
            Tops::Nothing => Ok(()),
            Tops::Only(head) => self.add_at(alloc, head, ranked),
        }
    }
}

/// What the rule at a place has at its top.
fn tops_at(rules: &[Rule], place: usize) -> Tops<'_>
    ensures own { (h : Top) → is_mine (has h) (slice_get rules.now place) ≡ is_only (tops_view result) h }
    ensures any { is_mine has_any (slice_get rules.now place) ≡ is_any (tops_view result) }
{
    match rules.get(place) {
        Some(rule) => tops_of(&rule.body),
        None => Tops::Nothing,
    }
}

/// Adds the place of the rule of a turn to the index.
fn add_place(
    index: &mut Index,
    alloc: Global,
    rules: &[Rule],
    turn: usize,
    place: usize,
) -> Result<(), AllocError>
    ensures { (seen : List Ranked) → FillsOf rules.now seen index.old → OnOk result (FillsOf rules.now (seen ++ record { turn = turn; place = place } ∷ []) index.new) }
{
    let tops = tops_at(rules, place);
    index.add(alloc, &tops, Ranked { turn, place })?;
    Ok(())
}

/// The index of these rules, whose places come by turn.
pub fn index_of(alloc: Global, rules: &[Rule], order: &[usize]) -> Result<Index, AllocError>
    ensures { IfOk result (FillsOf rules.now (numbered 0 order.now)) }
{
    let mut index = Index::new(alloc)?;
    for turn in 0..order.len() {
        add_place(&mut index, alloc, rules, turn, order[turn])?;
    }
    Ok(index)
}
