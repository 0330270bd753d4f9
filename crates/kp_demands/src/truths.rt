// Truth values: no unknown is asked for both.
ghost use Rattle.std.specs.Prelude.{◌≡◌, ◌≢◌, ◌↔◌, ◌<◌, ℕ, Bool, true, false, length, get_or, None, IsTrue};
ghost use Rattle.std.specs.List.{AllByRecursion};
ghost use Rattle.kp_demands.specs.Demands.{Sizes, IsSized, MeetsTruth};
ghost use Rattle.kp_demands.specs.Truths.{HaveTruths};

use crate::demand::Demand;

/// Takes all values out of the table.
fn clear(table: &mut [Option<bool>])
    ensures { (x : ℕ) → get_or table.new x None ≡ None }
{
    for x in 0..table.len() {
        table[x] = None;
    }
}

/// Puts a value into the table, unless it has the other there.
fn ask(table: &mut [Option<bool>], name: usize, value: bool) -> bool
    requires { name < length table.old }
    ensures yes { IsTrue result → (truths : ℕ → Bool) → HaveTruths table.new truths ↔ (HaveTruths table.old truths × (truths name ≡ value)) }
    ensures no { result ≡ false → (truths : ℕ → Bool) → HaveTruths table.old truths → truths name ≢ value }
{
    match table[name] {
        Some(asked) => asked == value,
        None => {
            table[name] = Some(value);
            true
        }
    }
}

/// Puts what a demand asks into the table, unless it has the other value there.
fn take(table: &mut [Option<bool>], demand: Demand) -> bool
    requires { (s : Sizes) × (s.truths ≡ length table.old) × IsSized s demand }
    ensures long { length table.new ≡ length table.old }
    ensures yes { IsTrue result → (truths : ℕ → Bool) → HaveTruths table.new truths ↔ (HaveTruths table.old truths × MeetsTruth truths demand) }
    ensures no { result ≡ false → (truths : ℕ → Bool) → HaveTruths table.old truths → ¬ MeetsTruth truths demand }
{
    match demand {
        Demand::Truth { name, value } => ask(table, name, value),
        _ => true,
    }
}

/// Fills the table with the truth values that are asked for. False where one unknown is asked for both.
pub fn agree(table: &mut [Option<bool>], demands: &[Demand]) -> bool
    requires { (s : Sizes) × (s.truths ≡ length table.old) × AllByRecursion (IsSized s) demands.now }
    ensures long { length table.new ≡ length table.old }
    ensures yes { IsTrue result → (truths : ℕ → Bool) → HaveTruths table.new truths ↔ AllByRecursion (MeetsTruth truths) demands.now }
    ensures no { result ≡ false → (truths : ℕ → Bool) → ¬ AllByRecursion (MeetsTruth truths) demands.now }
{
    clear(table);
    for demand in demands {
        if !take(table, *demand) {
            return false;
        }
    }
    true
}
