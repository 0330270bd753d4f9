// The choices of one way each, walked one after another.
ghost use Rattle.std.specs.Prelude.{◌≡◌, ◌≤◌, ◌+◌, [], false, ℕ, ℤ, IfOk, IsTrue, Ok};
ghost use Rattle.std.specs.List.{AllByRecursion};
ghost use Rattle.kp_demands.specs.Demands.{Sizes, IsSized, MeetsBound, CanBeMet, choices_of};
ghost use Rattle.kp_demands.specs.Known.{HasRoom, Follow};
ghost use Rattle.kp_demands.specs.Tabled.{AreSizesOf};

use crate::demand::Demand;
use crate::known_bounds::{Known, known_of, leave_all, with_way};
use crate::tables::Tables;
use std::alloc::{AllocError, Global};

/// Whether some values meet the chosen demands, and those of one way of each choice. No choice is built: the ways are
/// put behind the chosen demands and taken away again. The last of them are those of a way, which isn't walked where the
/// bounds that were known before stand against it.
fn search_choices(
    alloc: Global,
    choices: &[Vec<Vec<Demand>>],
    chosen: &mut Vec<Demand>,
    tables: &mut Tables,
    known: &Known,
    last: &[Demand],
) -> Result<bool, AllocError>
    requires search { let chosen' = chosen.old.items in let choices' = choices_of choices.now in (s : Sizes) × AreSizesOf s tables.old × (s.wholes + s.bits ≤ 126) × AllByRecursion (IsSized s) chosen' × AllByRecursion (AllByRecursion (AllByRecursion (IsSized s))) choices' }
    requires size { known.now.matrix.size ≡ tables.old.matrix.size }
    requires room { HasRoom known.now.room known.now.matrix }
    requires sized { (s : Sizes) → AllByRecursion (IsSized s) chosen.old.items → AllByRecursion (IsSized s) last.now }
    requires follow { Follow chosen.old.items known.now.matrix }
    requires last { (values : ℕ → ℤ) → AllByRecursion (MeetsBound values) chosen.old.items → AllByRecursion (MeetsBound values) last.now }
    ensures sizes { (s : Sizes) → AreSizesOf s tables.old → AreSizesOf s tables.new }
    ensures fixed { tables.new.fixed ≡ tables.old.fixed }
    ensures kept { result ≡ Ok false → chosen.new.items ≡ chosen.old.items }
    ensures yes { IfOk result (λ b. IsTrue b → CanBeMet tables.old.fixed chosen.old.items (choices_of choices.now)) }
    ensures no { IfOk result (λ b. b ≡ false → ¬ CanBeMet tables.old.fixed chosen.old.items (choices_of choices.now)) }
{
    if !leave_all(known, last) {
        return Ok(false);
    }
    let [first, rest @ ..] = choices else {
        return Ok(tables.meet(chosen));
    };
    let Some(own) = with_way(alloc, known, last)? else {
        return Ok(false);
    };
    let count = chosen.len();
    for way in first {
        chosen.extend_from_slice(way)?;
        if search_choices(alloc, rest, chosen, tables, &own, way)? {
            return Ok(true);
        }
        chosen.truncate(count);
    }
    Ok(false)
}

/// Whether some values meet the demands, and those of one way of each choice: the demands are asked alone first.
pub fn can_be_met(
    alloc: Global,
    choices: &[Vec<Vec<Demand>>],
    demands: &mut Vec<Demand>,
    tables: &mut Tables,
) -> Result<bool, AllocError>
    requires { let demands' = demands.old.items in let choices' = choices_of choices.now in (s : Sizes) × AreSizesOf s tables.old × (s.wholes + s.bits ≤ 126) × AllByRecursion (IsSized s) demands' × AllByRecursion (AllByRecursion (AllByRecursion (IsSized s))) choices' }
    ensures yes { IfOk result (λ b. IsTrue b → CanBeMet tables.old.fixed demands.old.items (choices_of choices.now)) }
    ensures no { IfOk result (λ b. b ≡ false → ¬ CanBeMet tables.old.fixed demands.old.items (choices_of choices.now)) }
{
    if !tables.meet(demands) {
        return Ok(false);
    }
    let known = known_of(alloc, &tables.matrix)?;
    search_choices(alloc, choices, demands, tables, &known, &[])
}
