ghost use Rattle.std.specs.Prelude.{List};

use crate::view::{Terms, View};
use atomic_table::TableRule;

/// What lies in the slot: a value with entries E in order, for a history that is about a K.
pub trait Archive<E, K> {
    /// Its entries.
    ghost entries: { Self → List E };

    /// What holds of the value whenever nobody has it.
    ghost sound: { Self → Type 0 };

    /// What holds of its entries, by what the history is about.
    ghost legal: { K → List E → Type 0 };
}

/// The rule of a history, for the table that its value lies in.
pub struct Law;

impl<B: Archive<E, K>, E, K> TableRule<Option<B>, View<E, K>, Terms<K>> for Law {
    ghost use Rattle.kp_history.specs.Rule.{IsKept};
    ghost use Rattle.kp_history.specs.Views.{newcomer};
    ghost use Rattle.std.specs.Prelude.{[], Some};

    ghost holds = { λ terms. IsKept B.entries B.sound B.legal terms };

    ghost first = { λ terms. newcomer (Some terms) terms.seats [] };
}
