// What each step on the table tells.
ghost use Rattle.kp_history.specs.Told.{Counted, Drew, Passed, Settled, Watched};
ghost use Rattle.kp_history.specs.Views.{joined, newcomer, one_less};
ghost use Rattle.std.specs.Prelude.{List, [], None};

use crate::archive::Archive;
use crate::view::View;
use atomic_table::{Join, Play, Split};
use std::marker::{Brand, PhantomData};

/// What is added to the entries, said of a type: a step on a word has no place for it.
pub trait Adding<E> {
    ghost added: { List E };
}

/// Where nothing is picked, nothing is added.
impl<E> Adding<E> for Brand {
    ghost added = { [] };
}

/// A ticket is drawn.
pub(crate) struct Draws;

impl<B, E, K> Play<Option<B>, View<E, K>> for Draws {
    ghost then = { Drew };
}

/// The ticket that has the turn is read, and the value taken by the pass whose ticket it is.
pub(crate) struct Watches;

impl<B: Archive<E, K>, E, K> Play<Option<B>, View<E, K>> for Watches {
    ghost then = { Watched B.entries B.sound B.legal };
}

/// The entries of the value in hand are counted, those that N adds among them.
pub(crate) struct Counts<N> {
    added: PhantomData<N>,
}

impl<B, E, K, N: Adding<E>> Play<Option<B>, View<E, K>> for Counts<N> {
    ghost then = { Counted N.added };
}

/// The turn is passed on, and the value given back.
pub(crate) struct Passes;

impl<B, E, K> Play<Option<B>, View<E, K>> for Passes {
    ghost then = { Passed };
}

/// What one was told of is compared with what it has seen.
pub(crate) struct Settles;

impl<B, E, K> Play<Option<B>, View<E, K>> for Settles {
    ghost then = { Settled };
}

/// A spare place becomes that of a new pass, which has seen as much.
pub(crate) struct Spares;

impl<E, K> Split<View<E, K>> for Spares {
    ghost left = { one_less };

    ghost right = { λ v. newcomer v.terms 1 v.seen };
}

/// One pass takes in another.
pub(crate) struct Joins;

impl<E, K> Join<View<E, K>> for Joins {
    ghost both = { joined };

    ghost spent = { newcomer None 0 [] };
}
