// The three kinds together.
ghost use Rattle.std.specs.Prelude.{◌≡◌, ◌≤◌, ◌+◌, [], ℕ, suc, true, false, length, IfOk, IsTrue, replicate, None};
ghost use Rattle.std.specs.List.{AllByRecursion};
ghost use Rattle.kp_demands.specs.Demands.{Sizes, IsSized, CanBeMet};
ghost use Rattle.kp_demands.specs.Known.{Follow};
ghost use Rattle.kp_demands.specs.Tabled.{AreSizesOf};

use crate::demand::Demand;
use crate::{classes, places, truths};
use kp_diff::Matrix;
use std::alloc::{AllocError, Global};

/// Room for the values of unknowns of each kind. The first classes are those of different tokens.
#[derive(Drop)]
pub struct Tables {
    pub matrix: Matrix,
    pub truths: Vec<Option<bool>>,
    pub classes: Vec<usize>,
    pub fixed: usize,
}

/// A table in which no truth value is known.
fn no_truths(alloc: Global, count: usize) -> Result<Vec<Option<bool>>, AllocError>
    ensures { IfOk result (λ v. length v.items ≡ count) }
{
    let mut truths = Vec::new(alloc);
    for _i in 0..count {
        truths.push(None)?;
    }
    Ok(truths)
}

/// A table in which each token is a class of its own.
fn no_classes(alloc: Global, count: usize) -> Result<Vec<usize>, AllocError>
    ensures { IfOk result (λ v. length v.items ≡ count) }
{
    let mut classes = Vec::new(alloc);
    for _i in 0..count {
        classes.push(0)?;
    }
    Ok(classes)
}

impl Tables {
    /// Tables for so many unknowns of each kind, the first `fixed` classes being of different tokens.
    pub fn new(
        alloc: Global,
        wholes: usize,
        truths: usize,
        classes: usize,
        fixed: usize,
    ) -> Result<Tables, AllocError>
        ensures sizes { IfOk result (λ t. (bits : ℕ) → AreSizesOf (record { wholes = wholes; truths = truths; classes = classes; bits = bits }) t) }
        ensures fixed { IfOk result (λ t. t.fixed ≡ fixed) }
    {
        let matrix = Matrix::new(alloc, wholes)?;
        let truths = no_truths(alloc, truths)?;
        let classes = no_classes(alloc, classes)?;
        Ok(Tables {
            matrix,
            truths,
            classes,
            fixed,
        })
    }

    /// Whether some values meet all the demands.
    pub fn meet(&mut self, demands: &[Demand]) -> bool
        requires { (s : Sizes) × AreSizesOf s self.old × (s.wholes + s.bits ≤ 126) × AllByRecursion (IsSized s) demands.now }
        ensures sizes { (s : Sizes) → AreSizesOf s self.old → AreSizesOf s self.new }
        ensures fixed { self.new.fixed ≡ self.old.fixed }
        ensures yes { IsTrue result → CanBeMet self.old.fixed demands.now [] }
        ensures no { result ≡ false → ¬ CanBeMet self.old.fixed demands.now [] }
        ensures follow { IsTrue result → Follow demands.now self.new.matrix }
    {
        if !truths::agree(&mut self.truths, demands) {
            return false;
        }
        if !classes::agree(&mut self.classes, self.fixed, demands) {
            return false;
        }
        places::agree(&mut self.matrix, demands)
    }
}
