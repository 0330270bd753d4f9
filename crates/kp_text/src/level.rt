ghost use Rattle.std.specs.Prelude.{◌≡◌, ◌≤◌};
ghost use Rattle.kp_text.specs.Grammar.{first_level, below, in_fold, first_in_fold};

/// Where a pattern stands: at which level of nesting as written and as meant, and which level it reaches by beginning.
#[derive(Clone, Copy)]
pub struct Level {
    pub written: usize,
    pub meant: usize,
    pub reached: usize,
}

impl Level {
    /// Where a pattern stands that stands in no other.
    pub fn first() -> Level
        ensures { result ≡ first_level }
    {
        Level {
            written: 1,
            meant: 1,
            reached: 1,
        }
    }

    /// Where what stands in a pattern stands.
    pub fn below(self) -> Level
        requires written { self.written ≤ 257 }
        requires meant { self.meant ≤ 257 }
        ensures { result ≡ below self }
    {
        Level {
            written: self.written + 1,
            meant: self.meant + 1,
            reached: self.written.max(self.meant) + 1,
        }
    }

    /// Where the application in a fold stands.
    pub fn in_fold(self) -> Level
        requires { self.written ≤ 257 }
        ensures { result ≡ in_fold self }
    {
        Level {
            written: self.written + 1,
            meant: self.meant,
            reached: self.written + 1,
        }
    }

    /// Where the first member of a fold stands.
    pub fn first_in_fold(self) -> Level
        requires { self.written ≤ 257 }
        ensures { result ≡ first_in_fold self }
    {
        Level {
            written: self.written + 2,
            meant: self.meant,
            reached: (self.written + 2).max(self.meant),
        }
    }
}
