use kp_kore::Sort;

/// An element variable: a name and its sort. `variable_view` in specs/View.antt says what it stands for.
#[derive(Drop)]
pub struct Variable {
    pub name: String,
    pub sort: Sort,
}

impl Variable {
    ghost use Rattle.std.specs.Prelude.{◌≡◌, ◌↔◌, IsTrue};
    ghost use Rattle.kp_symbolic.specs.View.{variable_view};

    /// Whether both are the same name at the same sort.
    pub fn same(&self, other: &Variable) -> bool
        ensures { IsTrue result ↔ (variable_view self.now ≡ variable_view other.now) }
    {
        self.name == other.name && self.sort.equal(&other.sort)
    }
}
