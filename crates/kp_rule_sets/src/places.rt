// The places of the rules that may have a head, one after the other.
ghost use Rattle.std.specs.Prelude.{◌≡◌, ◌∷◌, [], MatchOption, true, false};
ghost use Rattle.kp_rule_sets.specs.Merged.{goes_on, left_of};

/// The place of a rule, and its turn among all rules.
#[derive(Drop)]
pub struct Ranked {
    pub turn: usize,
    pub place: usize,
}

/// The places of the rules that may have a head, by turn, which aren't taken yet: of the rules that have it, and of those
/// that may have any.
#[derive(Drop)]
pub struct Places<'a> {
    pub own: &'a [Ranked],
    pub any: &'a [Ranked],
}

/// Whether the next turn is one of the first row's.
fn is_own_next(own: &[Ranked], any: &[Ranked]) -> bool
    ensures { result ≡ goes_on own.now any.now }
{
    let [first, ..] = own else {
        return false;
    };
    let [other, ..] = any else {
        return true;
    };
    first.turn < other.turn
}

impl<'a> Places<'a> {
    /// Takes the place that comes next. It takes no memory.
    pub fn next(&mut self) -> Option<usize>
        ensures { MatchOption result (left_of self.old ≡ []) (λ place. left_of self.old ≡ place ∷ left_of self.new) }
    {
        if is_own_next(self.own, self.any) {
            self.next_own()
        } else {
            self.next_of_any()
        }
    }

    /// Takes the next place of the rules that have the head.
    fn next_own(&mut self) -> Option<usize>
        ensures { goes_on self.old.own.now self.old.any.now ≡ true → MatchOption result (left_of self.old ≡ []) (λ place. left_of self.old ≡ place ∷ left_of self.new) }
    {
        let [first, rest @ ..] = self.own else {
            return None;
        };
        self.own = rest;
        Some(first.place)
    }

    /// Takes the next place of the rules that may have any head.
    fn next_of_any(&mut self) -> Option<usize>
        ensures { goes_on self.old.own.now self.old.any.now ≡ false → MatchOption result (left_of self.old ≡ []) (λ place. left_of self.old ≡ place ∷ left_of self.new) }
    {
        let [first, rest @ ..] = self.any else {
            return None;
        };
        self.any = rest;
        Some(first.place)
    }
}
