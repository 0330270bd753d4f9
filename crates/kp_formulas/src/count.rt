// How many clauses and literals a formula makes, up to one more literal than a state may have.
ghost use Rattle.std.specs.Prelude.{◌≡◌, ◌+◌, ◌*◌, nat_lt, min};
ghost use Rattle.kp_symbolic.specs.Clauses.{most_opened};
ghost use Rattle.kp_symbolic.specs.Formulas.{together as both_sizes, each_with_each as crossed_sizes};
ghost use Rattle.kp_formulas.specs.Distribution.{most_counted, counted};
ghost use Rattle.kp_formulas.specs.DistributionView.{count_view};

/// As many literals as all conjuncts of a state may make.
pub const MOST_OPENED: u64 = 16384;

/// Numbers of clauses and literals, repeats included. `count_view` in specs/View.antt says which size it is.
#[derive(Clone, Copy)]
pub struct Count {
    pub clauses: u64,
    pub literals: u64,
}

/// The number, or the most that is counted.
pub fn at_most(number: u64) -> u64
    ensures { result ≡ min number most_counted }
{
    if number <= MOST_OPENED {
        number
    } else {
        MOST_OPENED + 1
    }
}

/// Whether these are more literals than a state may have.
pub fn is_too_large(count: Count) -> bool
    ensures { result ≡ nat_lt most_opened (count_view count).literals }
{
    count.literals > MOST_OPENED
}

/// The sum of two numbers, or the most that is counted.
fn sum(first: u64, second: u64) -> u64
    ensures { result ≡ min (first + second) most_counted }
{
    at_most(first.saturating_add(second))
}

/// The product of two numbers, or the most that is counted.
fn product(first: u64, second: u64) -> u64
    ensures { result ≡ min (first * second) most_counted }
{
    at_most(first.saturating_mul(second))
}

/// What both make.
pub fn together(first: Count, second: Count) -> Count
    ensures { count_view result ≡ counted (both_sizes (count_view first) (count_view second)) }
{
    Count {
        clauses: sum(first.clauses, second.clauses),
        literals: sum(first.literals, second.literals),
    }
}

/// What each clause of the one with each of the other makes.
#[tactic(auto, using(crate::proofs::Counting::sum_capped))]
pub fn each_with_each(first: Count, second: Count) -> Count
    ensures { count_view result ≡ counted (crossed_sizes (count_view first) (count_view second)) }
{
    let from_first = product(first.literals, second.clauses);
    let from_second = product(second.literals, first.clauses);
    Count {
        clauses: product(first.clauses, second.clauses),
        literals: sum(from_first, from_second),
    }
}
