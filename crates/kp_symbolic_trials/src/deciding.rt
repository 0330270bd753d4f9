use crate::decided::SMALL;
use crate::rows::{Asked, Table, first_failed};

/// A state over the variable N of S.
pub(crate) const STATE: &str = "g{}(N:S{})";

/// The same beside a variable of a sort without values.
const EMPTY: &str = r"\and{S{}}(g{}(N:S{}), \equals{E{},S{}}(H:E{}, H:E{}))";

/// What is decided of clauses.
const CLAUSES: &str = r"# X < Y, Y < X, X = Y, X /= Y, X > 3, X < 5, X /= 4
a -> some
a;b -> none
c;d -> none
e;f -> some
e;f;g -> none
ac;db -> some
ac;b -> none
# P, and its opposite; no clauses, and one without a literal
h -> some
h;i -> none
h;z -> some
hi -> some
 -> some
- -> none
# tokens of two sorts are equal, or differ; X = a, X = b, Y = X, Y /= a
k -> none
l -> some
m;n -> none
mn -> some
m;o;p -> none
n;o;p -> some
# M is neither c nor d, which no clause of both says plainly; M, and the term's N, equal f(X)
q;r -> some
qr -> open
s;e -> some
t;e -> some
t;Q -> open
# the term's N is c, also as calls say it; it isn't c; it is d; which of both it is isn't said plainly
Q -> some
R;S -> some
Q;U -> none
R;U -> none
S;T -> none
T;U -> some
QU -> open
# X * X = 5 isn't decided
j -> open
je -> some
je;h;i -> none
jh;i -> open
# a number of 127 digits beside a variable; eight clauses of three; as many plain ones, with one that isn't
u -> bits 128
jeh;jeh;jeh;jeh;jeh;jeh;jeh;jeh -> product 6561
efh;efh;efh;efh;efh;efh;efh;efh;jh -> product 13122";

/// The tables of what is decided.
const TABLES: [Table<'static>; 2] = [
    (Asked::Decided(STATE), CLAUSES),
    (Asked::Decided(EMPTY), "h -> none"),
];

#[test]
fn conditions_are_decided(rt: HostRuntime) {
    assert_eq!(rt; first_failed(rt.alloc(), SMALL, &TABLES), None);
}
