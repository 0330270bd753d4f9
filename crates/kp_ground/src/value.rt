use kp_kore::Sort;
use std::alloc::{AllocError, Global};
use std::sync::Arc;

/// What a closed term means. `value_view` in specs/View.antt says which value of the model it is.
pub enum Value {
    /// A whole number of 128 bits.
    Whole {
        number: i128,
    },
    Truth {
        holds: bool,
    },
    /// A token of a sort, by its text.
    Token {
        sort: Sort,
        text: String,
    },
    /// A constructor and its arguments, which values share.
    Constructed {
        constructor: Arc<String>,
        arguments: Arc<Vec<Value>>,
    },
}

// Written out: a derived one is proved again in each crate that owns such a value.
impl Drop for Value {
    fn drop(self) {
        match self {
            Value::Whole { number: _number } => {}
            Value::Truth { holds: _holds } => {}
            Value::Token {
                sort: _sort,
                text: _text,
            } => {}
            Value::Constructed {
                constructor: _constructor,
                arguments: _arguments,
            } => {}
        }
    }
}

impl Value {
    ghost use Rattle.std.specs.Prelude.{◌≡◌, ◌↔◌, IfOk, IsTrue, map};
    ghost use Rattle.kp_ground.specs.View.{value_view, values_of};

    /// The same value, sharing its arguments.
    pub fn share(&self, alloc: Global) -> Result<Value, AllocError>
        ensures { IfOk result (λ u. value_view u ≡ value_view self.now) }
    {
        match self {
            Value::Whole { number } => Ok(Value::Whole { number: *number }),
            Value::Truth { holds } => Ok(Value::Truth { holds: *holds }),
            Value::Token { sort, text } => Ok(Value::Token {
                sort: sort.copy(alloc)?,
                text: text.clone()?,
            }),
            Value::Constructed {
                constructor,
                arguments,
            } => Ok(Value::Constructed {
                constructor: constructor.clone()?,
                arguments: arguments.clone()?,
            }),
        }
    }

    /// Whether both are the same value.
    #[cycle(equal)]
    pub fn equal(&self, other: &Value) -> bool
        ensures { IsTrue result ↔ (value_view self.now ≡ value_view other.now) }
    {
        match self {
            Value::Whole { number } => match other {
                Value::Whole { number: n } => number == n,
                _ => false,
            },
            Value::Truth { holds } => match other {
                Value::Truth { holds: b } => holds == b,
                _ => false,
            },
            Value::Token { sort, text } => match other {
                Value::Token { sort: s, text: t } => sort.equal(s) && text == t,
                _ => false,
            },
            Value::Constructed {
                constructor,
                arguments,
            } => match other {
                Value::Constructed {
                    constructor: c,
                    arguments: us,
                } => **constructor == **c && Value::all_equal(arguments, us),
                _ => false,
            },
        }
    }

    /// Whether both lists have the same values.
    #[cycle(equal)]
    fn all_equal(values: &[Value], others: &[Value]) -> bool
        ensures { IsTrue result ↔ (values_of (map value_view values.now) ≡ values_of (map value_view others.now)) }
    {
        if values.len() != others.len() {
            return false;
        }
        for i in 0..values.len() {
            if !values[i].equal(&others[i]) {
                return false;
            }
        }
        true
    }
}
