use kp_kore::Hook;

/// The interpreted functions. `function_view` in specs/Meanings.antt says which hook each is.
#[derive(Clone, Copy)]
pub enum Function {
    /// A function of two values.
    Two(Hook),
    /// The opposite of a truth value.
    Negation,
}
