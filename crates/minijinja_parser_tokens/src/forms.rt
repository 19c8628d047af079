//! Which expressions and which identifiers may stand at a place of the grammar.

/// Which expressions may stand at a place.
#[derive(Clone, Copy)]
pub enum ExprForm {
    /// Any expression.
    Full,
    /// An expression without an `if` part at its end.
    Or,
    /// Any expression, or, if a comma follows, a tuple.
    Value,
    /// A chain of filters, the first of which has no operand.
    Chain,
    /// A call.
    Call,
    /// A target of an import: a variable, an attribute, or a list of such.
    Storable,
}

/// Which identifiers may stand at a place.
#[derive(Clone, Copy)]
pub enum IdentForm {
    /// Any identifier.
    Any,
    /// The name of a block: one that no block before has.
    New,
}
