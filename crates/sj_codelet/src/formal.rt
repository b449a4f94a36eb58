//! What a codelet asks of its operands.

use sj_base::sequence::Sequence;

/// How a codelet's own operand is accessed.
#[derive(Clone, Copy, Debug, PartialEq, Eq)]
pub enum Formal {
    R,
    W,
    RW,
    Scratch,
}

/// How many arguments a codelet takes, and the modes of its operands in order.
#[derive(Debug, Drop)]
pub struct Shape {
    pub args: u32,
    pub formals: Sequence<Formal>,
}
