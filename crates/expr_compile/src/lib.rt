//! The code of expressions, targets and simple statements, as it grows at the end of a buffer.
#![tactic(auto)]

mod buffer;
mod names;
mod simple;
mod targets;
#[cfg(test)]
mod tests;
mod values;

pub use buffer::Buffer;
pub use names::Names;
pub use simple::{
    push_annotated, push_assert, push_assign, push_augment, push_expression, push_froms,
    push_imports, push_raise, push_return,
};
pub use targets::push_put;
pub use values::push_value;
