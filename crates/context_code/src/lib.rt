//! The code of contexts, the instruction at a point, and the variables of seats.
#![tactic(auto)]

mod branches;
mod codes;
pub mod laws;
mod readings;
mod seats;
mod targets;
mod vars;

pub use branches::{fall_test, is_call, jump_test};
pub use codes::{code_at, code_for, fun_of, op_at, thread_of};
pub use readings::readings_at;
pub use seats::{owned_spot, spot_of, top_spot};
pub use targets::written;
pub use vars::vars_of;
