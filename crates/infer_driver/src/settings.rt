//! What is asked for, and what can be in the way.

/// How long a chain of calls gets, how many states a query may reach before it is given up, and whether every function is entered from outside.
#[derive(Clone, Copy, Debug, PartialEq, Eq)]
pub struct Settings {
    pub depth: u32,
    pub budget: u32,
    pub library: bool,
}

/// Why nothing was inferred.
#[derive(Clone, Copy, Debug, PartialEq, Eq)]
pub enum InferFault {
    /// The least world has more than 400,000 items.
    TooLarge,
    Memory,
}
