//! What every id can do.
ghost use Rattle.std.specs.Prelude.{◌≡◌, ℕ};

/// An id: it stands for a number, and ids of different kinds do not mix.
pub trait Id: Copy {
    // The number that an id stands for.
    ghost value: { Self → ℕ };

    /// The id that stands for a number.
    fn new(number: u32) -> Self
        ensures { value result ≡ number };

    /// The number that this id stands for.
    fn number(self) -> u32
        ensures { result ≡ value self };
}
