//! How a call of the program ends.
ghost use Rattle.std.specs.Prelude.{◌≡◌};
ghost use Rattle.py_infer.specs.Codes.{code_of};

/// The ending of a call, which is the program's exit status.
#[derive(Clone, Copy, Debug, PartialEq, Eq)]
pub enum Status {
    /// The stub is written, and there is nothing to report.
    Clean,
    /// The stub is written, and a report of findings.
    Findings,
    /// The words aren't accepted.
    Usage,
    /// The file is refused.
    Refused,
    /// The file couldn't be read.
    ReadFault,
    /// A text couldn't be written whole.
    WriteFault,
    /// The module is too large to infer.
    TooLarge,
    /// Memory ran out before anything was written.
    Memory,
}

impl Status {
    /// The exit status, from 0 to 7.
    pub fn code(self) -> u8
        ensures { result ≡ code_of self }
    {
        self as u8
    }
}
