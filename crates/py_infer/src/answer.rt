//! What a call has to write, and how it ends.
ghost use Rattle.std.specs.Prelude.{◌≡◌, IfOk};

use crate::status::Status;
use place_ids::Text;
use std::alloc::{AllocError, Global};

/// The texts for the two sinks, and the ending where both are written whole.
#[derive(Debug, Drop)]
pub struct Answer {
    pub status: Status,
    pub out: Text,
    pub note: Text,
}

impl Answer {
    ghost use Rattle.py_infer.specs.Answers.{clean, refused, unread, usage};

    /// The words aren't accepted.
    pub fn usage(alloc: Global) -> Result<Answer, AllocError>
        ensures { IfOk result (λ answer. answer ≡ usage) }
    {
        let mut note = Text::new(alloc);
        note.push(b"usage: py_infer COMMAND [OPTIONS] FILE [NAME=STUB ...]\n".as_slice())?;
        Ok(Answer {
            status: Status::Usage,
            out: Text::new(alloc),
            note,
        })
    }

    /// The file couldn't be read.
    pub fn unread(alloc: Global, file: &str) -> Result<Answer, AllocError>
        ensures { IfOk result (λ answer. answer ≡ unread file.now) }
    {
        let mut note = Text::new(alloc);
        note.push(file.as_bytes())?;
        note.push(b": cannot be read\n".as_slice())?;
        Ok(Answer {
            status: Status::ReadFault,
            out: Text::new(alloc),
            note,
        })
    }

    /// The file is refused, and this is said of it after its name.
    pub fn refused(alloc: Global, file: &str, report: &Text) -> Result<Answer, AllocError>
        ensures { IfOk result (λ answer. answer ≡ refused file.now report.now) }
    {
        let mut note = Text::new(alloc);
        note.push(file.as_bytes())?;
        note.push(report.bytes())?;
        Ok(Answer {
            status: Status::Refused,
            out: Text::new(alloc),
            note,
        })
    }

    /// The stub is written, and there is nothing to report.
    pub fn clean(alloc: Global, stub: Text) -> Answer
        ensures { result ≡ clean stub }
    {
        Answer {
            status: Status::Clean,
            out: stub,
            note: Text::new(alloc),
        }
    }
}
