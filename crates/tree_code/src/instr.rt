//! An instruction with its line.
use place_ids::LineNo;
use stack_code::Op;

/// An instruction, and the line of what it belongs to.
#[derive(Debug, Drop)]
pub struct Instr {
    pub op: Op,
    pub line: LineNo,
}
