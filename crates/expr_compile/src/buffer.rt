//! Code as it grows, with jumps that are aimed once their goal is known.
ghost use Rattle.std.specs.Prelude.{◌≡◌, ◌<◌, ◌≤◌, ◌++◌, ◌∷◌, [], ℕ, true, IfOk, OnOk, length, map};
ghost use Rattle.expr_compile.specs.Emitted.{with_instr, with_aim};
ghost use Rattle.expr_compile.specs.Jumps.{turned_at, landed, with_leave, left, unset, with_range};
ghost use Rattle.expr_compile.specs.Finished.{code_of, AreShort, IsShort};

use place_ids::LineNo;
use sqlite_items::Items;
use stack_code::{Code, Op, Range};
use std::alloc::{AllocError, Global};
use std::marker::Model;
use tree_code::Instr;

/// So long code is taken for want of memory; the text of a module is far too short for it.
const LIMIT: usize = 4294967294;

/// The places, the ranges and the depths of code are fewer.
const COUNT: usize = 4294967295;

/// Instructions and ranges so far, and the places of the jumps that leave the innermost loop.
#[derive(Drop)]
pub struct Buffer {
    alloc: Global,
    instrs: Items<Instr>,
    ranges: Items<Range>,
    leaves: Items<u32>,
}

impl Model for Buffer {
    ghost use Rattle.std.specs.Prelude.{◌≤◌, length};
    ghost use Rattle.expr_compile.specs.Emitted.{Emitted};

    ghost Value = { Emitted };

    ghost view = { λ b. record { instrs = b.instrs; ranges = b.ranges; leaves = b.leaves } };

    ghost invariant = { λ b. length b.instrs ≤ 4294967294 };
}

impl Buffer {
    pub fn new(alloc: Global) -> Buffer
        ensures { result ≡ record { instrs = []; ranges = []; leaves = [] } }
    {
        Buffer {
            alloc,
            instrs: Items::new(alloc),
            ranges: Items::new(alloc),
            leaves: Items::new(alloc),
        }
    }

    pub fn alloc(&self) -> Global {
        self.alloc
    }

    /// The place of the next instruction.
    pub fn place(&self) -> u32
        ensures { result ≡ length self.now.instrs }
    {
        self.instrs.len() as u32
    }

    pub fn push(&mut self, op: Op, line: LineNo) -> Result<(), AllocError>
        ensures { OnOk result (self.new ≡ with_instr op line self.old) }
    {
        if self.instrs.len() >= LIMIT {
            return Err(AllocError);
        }
        self.instrs.push(Instr { op, line })
    }

    /// Puts a jump that is yet to be aimed, and answers its place.
    pub fn push_open(&mut self, op: Op, line: LineNo) -> Result<u32, AllocError>
        ensures pushed { OnOk result (self.new ≡ with_instr op line self.old) }
        ensures at { IfOk result (λ place. place ≡ length self.old.instrs) }
    {
        let place = self.place();
        self.push(op, line)?;
        Ok(place)
    }

    /// Aims a jump, by putting it again with its goal.
    pub fn aim(&mut self, place: u32, op: Op, line: LineNo)
        requires { place < length self.old.instrs }
        ensures { self.new ≡ with_aim place op line self.old }
    {
        self.instrs.set(place as usize, Instr { op, line });
    }

    /// Plain jumps at these places lead to the next place.
    pub fn land(&mut self, places: &[u32])
        ensures { self.new ≡ landed places.now self.old }
    {
        let goal = self.place();
        for place in places {
            self.retarget(*place, goal);
        }
    }

    // A plain jump leads to a place, and keeps its line.
    fn retarget(&mut self, place: u32, goal: u32)
        ensures { self.new ≡ turned_at goal place self.old }
    {
        if let Some(instr) = self.instrs.get(place as usize) {
            let line = instr.line;
            self.aim(place, Op::Jump(goal), line);
        }
    }

    /// Puts a jump that leaves the innermost loop.
    pub fn push_leave(&mut self, line: LineNo) -> Result<(), AllocError>
        ensures { OnOk result (self.new ≡ with_leave line self.old) }
    {
        let place = self.push_open(Op::Jump(0), line)?;
        self.leaves.push(place)
    }

    /// Begins a loop, and gives the jumps that leave the one around it.
    pub fn open_loop(&mut self) -> Items<u32>
        ensures outer { result ≡ self.old.leaves }
        ensures opened { self.new ≡ record self.old { leaves = [] } }
    {
        std::mem::replace(&mut self.leaves, Items::new(self.alloc))
    }

    /// Ends a loop: the jumps that leave it lead to the next place.
    pub fn close_loop(&mut self, outer: Items<u32>)
        ensures { self.new ≡ left outer self.old }
    {
        let leaves = std::mem::replace(&mut self.leaves, outer);
        self.land(leaves.as_slice());
    }

    /// Begins a range at the next place, which is to be set, and answers its number.
    pub fn open_range(&mut self) -> Result<usize, AllocError>
        ensures pushed { OnOk result (self.new ≡ record self.old { ranges = self.old.ranges ++ unset (length self.old.instrs) ∷ [] }) }
        ensures at { IfOk result (λ number. number ≡ length self.old.ranges) }
    {
        let number = self.ranges.len();
        let place = self.place();
        self.ranges.push(Range {
            first: place,
            past: place,
            goal: place,
            depth: 0,
        })?;
        Ok(number)
    }

    /// Sets a range that was begun.
    pub fn set_range(&mut self, number: usize, range: Range)
        ensures { self.new ≡ with_range number range self.old }
    {
        if number < self.ranges.len() {
            self.ranges.set(number, range);
        }
    }

    /// The code that it has become. Code that is too long for its depths to be counted is taken for want of memory.
    pub fn finish(self, locals: u32, params: u32) -> Result<Code, AllocError>
        ensures code { IfOk result (λ code. code ≡ code_of self locals params) }
        ensures short { IfOk result (λ code. IsShort code) }
    {
        let Buffer {
            alloc,
            mut instrs,
            ranges,
            leaves: _,
        } = self;
        if !is_short(instrs.len(), ranges.as_slice()) {
            return Err(AllocError);
        }
        let (ops, lines) = split(alloc, &mut instrs)?;
        Ok(Code {
            ops,
            lines,
            ranges,
            locals,
            params,
        })
    }
}

// Whether there are so few places and ranges that numbers of 32 bits count them, and the depths of each place.
fn is_short(places: usize, ranges: &[Range]) -> bool
    requires { places ≤ 4294967294 }
    ensures { result ≡ true → AreShort places ranges.now }
{
    ranges.len() < COUNT
        && ranges
            .iter()
            .all(|range| places + (range.depth as usize) < COUNT)
}

// The instructions and their lines.
fn split(alloc: Global, instrs: &mut Items<Instr>) -> Result<(Items<Op>, Items<LineNo>), AllocError>
    ensures { IfOk result (λ parts. (parts.0 ≡ map (λ i. i.op) instrs.old) × (parts.1 ≡ map (λ i. i.line) instrs.old)) }
{
    let mut ops = Vec::new(alloc);
    let mut lines = Vec::new(alloc);
    while let Some(Instr { op, line }) = instrs.pop() {
        ops.push(op)?;
        lines.push(line)?;
    }
    ops.reverse();
    lines.reverse();
    Ok((Items::from_vec(ops), Items::from_vec(lines)))
}
