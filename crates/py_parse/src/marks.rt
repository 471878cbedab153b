//! What the names of refusals ask of a place.

/// What may begin at a place, and what has just ended there.
#[derive(Clone, Copy)]
pub(crate) enum Mark {
    Statement,
    /// A part of a class body.
    Member,
    /// An argument, an element, a pair or a target.
    Element,
    Test,
    /// A part of `super().name` after its first word.
    Super,
    /// The colon after the first test in braces.
    FirstColon,
    /// `as` after a dotted name.
    Alias,
    /// A comparison has ended.
    Comparison,
    /// A slice has ended.
    Slice,
    /// The block of a loop has ended.
    Loop,
}

/// The marks of one place.
#[derive(Clone, Copy)]
pub(crate) struct Marks {
    pub(crate) statement: bool,
    pub(crate) member: bool,
    pub(crate) element: bool,
    pub(crate) test: bool,
    pub(crate) super_form: bool,
    pub(crate) first_colon: bool,
    pub(crate) alias: bool,
    pub(crate) comparison: bool,
    pub(crate) slice: bool,
    pub(crate) loop_block: bool,
}

impl Marks {
    /// A place that nothing is known of.
    pub(crate) const NONE: Marks = Marks {
        statement: false,
        member: false,
        element: false,
        test: false,
        super_form: false,
        first_colon: false,
        alias: false,
        comparison: false,
        slice: false,
        loop_block: false,
    };

    pub(crate) fn set(&mut self, mark: Mark) {
        match mark {
            Mark::Statement => self.statement = true,
            Mark::Member => self.member = true,
            Mark::Element => self.element = true,
            Mark::Test => self.test = true,
            Mark::Super => self.super_form = true,
            Mark::FirstColon => self.first_colon = true,
            Mark::Alias => self.alias = true,
            Mark::Comparison => self.comparison = true,
            Mark::Slice => self.slice = true,
            Mark::Loop => self.loop_block = true,
        }
    }
}

/// The brackets of a header.
#[derive(Clone, Copy)]
pub(crate) enum Header {
    /// Those of a function's parameters.
    Params,
    /// Those of a class's base.
    Bases,
}
