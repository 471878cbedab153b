//! The instructions of stack code.
use place_ids::{BinOp, ClassId, CompareOp, FunId, NameId, SiteId, UnaryOp};
use sqlite_items::Items;

/// What a constant is. Its number or text is not kept.
#[derive(Clone, Copy, Debug, PartialEq, Eq)]
pub enum ConstKind {
    NoneValue,
    TrueValue,
    FalseValue,
    Int,
    Float,
    Str,
    Bytes,
}

/// An instruction. The number of a jump is the place of its goal, that of a local is the local's number. A `SiteId` is the site at which the instruction may make a list, a dict, a tuple or a view.
#[derive(Debug, Drop)]
pub enum Op {
    Const(ConstKind),
    Fun(FunId),
    Class(ClassId),
    /// Gives the parameter that is the local of that number its argument.
    Param(u32),
    LoadLocal(u32),
    StoreLocal(u32),
    ForgetLocal(u32),
    LoadName(NameId),
    StoreName(NameId),
    ForgetName(NameId),
    StoreGlobal(NameId),
    ForgetGlobal(NameId),
    /// A copy of the slot that stands so many below the top.
    Pick(u32),
    Pop,
    Unary(UnaryOp),
    Not,
    Binary(BinOp, SiteId),
    InPlace(BinOp, SiteId),
    Compare(CompareOp),
    Jump(u32),
    JumpIfFalse(u32),
    JumpIfTrue(u32),
    /// Leaves the top on the stack where it jumps.
    JumpIfFalseKeep(u32),
    /// Leaves the top on the stack where it jumps.
    JumpIfTrueKeep(u32),
    /// Pushes the next element, or takes the iterable off and jumps.
    ForNext(u32),
    Attr(NameId),
    /// `super().name`
    Super(NameId),
    /// The object stands below the value.
    StoreAttr(NameId),
    StoreMember(ClassId, NameId),
    /// The container stands below the index.
    Item,
    /// The container, the index and the value stand in this order.
    StoreItem,
    /// What is sliced, and the two bounds and the step.
    Slice(SiteId),
    NewTuple(u32, SiteId),
    NewList(u32, SiteId),
    /// The number of pairs. Each key stands below its value.
    NewDict(u32, SiteId),
    /// The part of that number, of so many, of the value that stands below the parts that come after it.
    Part(u32, u32),
    /// The number of arguments without keyword, and the keywords of the others in order. The callee stands below the arguments.
    Call(u32, Items<NameId>, SiteId),
    Return,
    /// Makes an instance of a class that is to be raised.
    MakeRaised(SiteId),
    Raise,
    Reraise,
    /// The exception under way.
    Caught,
    /// Whether the exception, which stays, is one of the class above it.
    MatchError,
    Import(Items<NameId>),
    /// A name of a module.
    ImportFrom(Items<NameId>, NameId),
    End,
}
