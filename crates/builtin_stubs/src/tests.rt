//! The tables, row by row.
use super::*;
use place_ids::{BinOp, CompareOp, Id, Text, UnaryOp};
use std::test::Fail;
use type_terms::TypeTerm;

// Calls without their contracts, so that what a test asserts isn't computed in its proof too.

fn fun(name: &str) -> Option<u32> {
    Builtins.fun(name).map(|id| id.number())
}

fn method(kind: Basic, name: &str) -> Option<u32> {
    Builtins.attr(kind, name).map(|id| id.number())
}

fn unary(op: UnaryOp, kind: Basic) -> OpRow {
    Builtins.unary(op, kind)
}

fn compare(op: CompareOp, left: Basic, right: Basic) -> OpRow {
    Builtins.compare(op, left, right)
}

fn identity(left: Basic, right: Basic) -> Sameness {
    Builtins.identity(left, right)
}

fn items(kind: Basic) -> Option<Part> {
    Builtins.items_of(kind)
}

fn part_by(container: Basic, index: Basic) -> Option<Part> {
    Builtins.part_by(container, index)
}

fn part_of(container: Basic) -> Option<Part> {
    Builtins.part_of(container)
}

fn classes(kind: Basic) -> &'static [&'static str] {
    Builtins.classes_of(kind)
}

fn kind_of(term: &TypeTerm) -> Basic {
    Builtins.kind_of_type(term)
}

fn outside(name: &str) -> bool {
    Builtins.is_outside(name)
}

#[test]
fn functions_and_classes_have_their_numbers(rt: HostRuntime) {
    assert_eq!(rt; fun("print"), Some(0));
    assert_eq!(rt; fun("list"), Some(12));
    assert_eq!(rt; fun("BaseException"), Some(22));
    assert_eq!(rt; fun("KeyError"), Some(44));
    assert_eq!(rt; fun("UnicodeEncodeError"), Some(55));
    assert_eq!(rt; fun("base_init"), Some(56));
    assert_eq!(rt; fun("__file__"), Some(58));
    assert_eq!(rt; fun("append"), None);
    assert_eq!(rt; fun("abs"), None);
}

#[test]
fn methods_have_their_numbers(rt: HostRuntime) {
    assert_eq!(rt; method(Basic::List, "append"), Some(59));
    assert_eq!(rt; method(Basic::Dict, "get"), Some(70));
    assert_eq!(rt; method(Basic::Tuple, "index"), Some(79));
    assert_eq!(rt; method(Basic::Str, "capitalize"), Some(81));
    assert_eq!(rt; method(Basic::Str, "maketrans"), Some(127));
    assert_eq!(rt; method(Basic::Bytes, "decode"), Some(128));
    assert_eq!(rt; method(Basic::Int, "bit_length"), Some(136));
    assert_eq!(rt; method(Basic::Bool, "bit_length"), Some(136));
    assert_eq!(rt; method(Basic::Float, "is_integer"), Some(137));
    assert_eq!(rt; method(Basic::Exception, "args"), Some(138));
    assert_eq!(rt; method(Basic::Tuple, "append"), None);
    assert_eq!(rt; method(Basic::View, "index"), None);
}

// How a row is called: its sort, the bounds by position, how many names it has, and whether it takes any name.
fn called(number: u32) -> Option<(NativeSort, u32, Option<u32>, usize, bool)> {
    let row = Builtins.row(NativeId::new(number))?;
    Some((
        row.sort,
        row.least,
        row.most,
        row.words.len(),
        row.any_words,
    ))
}

#[test]
fn rows_say_how_they_are_called(rt: HostRuntime) {
    assert_eq!(rt; called(0), Some((NativeSort::Function, 0, None, 0, true)));
    assert_eq!(rt;
        called(7),
        Some((NativeSort::Function, 1, Some(1), 1, false))
    );
    assert_eq!(rt; called(8), Some((NativeSort::Function, 1, None, 0, false)));
    assert_eq!(rt; called(14), Some((NativeSort::Class, 0, Some(1), 0, true)));
    assert_eq!(rt; called(20), Some((NativeSort::Class, 1, Some(3), 0, false)));
    assert_eq!(rt; called(44), Some((NativeSort::Class, 0, None, 0, false)));
    assert_eq!(rt; called(57), Some((NativeSort::Value, 0, Some(0), 0, false)));
    assert_eq!(rt;
        called(60),
        Some((NativeSort::Method, 2, Some(2), 0, false))
    );
    assert_eq!(rt;
        called(138),
        Some((NativeSort::Value, 0, Some(0), 0, false))
    );
    assert_eq!(rt; called(139), Some((NativeSort::Method, 0, None, 0, true)));
    assert_eq!(rt; called(140), None);
}

// The kinds that an operator gives, as a list that is empty at a fault.
fn kinds(op: BinOp, left: Basic, right: Basic) -> &'static [Basic] {
    match Builtins.binary(op, left, right) {
        OpRow::Kinds(kinds) => kinds,
        OpRow::Fault => &[],
    }
}

// The kinds that an operator gives for the pairs of bool, int and float, the left one first.
fn of_numbers(op: BinOp) -> [&'static [Basic]; 9] {
    [
        kinds(op, Basic::Bool, Basic::Bool),
        kinds(op, Basic::Bool, Basic::Int),
        kinds(op, Basic::Bool, Basic::Float),
        kinds(op, Basic::Int, Basic::Bool),
        kinds(op, Basic::Int, Basic::Int),
        kinds(op, Basic::Int, Basic::Float),
        kinds(op, Basic::Float, Basic::Bool),
        kinds(op, Basic::Float, Basic::Int),
        kinds(op, Basic::Float, Basic::Float),
    ]
}

const NONE: &[Basic] = &[];

const BOOL: &[Basic] = &[Basic::Bool];

const INT: &[Basic] = &[Basic::Int];

const FLOAT: &[Basic] = &[Basic::Float];

const POWER: &[Basic] = &[Basic::Int, Basic::Float];

#[test]
fn numbers_give_numbers(rt: HostRuntime) {
    let arithmetic = [INT, INT, FLOAT, INT, INT, FLOAT, FLOAT, FLOAT, FLOAT];
    assert_eq!(rt; of_numbers(BinOp::Add), arithmetic);
    assert_eq!(rt; of_numbers(BinOp::Sub), arithmetic);
    assert_eq!(rt; of_numbers(BinOp::Mul), arithmetic);
    assert_eq!(rt; of_numbers(BinOp::FloorDiv), arithmetic);
    assert_eq!(rt; of_numbers(BinOp::Mod), arithmetic);
    assert_eq!(rt; of_numbers(BinOp::Div), [FLOAT; 9]);
    assert_eq!(rt;
        of_numbers(BinOp::Pow),
        [
            POWER, POWER, FLOAT, POWER, POWER, FLOAT, FLOAT, FLOAT, FLOAT
        ]
    );
    let bitwise = [BOOL, INT, NONE, INT, INT, NONE, NONE, NONE, NONE];
    assert_eq!(rt; of_numbers(BinOp::BitAnd), bitwise);
    assert_eq!(rt; of_numbers(BinOp::BitOr), bitwise);
    assert_eq!(rt; of_numbers(BinOp::BitXor), bitwise);
    let shifts = [INT, INT, NONE, INT, INT, NONE, NONE, NONE, NONE];
    assert_eq!(rt; of_numbers(BinOp::ShiftLeft), shifts);
    assert_eq!(rt; of_numbers(BinOp::ShiftRight), shifts);
    assert_eq!(rt; of_numbers(BinOp::MatMul), [NONE; 9]);
}

// What `+`, `*` with an int on either side, and `%` with None give for a kind.
fn of_rows(kind: Basic) -> [&'static [Basic]; 4] {
    [
        kinds(BinOp::Add, kind, kind),
        kinds(BinOp::Mul, kind, Basic::Int),
        kinds(BinOp::Mul, Basic::Bool, kind),
        kinds(BinOp::Mod, kind, Basic::NoneKind),
    ]
}

#[test]
fn texts_and_lists_are_joined_and_repeated(rt: HostRuntime) {
    let text: &[Basic] = &[Basic::Str];
    let bytes: &[Basic] = &[Basic::Bytes];
    let list: &[Basic] = &[Basic::List];
    let tuple: &[Basic] = &[Basic::Tuple];
    assert_eq!(rt; of_rows(Basic::Str), [text; 4]);
    assert_eq!(rt; of_rows(Basic::Bytes), [bytes; 4]);
    assert_eq!(rt; of_rows(Basic::List), [list, list, list, NONE]);
    assert_eq!(rt; of_rows(Basic::Tuple), [tuple, tuple, tuple, NONE]);
    assert_eq!(rt; of_rows(Basic::Dict), [NONE; 4]);
    assert_eq!(rt; kinds(BinOp::Add, Basic::Str, Basic::Bytes), NONE);
    assert_eq!(rt; kinds(BinOp::Mul, Basic::Str, Basic::Float), NONE);
    assert_eq!(rt; kinds(BinOp::Mod, Basic::Str, Basic::Other), text);
}

#[test]
fn names_outside_are_told(rt: HostRuntime) {
    let names = [
        "abs",
        "hash",
        "open",
        "vars",
        "IOError",
        "__import__",
        "__doc__",
    ];
    assert!(rt; names.iter().all(|name| outside(name)));
    assert!(rt; !outside("print"));
}

fn deed(kind: Basic, name: &str) -> Option<Deed> {
    Some(Builtins.row(Builtins.attr(kind, name)?)?.deed)
}

fn first_effect(kind: Basic, name: &str) -> Option<Effect> {
    deed(kind, name)?.effects().at(0)
}

fn second_effect(kind: Basic, name: &str) -> Option<Effect> {
    deed(kind, name)?.effects().at(1)
}

fn enters(place: Place, part: Part) -> Option<Effect> {
    Some(Effect { place, part })
}

fn outcome(kind: Basic, name: &str) -> Option<Outcome> {
    Some(deed(kind, name)?.outcome())
}

#[test]
fn methods_of_lists_say_what_they_do(rt: HostRuntime) {
    let none = Some(Outcome::Gives(Parts::One(Part::Kind(Basic::NoneKind))));
    let argument = enters(Place::Elements, Part::Argument(0));
    assert_eq!(rt; first_effect(Basic::List, "append"), argument);
    assert_eq!(rt; second_effect(Basic::List, "append"), None);
    assert_eq!(rt; outcome(Basic::List, "append"), none);
    let later = enters(Place::Elements, Part::Argument(1));
    assert_eq!(rt; first_effect(Basic::List, "insert"), later);
    assert_eq!(rt; outcome(Basic::List, "insert"), none);
    let items = enters(Place::Elements, Part::Items(0));
    assert_eq!(rt; first_effect(Basic::List, "extend"), items);
    let elements = Parts::One(Part::OwnElements);
    assert_eq!(rt; outcome(Basic::List, "pop"), Some(Outcome::Gives(elements)));
    assert_eq!(rt;
        outcome(Basic::List, "copy"),
        Some(Outcome::NewList(elements))
    );
    assert_eq!(rt; first_effect(Basic::List, "clear"), None);
}

#[test]
fn methods_of_dicts_say_what_they_do(rt: HostRuntime) {
    let value = Part::OwnValues;
    let got = Outcome::Gives(Parts::Two(value, Part::ArgumentOrNone(1)));
    assert_eq!(rt; outcome(Basic::Dict, "get"), Some(got));
    let given = Outcome::Gives(Parts::Two(value, Part::Argument(1)));
    assert_eq!(rt; outcome(Basic::Dict, "pop"), Some(given));
    assert_eq!(rt; outcome(Basic::Dict, "setdefault"), Some(given));
    let key = enters(Place::Keys, Part::Argument(0));
    assert_eq!(rt; first_effect(Basic::Dict, "setdefault"), key);
    let default = enters(Place::Values, Part::Argument(1));
    assert_eq!(rt; second_effect(Basic::Dict, "setdefault"), default);
    let keys = enters(Place::Keys, Part::Keys(0));
    assert_eq!(rt; first_effect(Basic::Dict, "update"), keys);
    let values = enters(Place::Values, Part::Values(0));
    assert_eq!(rt; second_effect(Basic::Dict, "update"), values);
    let views = Outcome::View(Parts::One(Part::OwnKeys));
    assert_eq!(rt; outcome(Basic::Dict, "keys"), Some(views));
    assert_eq!(rt; Parts::Two(value, Part::OwnKeys).at(1), Some(Part::OwnKeys));
    assert_eq!(rt; Parts::One(value).at(1), None);
}

const FAULT: OpRow = OpRow::Fault;

#[test]
fn signs_and_comparisons_give_by_kinds(rt: HostRuntime) {
    assert_eq!(rt; unary(UnaryOp::Minus, Basic::Bool), OpRow::Kinds(INT));
    assert_eq!(rt; unary(UnaryOp::Plus, Basic::Float), OpRow::Kinds(FLOAT));
    assert_eq!(rt; unary(UnaryOp::Invert, Basic::Float), FAULT);
    let (yes, less) = (OpRow::Kinds(BOOL), CompareOp::Less);
    assert_eq!(rt; compare(less, Basic::Bool, Basic::Float), yes);
    assert_eq!(rt; compare(less, Basic::Str, Basic::Str), yes);
    assert_eq!(rt; compare(less, Basic::Int, Basic::Str), FAULT);
    assert_eq!(rt; compare(less, Basic::Dict, Basic::Dict), FAULT);
    assert_eq!(rt; compare(CompareOp::Equal, Basic::Int, Basic::Other), yes);
    let within = CompareOp::Within;
    assert_eq!(rt; compare(within, Basic::Other, Basic::View), yes);
    assert_eq!(rt; compare(within, Basic::Int, Basic::Bytes), yes);
    assert_eq!(rt; compare(within, Basic::Int, Basic::Str), FAULT);
    assert_eq!(rt; compare(within, Basic::Str, Basic::Int), FAULT);
    let none = Basic::NoneKind;
    assert_eq!(rt; identity(none, none), Sameness::Same);
    assert_eq!(rt; identity(Basic::Int, none), Sameness::Different);
    assert_eq!(rt; identity(Basic::Bool, Basic::Bool), Sameness::AsTruths);
    assert_eq!(rt; identity(Basic::Int, Basic::Int), Sameness::Unknown);
}

#[test]
fn containers_give_by_kinds(rt: HostRuntime) {
    let element = Some(Part::OwnElements);
    assert_eq!(rt; items(Basic::Tuple), element);
    assert_eq!(rt; items(Basic::Dict), Some(Part::OwnKeys));
    assert_eq!(rt; items(Basic::Bytes), Some(Part::Kind(Basic::Int)));
    assert_eq!(rt; items(Basic::Exception), None);
    assert_eq!(rt; part_by(Basic::List, Basic::Bool), element);
    assert_eq!(rt; part_by(Basic::List, Basic::Str), None);
    assert_eq!(rt; part_by(Basic::Dict, Basic::Tuple), Some(Part::OwnValues));
    assert_eq!(rt; part_by(Basic::Dict, Basic::List), None);
    assert_eq!(rt; part_of(Basic::Str), Some(Part::Kind(Basic::Str)));
    assert_eq!(rt; part_of(Basic::View), None);
    let truth = classes(Basic::Bool);
    assert!(rt; truth.iter().any(|class| *class == "int"));
    assert_eq!(rt; truth.len(), 2);
    assert_eq!(rt; classes(Basic::Other).len(), 0);
}

#[test]
fn declared_types_have_kinds(rt: HostRuntime) -> Result<(), Fail> {
    let mut class = Text::new(rt.alloc());
    class.push(b"KeyError")?;
    let error = TypeTerm::Class(class);
    assert_eq!(rt; kind_of(&error), Basic::Exception);
    let mut other = Text::new(rt.alloc());
    other.push(b"geo.Point")?;
    assert_eq!(rt; kind_of(&TypeTerm::Class(other)), Basic::Other);
    assert_eq!(rt; kind_of(&TypeTerm::NoneTerm), Basic::NoneKind);
    let items = Box::new(rt.alloc(), TypeTerm::Any)?;
    assert_eq!(rt; kind_of(&TypeTerm::TupleOf(items)), Basic::Tuple);
    Ok(())
}
