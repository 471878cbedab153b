//! The shapes that the tables speak of.
ghost use Rattle.std.specs.Prelude.{◌≡◌, ℕ, false, codes, IfOk};
ghost use Rattle.std.specs.Str.{bytes_eq};
ghost use Rattle.type_terms.specs.Terms.{class};
ghost use Rattle.type_terms.specs.View.{term_view};
ghost use Rattle.abstract_shapes.specs.Numbering.{IsOuter, IsThere};

use abstract_shapes::{Shape, Shapes};
use place_ids::{FunId, Id, SiteId, Text};
use std::alloc::{AllocError, Global};
use std::test::Fail;
use type_terms::TypeTerm;

/// The letters of the kinds, in the order of the columns: None, bool, int, float, str, bytes, list, dict, tuple, view, range,
/// exception, and any other. A shape of each stands under the number of its column; True stands for bool.
pub const LETTERS: &[u8; 13] = b"nbifsyldtvreo";

/// An instance of a stub's class, which operators don't follow.
pub const STUB_INSTANCE: u32 = 13;
/// A value from outside of no declared type.
pub const OUTSIDE: u32 = 14;
/// Any value.
pub const ANY: u32 = 15;

fn text(alloc: Global, words: &str) -> Result<Text, AllocError>
    ensures { IfOk result (λ made. made ≡ words.now) }
{
    let mut made = Text::new(alloc);
    made.push(words.as_bytes())?;
    Ok(made)
}

fn class_named(alloc: Global, name: &str) -> Result<TypeTerm, AllocError>
    ensures { IfOk result (λ made. term_view made ≡ class name.now) }
{
    Ok(TypeTerm::Class(text(alloc, name)?))
}

// A value from outside of a class.
fn given_class(alloc: Global, name: &str) -> Result<Shape, AllocError>
    requires { bytes_eq (codes "object") name.now ≡ false }
    ensures outer { IfOk result IsOuter }
    ensures there { IfOk result (λ shape. (count : ℕ) → IsThere count shape) }
{
    Ok(Shape::Given(class_named(alloc, name)?))
}

fn add_basic(shapes: &mut Shapes) -> Result<(), Fail> {
    shapes.intern(Shape::NoneValue)?;
    shapes.intern(Shape::TrueValue)?;
    shapes.intern(Shape::Int)?;
    shapes.intern(Shape::Float)?;
    shapes.intern(Shape::Str)?;
    shapes.intern(Shape::Bytes)?;
    Ok(())
}

fn add_made(alloc: Global, shapes: &mut Shapes) -> Result<(), Fail> {
    let site = SiteId::new(1);
    shapes.intern(Shape::List(site))?;
    shapes.intern(Shape::Dict(site))?;
    shapes.intern(Shape::Tuple(site, None))?;
    shapes.intern(Shape::View(site))?;
    shapes.intern(given_class(alloc, "range")?)?;
    shapes.intern(given_class(alloc, "KeyError")?)?;
    shapes.intern(Shape::Fun(FunId::new(0)))?;
    Ok(())
}

fn add_unfollowed(alloc: Global, shapes: &mut Shapes) -> Result<(), Fail> {
    shapes.intern(given_class(alloc, "m.C")?)?;
    shapes.intern(Shape::Ext)?;
    shapes.intern(Shape::Any)?;
    Ok(())
}

/// A shape of each kind, and the shapes that operators don't follow, under the numbers of the constants.
pub fn all_shapes(alloc: Global) -> Result<Shapes, Fail> {
    let mut shapes = Shapes::new(alloc);
    add_basic(&mut shapes)?;
    add_made(alloc, &mut shapes)?;
    add_unfollowed(alloc, &mut shapes)?;
    Ok(shapes)
}
