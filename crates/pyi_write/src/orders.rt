//! Texts and names in the order of their bytes.
ghost use Rattle.std.specs.Borrow.{Bor};
ghost use Rattle.std.specs.Prelude.{◌≡◌, List, ℕ, [], map, not, IfOk, OnOk};
ghost use Rattle.std.specs.HashSet.{contains_by};
ghost use Rattle.std.specs.List.{filter};
ghost use Rattle.std.specs.Str.{bytes_eq};
ghost use Rattle.type_terms.specs.Stubs.{name_view, fun_view};
ghost use Rattle.pyi_write.specs.Orders.{in_order, is_fun, shown};

use std::alloc::{AllocError, Global};
use std::collections::HashSet;
use type_terms::{StubFun, StubName};

/// The texts in order, each once.
pub(crate) fn in_order<'a>(alloc: Global, texts: &[&'a [u8]]) -> Result<Vec<&'a [u8]>, AllocError>
    ensures { IfOk result (λ ordered. map (λ text. text.now) ordered.items ≡ in_order (map (λ text. text.now) texts.now)) }
{
    let mut ordered = Vec::from_slice(alloc, texts)?;
    ordered.sort_unstable();
    ordered.dedup();
    Ok(ordered)
}

/// The names in order, without those that one of the functions has.
pub(crate) fn shown<'a>(
    alloc: Global,
    funs: &[StubFun],
    names: &'a [StubName],
) -> Result<Vec<&'a StubName>, AllocError>
    ensures { IfOk result (λ ordered. map (λ name. name_view name.now) ordered.items ≡ shown (map fun_view funs.now) (map name_view names.now)) }
{
    let mut ordered = without_funs(alloc, funs, names)?;
    sort(&mut ordered)?;
    Ok(ordered)
}

// The names that none of the functions has.
fn without_funs<'a>(
    alloc: Global,
    funs: &[StubFun],
    names: &'a [StubName],
) -> Result<Vec<&'a StubName>, AllocError>
    ensures { IfOk result (λ kept. map (λ name. name_view name.now) kept.items ≡ filter (λ name. not (is_fun (map fun_view funs.now) name.name)) (map name_view names.now)) }
{
    let taken = fun_names(alloc, funs)?;
    let mut kept = Vec::new(alloc);
    for name in names {
        if !taken.contains(&name.name.bytes()) {
            kept.push(name)?;
        }
    }
    Ok(kept)
}

fn fun_names<'a>(alloc: Global, funs: &'a [StubFun]) -> Result<HashSet<&'a [u8]>, AllocError>
    ensures { IfOk result (λ taken. (name : Bor (List ℕ)) → contains_by (λ text. bytes_eq name.now text.now) taken ≡ is_fun (map fun_view funs.now) name.now) }
{
    let mut taken = HashSet::new(alloc);
    for fun in funs {
        taken.insert(fun.name.bytes())?;
    }
    Ok(taken)
}

// Sorts names, where those that have the same text keep their order.
fn sort(names: &mut Vec<&StubName>) -> Result<(), AllocError>
    ensures { OnOk result (map (λ name. name_view name.now) names.new.items ≡ shown [] (map (λ name. name_view name.now) names.old.items)) }
{
    names.sort_by(|first, second| first.name.bytes().cmp(second.name.bytes()))?;
    Ok(())
}
