//! The methods of a class.
ghost use Rattle.std.specs.Prelude.{◌≡◌, ℕ, nat_eq, IfOk};
ghost use Rattle.indexmap.specs.IndexMap.{get};
ghost use Rattle.scope_rules.specs.Tables as spec;

use crate::first_values::put_first;
use crate::rows::Rows;
use indexmap::IndexMap;
use place_ids::{FunId, NameId};
use scope_rules::MethodRow;
use std::alloc::{AllocError, Global};
use std::marker::Model;

/// Methods in the order of the text, with an index by name.
#[derive(Debug, Drop)]
pub struct Methods {
    rows: Rows<MethodRow>,
    /// The first one of each name.
    first: IndexMap<NameId, FunId>,
}

impl Model for Methods {
    ghost use Rattle.std.specs.Prelude.{List, ℕ, ◌≡◌, nat_eq};
    ghost use Rattle.indexmap.specs.IndexMap.{get};
    ghost use Rattle.scope_rules.specs.declared.method_row.MethodRow.{MethodRow};
    ghost use Rattle.scope_rules.specs.Tables.{method_named};

    ghost Value = { List MethodRow };

    ghost view = { λ methods. methods.rows };

    ghost invariant = { λ methods. (name : ℕ) → get nat_eq methods.first name ≡ method_named methods.rows name };
}

impl Methods {
    pub fn new(alloc: Global, rows: Rows<MethodRow>) -> Result<Methods, AllocError>
        ensures { IfOk result (λ methods. methods ≡ rows) }
    {
        let first = first_by_name(alloc, rows.items())?;
        Ok(Methods { rows, first })
    }

    /// The first method of a name.
    pub fn named(&self, name: NameId) -> Option<FunId>
        ensures { result ≡ spec.method_named self.now name }
    {
        self.first.get(&name).copied()
    }

    pub fn copy(&self) -> Result<Methods, AllocError>
        ensures { IfOk result (λ methods. methods ≡ self.now) }
    {
        let rows = self.rows.copy()?;
        Methods::new(self.rows.allocator(), rows)
    }
}

fn first_by_name(alloc: Global, rows: &[MethodRow]) -> Result<IndexMap<NameId, FunId>, AllocError>
    ensures { IfOk result (λ first. (name : ℕ) → get nat_eq first name ≡ spec.method_named rows.now name) }
{
    let mut first = IndexMap::new(alloc);
    for row in rows {
        put_first(&mut first, row.name, row.fun)?;
    }
    Ok(first)
}
