//! How much a graph has, as far as 32 bits count.
ghost use Rattle.std.specs.Prelude.{◌≡◌, ◌≢◌, ◌+◌, ◌-◌, ◌^◌, ◌<◌};

use place_ids::{ContextId, Id};
use std::marker::Model;

/// The contexts, and all items.
#[derive(Debug, Drop)]
pub struct Counts {
    contexts: u32,
    items: u32,
}

impl Model for Counts {
    ghost use Rattle.typegraph.specs.Kept.{CountPair};

    ghost Value = { CountPair };

    ghost view = { λ c. record { contexts = c.contexts; items = c.items } };
}

impl Counts {
    pub fn new() -> Counts
        ensures { result ≡ record { contexts = 0; items = 0 } }
    {
        Counts {
            contexts: 0,
            items: 0,
        }
    }

    pub fn items(&self) -> u32
        ensures { result ≡ self.now.items }
    {
        self.items
    }

    /// One item more.
    pub fn add_item(&mut self)
        ensures contexts { self.new.contexts ≡ self.old.contexts }
        ensures more { self.old.items < 2 ^ 32 - 1 → self.new.items ≡ self.old.items + 1 }
        ensures full { self.old.items ≡ 2 ^ 32 - 1 → self.new.items ≡ 2 ^ 32 - 1 }
    {
        self.items = self.items.saturating_add(1);
    }

    /// A context that was asked for: it is new where its id is the next one.
    pub fn add_context(&mut self, id: ContextId)
        ensures known { id ≢ self.old.contexts → self.new ≡ self.old }
        ensures contexts { id ≡ self.old.contexts → id < 2 ^ 32 - 1 → self.new.contexts ≡ self.old.contexts + 1 }
        ensures more { id ≡ self.old.contexts → self.old.items < 2 ^ 32 - 1 → self.new.items ≡ self.old.items + 1 }
        ensures full { id ≡ self.old.contexts → self.old.items ≡ 2 ^ 32 - 1 → self.new.items ≡ 2 ^ 32 - 1 }
    {
        if id.number() == self.contexts {
            self.contexts = self.contexts.saturating_add(1);
            self.items = self.items.saturating_add(1);
        }
    }
}
