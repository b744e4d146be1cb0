ghost use Rattle.std.specs.Prelude.{◌≡◌, ◌↔◌, ◌⊎◌, [], IsTrue, Contains, OnOk, OnErr};
ghost use Rattle.heap_model.specs.declared.id.Id.{Id as Ids};

use crate::id::Id;
use std::alloc::{AllocError, Global};
use std::collections::BTreeSet;
use std::marker::Model;

/// The arrays that have swung in the phase.
#[derive(Drop)]
pub struct Swung {
    ids: BTreeSet<Id>,
}

impl Model for Swung {
    ghost use Rattle.std.specs.Prelude.{List};
    ghost use Rattle.heap_model.specs.declared.id.Id.{Id as Ids};

    ghost Value = { List Ids };

    ghost view = { λ s. s.ids.keys };
}

impl Swung {
    pub fn new(alloc: Global) -> Swung
        ensures { result ≡ [] }
    {
        Swung {
            ids: BTreeSet::new(alloc),
        }
    }

    pub fn has(&self, id: Id) -> bool
        ensures { IsTrue result ↔ Contains self.now id }
    {
        self.ids.contains(&id)
    }

    pub fn add(&mut self, id: Id) -> Result<(), AllocError>
        ensures added { OnOk result ((other : Ids) → Contains self.new other ↔ Contains self.old other ⊎ (other ≡ id)) }
        ensures unchanged { OnErr result (self.new ≡ self.old) }
    {
        self.ids.insert(id)?;
        Ok(())
    }

    pub fn clear(&mut self)
        ensures { self.new ≡ [] }
    {
        self.ids.clear();
    }
}
