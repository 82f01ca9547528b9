//! The settings of the trace sources, each its own.
ghost use Rattle.std.specs.Prelude.{◌≡◌, ◌≢◌, ◌-◌, ℕ, replicate, slice_set};
ghost use Rattle.etm_types.specs.Id.{IsId};
ghost use Rattle.etm_types.specs.Settings.{AreSettings};
ghost use Rattle.etm_types.specs.SettingsTable.{IsTable, sizes_at};

use crate::{Id, Settings};
use std::marker::Model;

/// How many IDs trace sources have, 1 to 111.
const IDS: usize = 111;

/// The settings of each ID. Contracts see it as their list, those of ID 1 first.
#[derive(Clone, Copy, Debug, PartialEq, Eq)]
pub struct SettingsTable {
    of_ids: [Settings; IDS],
}

impl Model for SettingsTable {
    ghost use Rattle.std.specs.Prelude.{List};
    ghost use Rattle.etm_types.specs.Settings.{Sizes};
    ghost use Rattle.etm_types.specs.SettingsTable.{IsTable};

    ghost Value = { List Sizes };

    ghost view = { λ t. t.of_ids };

    ghost invariant = { λ t. IsTable t.of_ids };

    ghost inverse = { λ table. record { of_ids = table } };
}

impl SettingsTable {
    /// The table in which all IDs have the same settings.
    pub fn new(all: Settings) -> SettingsTable
        ensures each { (id : ℕ) → IsId id → sizes_at result id ≡ all }
        ensures list { result ≡ replicate 111 all }
        ensures table { IsTable result }
    {
        let _ = all.depth();
        SettingsTable { of_ids: [all; IDS] }
    }

    /// Gives one ID other settings.
    pub fn set(&mut self, id: Id, one: Settings)
        ensures one { sizes_at self.new id ≡ one }
        ensures others { (other : ℕ) → IsId other → other ≢ id → sizes_at self.new other ≡ sizes_at self.old other }
        ensures list { self.new ≡ slice_set self.old (id - 1) one }
        ensures table { IsTable self.new }
    {
        self.of_ids[usize::from(id.get()) - 1] = one;
    }

    /// The settings of an ID.
    pub fn get(&self, id: Id) -> Settings
        ensures value { result ≡ sizes_at self.now id }
        ensures within { AreSettings result }
    {
        let place = usize::from(id.get()) - 1;
        self.of_ids[place]
    }
}
