ghost use Rattle.std.specs.Prelude.{◌≡◌, ◌≤◌, length, IfOk, AllPairs, ◌≢◌};
ghost use Rattle.tcel_check.specs.Checked.{number_of};
ghost use Rattle.tcel_check.specs.Keys.{keys};

use crate::numbers::Numbers;
use indexmap::IndexSet;
use std::alloc::Global;
use tcel_num::{Name, NoMemory};

impl Numbers {
    /// These names, in this order.
    pub fn new(alloc: Global, names: &[Name]) -> Result<Numbers, NoMemory>
        requires few { length names.now ≤ 256 }
        requires distinct { AllPairs ◌≢◌ names.now }
        ensures { IfOk result (λ numbers. keys numbers ≡ names.now) }
    {
        let mut set = IndexSet::new(alloc);
        for name in names {
            set.insert(*name)?;
        }
        Ok(Numbers { names: set })
    }

    /// The number of a name.
    pub fn number(&self, name: &Name) -> u32
        ensures { result ≡ number_of (keys self.now) name.now }
    {
        match self.names.get_index_of(name) {
            Some(number) => number as u32,
            None => self.names.len() as u32,
        }
    }
}
