//! Copies of what holds a list.

ghost use Rattle.std.specs.Prelude.{◌≡◌, IfOk};

use crate::{Basis, Chosen, Config};
use apf_base::{List, OutOfMemory};
use std::alloc::Global;

impl Config {
    /// An equal configuration.
    pub fn copy(&self, alloc: Global) -> Result<Config, OutOfMemory>
        ensures { IfOk result (λ copy. copy ≡ self.now) }
    {
        let mut deny = List::new(alloc);
        deny.extend(self.deny.as_slice())?;
        Ok(Config {
            mac: self.mac,
            capacity: self.capacity,
            drop_802_3: self.drop_802_3,
            deny,
        })
    }
}

impl Chosen {
    fn copy(&self, alloc: Global) -> Result<Chosen, OutOfMemory>
        ensures { IfOk result (λ copy. copy ≡ self.now) }
    {
        Ok(Chosen {
            id: self.id,
            advert: self.advert.copy(alloc)?,
            hold: self.hold,
        })
    }
}

fn copy_all(alloc: Global, chosen: &[Chosen]) -> Result<List<Chosen>, OutOfMemory>
    ensures { IfOk result (λ copies. copies ≡ chosen.now) }
{
    let mut copies = List::new(alloc);
    for one in chosen {
        copies.push(one.copy(alloc)?)?;
    }
    Ok(copies)
}

impl Basis {
    /// An equal basis.
    pub fn copy(&self, alloc: Global) -> Result<Basis, OutOfMemory>
        ensures { IfOk result (λ copy. copy ≡ self.now) }
    {
        Ok(Basis {
            config: self.config.copy(alloc)?,
            state: self.state,
            chosen: copy_all(alloc, self.chosen.as_slice())?,
        })
    }
}
