// A store that has no element but the records of pseudo file systems with the first numbers.
use hm_cursor::record_base;
use hm_key::{Base, Element, ElementStore, Extents, HasElements, HasRoom, is_element};
use hm_types::{Counted, Fault, HOff, Id, Pfs, SpaceFault, Zones};
use std::cmp::Ordering;

/// A store in which each number before `systems` has an open record. It tells nothing, answers
/// searches for a record, and refuses memory for all else.
#[derive(Drop)]
pub(crate) struct Numbers {
    pub systems: u32,
}

impl Numbers {
    // The record of a number, if it has one.
    fn record(&self, number: u32) -> Option<Element> {
        if number >= self.systems {
            return None;
        }
        let pfs = Pfs(u16::try_from(number).ok()?);
        Some(Element {
            base: Base {
                create: 2,
                ..record_base(pfs)
            },
            payload: HOff::default(),
            len: 32,
        })
    }
}

impl Counted for Numbers {
    ghost faults = { λ _. 0 };

    ghost name = { λ _. 0 };

    ghost frame = { λ _. tt };
}

// In each zone there is more than any call takes.
impl HasRoom for Numbers {
    ghost use Rattle.std.specs.Prelude.{◌^◌, None};

    ghost room = { λ _ _. 2 ^ 20 };

    ghost free = { λ _. 0 };

    ghost extents = { λ _. None };
}

impl HasElements for Numbers {
    ghost use Rattle.std.specs.Prelude.{None};

    ghost elements = { λ _. None };

    ghost mark = { λ _ _. 0 };
}

impl ElementStore for Numbers {
    ghost sorted = { λ _. tt };

    ghost marked = { λ _. tt };

    fn first_at_or_after(&mut self, at: &Base) -> Result<Option<Element>, Fault> {
        let here = at.localization / 65_536;
        for number in [here, here + 1] {
            let Some(record) = self.record(number) else {
                return Ok(None);
            };
            if is_element(&record) && record.base.order(at) != Ordering::Less {
                return Ok(Some(record));
            }
        }
        Err(Fault::NoMemory)
    }

    fn last_at_or_before(&mut self, at: &Base) -> Result<Option<Element>, Fault> {
        let here = at.localization / 65_536;
        if let Some(record) = self.record(here)
            && is_element(&record)
            && at.order(&record.base) != Ordering::Less
        {
            return Ok(Some(record));
        }
        match self.record(here.saturating_sub(1)) {
            Some(record) if is_element(&record) && at.order(&record.base) != Ordering::Less => {
                Ok(Some(record))
            }
            _ => Ok(None),
        }
    }

    fn insert(&mut self, _e: &Element) -> Result<(), Fault> {
        Err(Fault::NoMemory)
    }

    fn set_delete(&mut self, _at: &Base, _delete: u64) -> Result<(), Fault> {
        Err(Fault::NoMemory)
    }

    fn remove(&mut self, _at: &Base) -> Result<(), Fault> {
        Err(Fault::NoMemory)
    }

    fn readdress(&mut self, _at: &Base, _to: HOff) -> Result<(), Fault> {
        Err(Fault::NoMemory)
    }

    fn unchanged_until(&mut self, _at: &Base, _since: Id) -> Result<Option<Base>, Fault> {
        Err(Fault::NoMemory)
    }
}

impl Extents for Numbers {
    ghost use Rattle.std.specs.Prelude.{refl};

    ghost live = { λ _. tt };

    ghost together = { λ _. refl };

    fn admit(&mut self, _zones: Zones, _held: u32) -> Result<(), SpaceFault> {
        Err(SpaceFault::Fault(Fault::NoMemory))
    }

    fn fetch(&mut self, _at: HOff, _buf: &mut [u8]) -> Result<(), Fault> {
        Err(Fault::NoMemory)
    }

    fn place(&mut self, _zone: u8, _bytes: &[u8]) -> Result<HOff, Fault> {
        Err(Fault::NoMemory)
    }

    fn share(&mut self, _at: HOff, _len: u32) -> Result<(), Fault> {
        Err(Fault::NoMemory)
    }

    fn give_back(&mut self, _at: HOff, _len: u32) -> Result<(), Fault> {
        Err(Fault::NoMemory)
    }
}
