// What calls cost, in counts.
use hm_key::MemStore;
use std::fmt;

/// How often something was done.
#[derive(Clone, Copy, Debug, Default, PartialEq, Eq)]
pub struct Times(pub u64);

impl Times {
    /// How often it was done since it was done so often.
    pub fn since(self, before: Times) -> Times {
        Times(self.0.saturating_sub(before.0))
    }

    /// How often it was done in a call, on average.
    pub fn over(self, calls: u32) -> Mean {
        Mean {
            sum: self.0,
            count: calls,
        }
    }
}

/// A sum over a count, which is printed with two decimals, cut off. It is 0 over none.
#[derive(Clone, Copy, Debug, PartialEq, Eq)]
pub struct Mean {
    sum: u64,
    count: u32,
}

impl fmt::Display for Mean {
    fn fmt<W: fmt::Write>(&self, f: &mut fmt::Formatter<W>) -> fmt::Result {
        let count = u64::from(self.count.max(1));
        let rest = self.sum % count * 100 / count;
        write!(f, "{}.{rest:02}", self.sum / count)
    }
}

/// How often nodes were read and written, and payloads read.
#[derive(Clone, Copy, Debug, Default, PartialEq, Eq)]
pub struct Costs {
    pub nodes_read: Times,
    pub nodes_written: Times,
    pub payloads_read: Times,
}

impl Costs {
    /// What was done since these.
    pub fn since(&self, before: &Costs) -> Costs {
        Costs {
            nodes_read: self.nodes_read.since(before.nodes_read),
            nodes_written: self.nodes_written.since(before.nodes_written),
            payloads_read: self.payloads_read.since(before.payloads_read),
        }
    }
}

/// A store that tells what was done in it so far.
pub trait Measured {
    fn costs(&self) -> Costs;
}

// It counts nothing.
impl Measured for MemStore {
    fn costs(&self) -> Costs {
        Costs::default()
    }
}
