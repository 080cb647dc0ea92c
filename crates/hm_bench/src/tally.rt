// How often something was done in each call.
use std::fmt;

/// How often something was done in some calls: how many calls there were, and how often it was done
/// in all of them and in one.
#[derive(Clone, Copy, Debug, Default, PartialEq, Eq)]
pub struct Tally {
    calls: u64,
    sum: u64,
    most: u64,
}

impl Tally {
    /// Counts a call.
    pub fn add(&mut self, times: u64) {
        self.calls = self.calls.saturating_add(1);
        self.sum = self.sum.saturating_add(times);
        self.most = self.most.max(times);
    }

    /// How many calls were counted.
    pub fn calls(&self) -> u64 {
        self.calls
    }

    /// How often it was done in a call, on average.
    pub fn mean(&self) -> Mean {
        Mean {
            sum: self.sum,
            count: self.calls,
        }
    }

    /// How often it was done in one call, at most.
    pub fn most(&self) -> u64 {
        self.most
    }
}

/// A sum over a count, which is printed with two decimals, cut off. It is 0 over none.
#[derive(Clone, Copy, Debug, PartialEq, Eq)]
pub struct Mean {
    pub sum: u64,
    pub count: u64,
}

impl fmt::Display for Mean {
    fn fmt<W: fmt::Write>(&self, f: &mut fmt::Formatter<W>) -> fmt::Result {
        let count = u128::from(self.count.max(1));
        let sum = u128::from(self.sum);
        let rest = sum % count * 100 / count;
        write!(f, "{}.{rest:02}", sum / count)
    }
}
