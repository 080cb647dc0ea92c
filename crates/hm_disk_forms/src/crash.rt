// What a crash does to the writes that are unsettled.
ghost use Rattle.std.specs.Prelude.{◌≤◌};

/// What a crash does to the writes since the last sync that succeeded, which are numbered from 0 on, in
/// the order in which they were begun. All others are on the disk, with all that they put.
#[derive(Clone, Copy)]
pub enum Crash<'a> {
    /// The writes of these numbers, in any order, are lost: they put nothing.
    Lost(&'a [usize]),
    /// The write of this number put only so many bytes at its front.
    Torn { write: usize, front: usize },
}

impl<'a> Crash<'a> {
    // How many bytes a write puts that has this number and had put `len` of them.
    pub(crate) fn front(&self, number: usize, len: usize) -> usize
        ensures { result ≤ len }
    {
        match self {
            Crash::Lost(writes) if writes.contains(&number) => 0,
            Crash::Torn { write, front } if *write == number => len.min(*front),
            _ => len,
        }
    }
}
