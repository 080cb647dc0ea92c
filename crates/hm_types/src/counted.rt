// What all stores and spaces of pages have in common.
ghost use Rattle.std.specs.Prelude.{ℕ};

/// An object with a count of faults and a frame, of which a contract can tell which object it is.
pub trait Counted {
    /// Its count of faults: it never falls, and it is 0 for one in memory.
    ghost faults: { Self → ℕ };

    /// Which object it is: for a `&mut`, the object that it borrows, and 0 for one that is owned.
    /// No call changes it, so an owner knows what was done through a `&mut` to its own.
    ghost name: { Self → ℕ };

    /// What the frame of such an object tells.
    ghost Frame: { Type 0 } = { Unit {0} };

    /// What no call of a store or a space changes, whether it succeeds or not: for a `&mut`, the
    /// frame of what it borrows. It is what an owner still knows of its own after any code ran on a
    /// `&mut` to it; what varies, the owner's invariant ties to it.
    ghost frame: { Self → Self.Frame };
}

impl<T: Counted> Counted for &mut T {
    ghost faults = { λ t. T.faults t.now };

    ghost name = { λ t. t.ghost_name };

    ghost Frame = { T.Frame };

    ghost frame = { λ t. T.frame t.now };
}
