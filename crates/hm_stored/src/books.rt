// What a space keeps beside its pages and its disk.
ghost use Rattle.std.specs.Prelude.{◌≤◌};
ghost use Rattle.std.proofs.Props.{props};
ghost use Rattle.hm_types.specs.declared.limits.TheConstants.{LEAST_BIGBLOCKS, MOST_BIGBLOCKS};
ghost use Rattle.hm_freemap.specs.Stand.{AreBelow, AreDistinct, AreOfPool};

use crate::change::Change;
use crate::roots::Roots;
use hm_header::Header;
use hm_types::Id;
use std::alloc::Global;

/// What a space keeps of its volume and of the open call, beside pages and disk.
#[derive(Drop)]
pub struct Books {
    /// How many big-blocks the volume has.
    pub bigblocks: u32,
    /// The big-blocks that the zones 8 to 11 appended to as the open call began.
    pub begun: [u32; 4],
    /// Those that they append to now.
    pub append: [u32; 4],
    /// Where the trees of the three states begin, the current one as the open call began.
    pub roots: Roots,
    /// The last id that was drawn before the open call.
    pub last: Id,
    /// What the open call did with extents of payloads.
    pub log: Vec<Change>,
    /// Whether the open call gave something back.
    pub gave: bool,
    /// Whether no change of the open call failed half-way.
    pub whole: bool,
    ghost least: { LEAST_BIGBLOCKS ≤ bigblocks },
    ghost most: { bigblocks ≤ MOST_BIGBLOCKS },
    ghost below: { AreBelow bigblocks append } by { Prim.hlevel props },
    ghost begun_below: { AreBelow bigblocks begun } by { Prim.hlevel props },
    ghost distinct: { AreDistinct append } by { Prim.hlevel props },
    ghost begun_distinct: { AreDistinct begun } by { Prim.hlevel props },
    ghost pool: { AreOfPool bigblocks append } by { Prim.hlevel props },
    ghost begun_pool: { AreOfPool bigblocks begun } by { Prim.hlevel props },
}

impl Books {
    ghost use Rattle.hm_header.specs.Range.{IsHeader};
    ghost use Rattle.hm_stored.specs.Mounted.{IsBooksOf};

    /// The books of the volume with this header, as it is mounted: no call is open.
    #[tactic(auto, using(crate::proofs::MountLemmas::header_rules))]
    pub fn of(alloc: Global, header: &Header) -> Books
        requires header { IsHeader header.now }
        ensures { IsBooksOf header.now result }
    {
        let roots = Roots {
            committed: header.root,
            frozen: header.root,
            current: header.root,
        };
        Books {
            bigblocks: header.bigblocks,
            begun: header.append,
            append: header.append,
            roots,
            last: header.last,
            log: Vec::new(alloc),
            gave: false,
            whole: true,
        }
    }
}
