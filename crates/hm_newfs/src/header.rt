// The header of a volume as it is made.
ghost use Rattle.std.specs.Prelude.{◌≡◌, IfSome, OnOk};
ghost use Rattle.hm_types.specs.Faults.{HasCause};
ghost use Rattle.hm_types.specs.Told.{BothTell};
ghost use Rattle.hm_disk.specs.Moments.{WriteElapses};
ghost use Rattle.hm_header.specs.declared.header.TheConstants.{BODY_BYTES};
ghost use Rattle.hm_header.specs.Range.{IsSize};
ghost use Rattle.hm_image.specs.Fresh.{fresh_header};
ghost use Rattle.hm_newfs.specs.Contents.{HasBody};
ghost use Rattle.hm_newfs.specs.Steps.{Fills, HasSpace};

use hm_disk::Disk;
use hm_header::{BODY_BYTES, Header, VERSION, encode, slot_place};
use hm_types::{BIGBLOCK_BYTES, Failed, HOff, Id, TREE_ZONE, first_pool};

// The generation of the first header of a volume.
const FIRST_GENERATION: u64 = 1;

/// Writes the body of the first slot, under its gate.
pub(crate) fn write_body<D: Disk>(disk: &mut D, bigblocks: u32) -> Result<(), Failed>
    requires size { IsSize bigblocks }
    requires room { IfSome (D.told disk.old) (HasSpace bigblocks) }
    ensures ok { OnOk result (BothTell (D.told disk.old) (D.told disk.new)
        (Fills (HasBody bigblocks) 0 BODY_BYTES)) }
    ensures any_moment { BothTell (D.told disk.old) (D.told disk.new)
        (WriteElapses 0 BODY_BYTES (D.left_since disk.old) (D.left_since disk.new)) }
    ensures cause { HasCause (D.faults disk.old) (D.faults disk.new) result }
{
    let mut body = [0; BODY_BYTES];
    encode(&fresh_header(bigblocks), &mut body);
    disk.write_at(slot_place(0), &body)
}

// The header of an empty volume: the id 1 is drawn, and nothing is to be recovered.
fn fresh_header(bigblocks: u32) -> Header
    requires { IsSize bigblocks }
    ensures { result ≡ fresh_header bigblocks }
{
    let pool = first_pool(bigblocks);
    Header {
        version: VERSION,
        bigblocks,
        generation: FIRST_GENERATION,
        last: Id(1),
        root: HOff::make(TREE_ZONE, u64::from(pool) * BIGBLOCK_BYTES).unwrap_or_default(),
        undo_first: 0,
        undo_count: 0,
        undo_next: 0,
        append: [pool, pool + 1, pool + 2, pool + 3],
    }
}
