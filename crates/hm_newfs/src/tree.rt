// The tree of a volume as it is made: its root node, and the payloads of both elements.
ghost use Rattle.std.specs.Prelude.{◌≡◌, ◌++◌, IfSome, OnOk};
ghost use Rattle.hm_types.specs.Faults.{HasCause};
ghost use Rattle.hm_types.specs.Layout.{first_pool, start_of};
ghost use Rattle.hm_types.specs.Told.{BothTell};
ghost use Rattle.hm_disk.specs.Moments.{WriteElapses};
ghost use Rattle.hm_header.specs.Range.{IsSize};
ghost use Rattle.hm_image.specs.Fresh.{fresh_base, fresh_record, fresh_root, root_inode};
ghost use Rattle.hm_records.specs.Inode.{inode_bytes};
ghost use Rattle.hm_records.specs.PfsRecord.{pfs_bytes};
ghost use Rattle.hm_newfs.specs.Contents.{HasFreshTree, tree_bytes};
ghost use Rattle.hm_newfs.specs.Steps.{Fills, HasSpace};

use arrayvec::ArrayVec;
use byteorder::{ByteOrder, LittleEndian};
use hm_disk::Disk;
use hm_fields::Page;
use hm_key::{Base, ELEMENT, Element, INODE, INODE_PART, OTHER_PART, PFS_RECORD};
use hm_node::{Leaf, Node, encode};
use hm_records::DIRECTORY;
use hm_types::{BIGBLOCK_BYTES, Failed, HOff, META_ZONE, Obj, first_pool};

// The id that made the volume, and the object of the root directory.
const FIRST: u64 = 1;

// The size of the inode of the root directory, in bytes.
const INODE_BYTES: u32 = 32;

// The size of the record of PFS 0, in bytes. It keeps one interval of ids.
const RECORD_BYTES: u32 = 48;

/// The size of both payloads, in bytes. They stand one after the other.
pub(crate) const PAYLOAD_BYTES: usize = 80;

// The kind of a master, in the first byte of a record.
const MASTER: u8 = 1;

// The id that ends an interval without an end.
const OPEN_END: u64 = u64::MAX;

/// Writes the root node and the payloads of both elements, each where the first big-block of its
/// zone begins.
pub(crate) fn write_tree<D: Disk>(disk: &mut D, bigblocks: u32) -> Result<(), Failed>
    requires size { IsSize bigblocks }
    requires room { IfSome (D.told disk.old) (HasSpace bigblocks) }
    ensures ok { OnOk result (BothTell (D.told disk.old) (D.told disk.new)
        (Fills (HasFreshTree bigblocks) (start_of (first_pool bigblocks)) tree_bytes)) }
    ensures any_moment { BothTell (D.told disk.old) (D.told disk.new)
        (WriteElapses (start_of (first_pool bigblocks)) tree_bytes (D.left_since disk.old)
        (D.left_since disk.new)) }
    ensures cause { HasCause (D.faults disk.old) (D.faults disk.new) result }
{
    let pool = u64::from(first_pool(bigblocks));
    let mut page = Page::zero();
    encode(&fresh_root(bigblocks), &mut page);
    disk.write_at(pool * BIGBLOCK_BYTES, page.bytes())?;
    disk.write_at((pool + 1) * BIGBLOCK_BYTES, &fresh_payloads())
}

// The root node: a leaf with the inode of the root directory and the record of PFS 0.
fn fresh_root(bigblocks: u32) -> Node
    requires { IsSize bigblocks }
    ensures { result ≡ fresh_root bigblocks }
{
    let payloads = (u64::from(first_pool(bigblocks)) + 1) * BIGBLOCK_BYTES;
    let mut places = ArrayVec::new();
    places.push(Element {
        base: fresh_base(INODE, INODE_PART),
        payload: HOff::make(META_ZONE, payloads).unwrap_or_default(),
        len: INODE_BYTES,
    });
    places.push(Element {
        base: fresh_base(PFS_RECORD, OTHER_PART),
        payload: HOff::make(META_ZONE, payloads + u64::from(INODE_BYTES)).unwrap_or_default(),
        len: RECORD_BYTES,
    });
    Node::Leaf(Leaf {
        mirror: FIRST,
        places,
    })
}

// The base of an element of the root directory, which the first id made.
fn fresh_base(rec_type: u16, localization: u32) -> Base
    ensures { result ≡ fresh_base rec_type localization }
{
    Base {
        obj: Obj(FIRST),
        key: 0,
        create: FIRST,
        delete: 0,
        rec_type,
        obj_type: DIRECTORY,
        btype: ELEMENT,
        localization,
    }
}

// Both payloads: the inode of a directory with one link, and the record of a master that keeps each
// id from 1 on. All other bytes are 0.
fn fresh_payloads() -> [u8; PAYLOAD_BYTES]
    ensures { result ≡ inode_bytes root_inode ++ pfs_bytes fresh_record }
{
    let mut bytes = [0; PAYLOAD_BYTES];
    bytes[0] = DIRECTORY;
    LittleEndian::write_u32(&mut bytes[16..20], 1); // links
    bytes[32] = MASTER;
    LittleEndian::write_u32(&mut bytes[56..60], 1); // intervals
    LittleEndian::write_u64(&mut bytes[64..72], FIRST);
    LittleEndian::write_u64(&mut bytes[72..80], OPEN_END);
    bytes
}
