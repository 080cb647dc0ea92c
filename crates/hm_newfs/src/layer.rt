// The two layers of the freemap of a volume as it is made.
ghost use Rattle.std.specs.Prelude.{◌≡◌, ◌≤◌, ◌<◌, ◌+◌, ◌^◌, IfSome, OnOk};
ghost use Rattle.hm_types.specs.Faults.{HasCause};
ghost use Rattle.hm_types.specs.Told.{BothTell};
ghost use Rattle.hm_types.specs.declared.limits.TheConstants.{MOST_BIGBLOCKS};
ghost use Rattle.hm_disk.specs.Moments.{WriteElapses};
ghost use Rattle.hm_header.specs.Range.{IsSize};
ghost use Rattle.hm_newfs.specs.Layers.{HasLayer, HasPage, HasPages, HoldsOffsets, HoldsLayerPage};
ghost use Rattle.hm_newfs.specs.Layers.{layer_blocks, layer_bytes, layer_start};
ghost use Rattle.hm_newfs.specs.Steps.{Fills, HasSpace};
ghost use Rattle.hm_newfs.specs.declared.layer.TheConstants.{MOST_PAGES, OFFSETS_PER_PAGE};
ghost use Rattle.hm_newfs.specs.declared.layer.TheConstants.{PIECE_PAGES};

use crate::tree::PAYLOAD_BYTES;
use hm_disk::{Disk, MOST_CALL_BYTES};
use hm_fields::Page;
use hm_freemap::{fresh_page, layer1_offset, write_layer1};
use hm_types::{BIGBLOCK_BYTES, Failed, PAGE_BYTES, layer2_blocks};

// How many pages one call of the disk writes: as many as it takes.
const PIECE_PAGES: u32 = 32;

// The bytes of these pages.
const PIECE_BYTES: usize = MOST_CALL_BYTES;

// How many calls write a big-block.
const PIECES_PER_BIGBLOCK: u32 = 64;

// No layer has more pages: layer 2 has two big-blocks at most.
const MOST_PAGES: u32 = 4_096;

// The size of an entry of layer 1, in bytes, and how many a page has.
const OFFSET_BYTES: usize = 32;

const OFFSETS_PER_PAGE: u32 = 128;

// How many entries a page of layer 2 has.
const ENTRIES_PER_PAGE: u32 = 256;

// How many bytes are live in the first four big-blocks of the pool: a node, and two payloads.
const TAKEN: [u32; 4] = [PAGE_BYTES as u32, PAYLOAD_BYTES as u32, 0, 0];

/// A layer of the freemap: the first says where the big-blocks of the second are, and the second
/// what each big-block of the volume serves.
#[derive(Clone, Copy)]
pub(crate) enum Layer {
    First,
    Second,
}

/// Writes each entry that a layer has.
pub(crate) fn write_layer<D: Disk>(disk: &mut D, bigblocks: u32, layer: Layer) -> Result<(), Failed>
    requires size { IsSize bigblocks }
    requires room { IfSome (D.told disk.old) (HasSpace bigblocks) }
    ensures ok { OnOk result (BothTell (D.told disk.old) (D.told disk.new)
        (Fills (HasLayer bigblocks layer) (layer_start layer) (layer_bytes bigblocks layer))) }
    ensures any_moment { BothTell (D.told disk.old) (D.told disk.new)
        (WriteElapses (layer_start layer) (layer_bytes bigblocks layer) (D.left_since disk.old)
        (D.left_since disk.new)) }
    ensures cause { HasCause (D.faults disk.old) (D.faults disk.new) result }
{
    let start = layer.start();
    let pieces = layer.blocks(bigblocks) * PIECES_PER_BIGBLOCK;
    let mut bytes = [0; PIECE_BYTES];
    for piece in 0..pieces {
        layer.fill_piece(bigblocks, piece * PIECE_PAGES, &mut bytes);
        disk.write_at(start + u64::from(piece) * PIECE_BYTES as u64, &bytes)?;
    }
    Ok(())
}

impl Layer {
    // Where it begins, in bytes from the start of the volume.
    fn start(self) -> u64
        ensures { result ≡ layer_start self }
    {
        match self {
            Layer::First => BIGBLOCK_BYTES,
            Layer::Second => 2 * BIGBLOCK_BYTES,
        }
    }

    // How many big-blocks it has.
    fn blocks(self, bigblocks: u32) -> u32
        requires { bigblocks ≤ MOST_BIGBLOCKS }
        ensures value { result ≡ layer_blocks bigblocks self }
        ensures few { result ≤ 2 }
    {
        match self {
            Layer::First => 1,
            Layer::Second => layer2_blocks(bigblocks),
        }
    }

    // Fills these bytes with pages of the layer, from this one on.
    fn fill_piece(self, bigblocks: u32, first: u32, bytes: &mut [u8; PIECE_BYTES])
        requires size { IsSize bigblocks }
        requires first { first + PIECE_PAGES ≤ MOST_PAGES }
        ensures { HasPages (λ k. HasPage bigblocks self (first + k)) 0 PIECE_PAGES bytes.new }
    {
        let mut page = Page::zero();
        for k in 0..PIECE_PAGES {
            self.fill_page(bigblocks, first + k, &mut page);
            let at = k as usize * PAGE_BYTES;
            bytes[at..at + PAGE_BYTES].copy_from_slice(page.bytes());
        }
    }

    // Fills a page with the entries of this page of the layer.
    fn fill_page(self, bigblocks: u32, number: u32, page: &mut Page)
        requires size { IsSize bigblocks }
        requires number { number < MOST_PAGES }
        ensures { HoldsLayerPage bigblocks self number page.new }
    {
        match self {
            Layer::First => fill_offsets(bigblocks, number * OFFSETS_PER_PAGE, page),
            Layer::Second => fresh_page(bigblocks, &TAKEN, number * ENTRIES_PER_PAGE, page),
        }
    }
}

// Fills a page of layer 1 with its entries from this one on.
fn fill_offsets(bigblocks: u32, first: u32, page: &mut Page)
    requires size { bigblocks ≤ MOST_BIGBLOCKS }
    requires first { first < 2 ^ 31 }
    ensures { HoldsOffsets bigblocks first OFFSETS_PER_PAGE page.new }
{
    for i in 0..OFFSETS_PER_PAGE {
        let offset = layer1_offset(bigblocks, first + i);
        write_layer1(page, i as usize * OFFSET_BYTES, offset);
    }
}
