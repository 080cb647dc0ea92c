// Reads a volume.
ghost use Rattle.std.specs.Prelude.{◌≡◌, IfErr, IfSome, IfOk, OnOk, length};
ghost use Rattle.hm_types.specs.Faults.{HasFaultCause, IsUndamaged};
ghost use Rattle.hm_disk.specs.declared.limits.TheConstants.{MOST_CALL_BYTES};
ghost use Rattle.hm_header.specs.Range.{IsHeader};
ghost use Rattle.hm_image.specs.Sound.{IsSoundBy};
ghost use Rattle.hm_pages.specs.Store.{contents, empty_store};
ghost use Rattle.hm_load.specs.Damage.{IsDamage};
ghost use Rattle.hm_load.specs.Faults.{Tells};
ghost use Rattle.hm_load.specs.Freemap.{HoldsLayer2, layer2_pages};
ghost use Rattle.hm_load.specs.Held.{HasFreemap, HoldsImage};
ghost use Rattle.hm_load.specs.Loaded.{IsLoaded, IsPlain};
ghost use Rattle.hm_newfs.specs.Steps.{HasSpace};

use crate::layer1::check_layer1;
use crate::layer2::load_layer2;
use crate::tree::load_below;
use crate::volume::Volume;
use hm_disk::{Disk, MOST_CALL_BYTES};
use hm_header::Header;
use hm_pages::PageStore;
use hm_search::Subtree;
use hm_types::Fault;
use std::alloc::Global;

/// Reads every page of both layers of the freemap and the whole tree of a volume into a store of
/// pages, and checks the payloads: each inode, directory entry and record is read; file bytes and
/// targets are checked by their lengths. It writes nothing: what a crash may have left stays.
pub fn load<D: Disk>(alloc: Global, disk: &mut D, header: &Header) -> Result<PageStore, Fault>
    requires header { IsHeader header.now }
    requires space { IfSome (D.told disk.old) (HasSpace header.now.bigblocks) }
    ensures loaded { IfOk result (λ store. IsLoaded header.now (contents store)) }
    ensures holds { IfSome (D.told disk.old) (λ t. IfOk result (λ store.
        HoldsImage t.bytes header.now (contents store))) }
    ensures sound { IfSome (D.told disk.old) (λ t.
        IsSoundBy t.bytes header.now → IfErr result IsUndamaged) }
    ensures damage { IfSome (D.told disk.old) (λ t.
        IfErr result (Tells (IsDamage t.bytes header.now))) }
    ensures same { D.told disk.new ≡ D.told disk.old }
    ensures crashes { D.past disk.new ≡ D.past disk.old }
    ensures cause { HasFaultCause (D.faults disk.old) (D.faults disk.new) result }
{
    let mut buffer = vec![in alloc; 0; MOST_CALL_BYTES]?;
    let mut store = PageStore::new(alloc);
    load_into(alloc, disk, &mut buffer, header, &mut store)?;
    Ok(store)
}

// Loads both layers and the tree into an empty store.
fn load_into<D: Disk>(
    alloc: Global,
    disk: &mut D,
    buffer: &mut [u8],
    header: &Header,
    store: &mut PageStore,
) -> Result<(), Fault>
    requires header { IsHeader header.now }
    requires space { IfSome (D.told disk.old) (HasSpace header.now.bigblocks) }
    requires len { length buffer.old ≡ MOST_CALL_BYTES }
    requires empty { contents store.old ≡ empty_store }
    ensures loaded { OnOk result (IsLoaded header.now (contents store.new)) }
    ensures holds { IfSome (D.told disk.old) (λ t.
        OnOk result (HoldsImage t.bytes header.now (contents store.new))) }
    ensures damage { IfSome (D.told disk.old) (λ t.
        IfErr result (Tells (IsDamage t.bytes header.now))) }
    ensures same { D.told disk.new ≡ D.told disk.old }
    ensures crashes { D.past disk.new ≡ D.past disk.old }
    ensures cause { HasFaultCause (D.faults disk.old) (D.faults disk.new) result }
{
    let volume = Volume {
        alloc,
        bigblocks: header.bigblocks,
    };
    load_freemap(disk, &volume, buffer, header, store)?;
    let root = Subtree::root(header.root);
    load_below(disk, &volume, buffer, store, &root)
}

// Checks layer 1, and loads layer 2 into an empty store.
fn load_freemap<D: Disk>(
    disk: &mut D,
    volume: &Volume,
    buffer: &mut [u8],
    header: &Header,
    store: &mut PageStore,
) -> Result<(), Fault>
    requires header { IsHeader header.now }
    requires volume { volume.now.bigblocks ≡ header.now.bigblocks }
    requires space { IfSome (D.told disk.old) (HasSpace volume.now.bigblocks) }
    requires len { length buffer.old ≡ MOST_CALL_BYTES }
    requires empty { contents store.old ≡ empty_store }
    ensures ok { OnOk result (IsPlain (contents store.new)
        × HoldsLayer2 header.now (layer2_pages header.now.bigblocks) (contents store.new).current) }
    ensures read { OnOk result (IfSome (D.told disk.old) (λ t.
        HasFreemap t.bytes header.now (contents store.new).current)) }
    ensures damage { IfSome (D.told disk.old) (λ t.
        IfErr result (Tells (IsDamage t.bytes header.now))) }
    ensures same { D.told disk.new ≡ D.told disk.old }
    ensures crashes { D.past disk.new ≡ D.past disk.old }
    ensures cause { HasFaultCause (D.faults disk.old) (D.faults disk.new) result }
{
    check_layer1(disk, volume, buffer)?;
    load_layer2(disk, volume, buffer, header, store)
}
