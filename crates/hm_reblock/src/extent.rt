// One extent moved, with the elements that refer to it.
ghost use Rattle.std.specs.Prelude.{◌≡◌, ◌≤◌, IfOk, IfSome, OnOk, Some, length};
ghost use Rattle.hm_types.specs.Offset.{zone_of};
ghost use Rattle.hm_types.specs.Space.{IsPayloadZone, in_zone, nothing, rounded};
ghost use Rattle.hm_types.specs.declared.space.TheConstants.{PAYLOAD_RESERVE};
ghost use Rattle.hm_key.specs.Balance.{IsHeld};
ghost use Rattle.hm_key.specs.Elements.{element_at, element_key};
ghost use Rattle.hm_key.specs.Members.{HasContentCause, InBalance, SpendsAtMost};
ghost use Rattle.hm_reblock.specs.Moving.{AreTwins, Copies, IsAway, IsFreshPlace, MovesElement, Relocates};

use hm_key::{Element, ElementStore, Extents};
use hm_types::{Counted, Fault, HOff, PAYLOAD_RESERVE, rounded};
use std::alloc::Global;

// Puts the bytes of an element's extent into a new one of the same zone, and answers where that
// stands. `NoMemory` for one of more than 131,072 bytes.
pub(crate) fn copy_extent<T: ElementStore + Extents>(
    alloc: Global,
    store: &mut T,
    element: &Element,
) -> Result<HOff, Fault>
    requires balanced { InBalance T.HasElements store.old }
    requires there { IfSome (T.elements store.old) (λ es.
        element_at (element_key element.now) es ≡ Some element.now) }
    requires some { 1 ≤ element.now.len }
    requires zone { IsPayloadZone (zone_of element.now.payload) }
    requires room { PAYLOAD_RESERVE ≤ T.room store.old (zone_of element.now.payload) }
    ensures ok { IfOk result (λ to. Copies T.elements T.mark T.extents element.now to
        store.old store.new) }
    ensures space { SpendsAtMost T.HasElements (in_zone (zone_of element.now.payload) PAYLOAD_RESERVE)
        store.old store.new }
    ensures name { T.name store.new ≡ T.name store.old }
    ensures frame { T.frame store.new ≡ T.frame store.old }
    ensures cause { HasContentCause T.HasElements store.old store.new result }
{
    if element.len > PAYLOAD_RESERVE {
        return Err(Fault::NoMemory);
    }
    let len = rounded(u64::from(element.len)) as usize;
    let mut bytes = vec![in alloc; 0_u8; len]?;
    copy_through(store, element, &mut bytes)
}

// The same through a buffer of its length.
fn copy_through<T: ElementStore + Extents>(
    store: &mut T,
    element: &Element,
    buffer: &mut [u8],
) -> Result<HOff, Fault>
    requires balanced { InBalance T.HasElements store.old }
    requires there { IfSome (T.elements store.old) (λ es.
        element_at (element_key element.now) es ≡ Some element.now) }
    requires some { 1 ≤ element.now.len }
    requires zone { IsPayloadZone (zone_of element.now.payload) }
    requires room { rounded element.now.len ≤ T.room store.old (zone_of element.now.payload) }
    requires long { length buffer.old ≡ rounded element.now.len }
    ensures ok { IfOk result (λ to. Copies T.elements T.mark T.extents element.now to
        store.old store.new) }
    ensures space { SpendsAtMost T.HasElements (in_zone (zone_of element.now.payload)
        (rounded element.now.len)) store.old store.new }
    ensures name { T.name store.new ≡ T.name store.old }
    ensures frame { T.frame store.new ≡ T.frame store.old }
    ensures cause { HasContentCause T.HasElements store.old store.new result }
{
    store.fetch(element.payload, buffer)?;
    store.place(element.payload.zone(), buffer)
}

// Lets the payload of an element stand in another extent, and gives its reference to the old one
// back.
pub(crate) fn readdress_element<T: ElementStore + Extents>(
    store: &mut T,
    element: &Element,
    to: HOff,
) -> Result<(), Fault>
    requires there { IfSome (T.elements store.old) (λ es.
        element_at (element_key element.now) es ≡ Some element.now) }
    requires held { IfSome (T.extents store.old) (λ xs. IsHeld xs element.now) }
    ensures ok { OnOk result (MovesElement T.elements T.mark T.extents element.now to
        store.old store.new) }
    ensures space { SpendsAtMost T.HasElements nothing store.old store.new }
    ensures name { T.name store.new ≡ T.name store.old }
    ensures frame { T.frame store.new ≡ T.frame store.old }
    ensures cause { HasContentCause T.HasElements store.old store.new result }
{
    store.readdress(&element.base, to)?;
    store.give_back(element.payload, element.len)
}

// Moves the extent of an element to a new place, and the element with it. Answers that place.
pub(crate) fn move_first<T: ElementStore + Extents>(
    alloc: Global,
    store: &mut T,
    element: &Element,
) -> Result<HOff, Fault>
    requires balanced { InBalance T.HasElements store.old }
    requires there { IfSome (T.elements store.old) (λ es.
        element_at (element_key element.now) es ≡ Some element.now) }
    requires some { 1 ≤ element.now.len }
    requires zone { IsPayloadZone (zone_of element.now.payload) }
    requires room { PAYLOAD_RESERVE ≤ T.room store.old (zone_of element.now.payload) }
    ensures ok { IfOk result (λ to. Relocates T.elements T.mark T.extents element.now.payload to
        store.old store.new) }
    ensures away { IfOk result (λ _. IfSome (T.elements store.new)
        (IsAway element.now.payload element.now)) }
    ensures place { IfOk result (λ to. IsFreshPlace (T.extents store.old) element.now.payload to) }
    ensures space { SpendsAtMost T.HasElements (in_zone (zone_of element.now.payload) PAYLOAD_RESERVE)
        store.old store.new }
    ensures name { T.name store.new ≡ T.name store.old }
    ensures frame { T.frame store.new ≡ T.frame store.old }
    ensures cause { HasContentCause T.HasElements store.old store.new result }
{
    let to = copy_extent(alloc, store, element)?;
    readdress_element(store, element, to)?;
    Ok(to)
}

// Moves another element of that extent to the new one, which it then shares.
pub(crate) fn move_sharer<T: ElementStore + Extents>(
    store: &mut T,
    element: &Element,
    to: HOff,
) -> Result<(), Fault>
    requires balanced { InBalance T.HasElements store.old }
    requires there { IfSome (T.elements store.old) (λ es.
        element_at (element_key element.now) es ≡ Some element.now) }
    requires twins { IfSome (T.extents store.old) (AreTwins 64 element.now.payload to) }
    ensures ok { OnOk result (Relocates T.elements T.mark T.extents element.now.payload to
        store.old store.new) }
    ensures away { OnOk result (IfSome (T.elements store.new)
        (IsAway element.now.payload element.now)) }
    ensures space { SpendsAtMost T.HasElements nothing store.old store.new }
    ensures name { T.name store.new ≡ T.name store.old }
    ensures frame { T.frame store.new ≡ T.frame store.old }
    ensures cause { HasContentCause T.HasElements store.old store.new result }
{
    store.share(to, element.len)?;
    readdress_element(store, element, to)
}
