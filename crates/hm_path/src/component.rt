// One component of a path.
ghost use Rattle.std.specs.Prelude.{IfOk, MatchOption};
ghost use Rattle.hm_path.specs.Component.{IsComponent, IsNoComponent};

use crate::id::cut_id;
use crate::part::Part;
use hm_types::{Name, NoMemory, is_name};
use std::alloc::Global;

/// The part that a component gives, or None where the text is no component. Only the name is copied.
pub(crate) fn read_component(alloc: Global, text: &[u8]) -> Result<Option<Part>, NoMemory>
    ensures { IfOk result (λ part. MatchOption part (IsNoComponent text.now) (IsComponent text.now)) }
{
    let (name, as_of) = cut_id(text);
    if name.is_empty() && as_of.is_some() {
        return Ok(Some(Part { name: None, as_of }));
    }
    if !is_name(name) {
        return Ok(None);
    }
    let name = Name::of(name.to_vec(alloc)?);
    Ok(Some(Part {
        name: Some(name),
        as_of,
    }))
}
