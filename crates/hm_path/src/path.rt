// The text of a path.
ghost use Rattle.std.specs.Prelude.{◌≡◌, ◌<◌, IfOk, IfErr, length};
ghost use Rattle.hm_types.specs.declared.limits.TheConstants.{MOST_PATH_BYTES};
ghost use Rattle.hm_path.specs.Path.{IsPath, IsPathFault, SpellsParts, IsComponentFault, component_texts};

use crate::component::read_component;
use crate::fault::PathFault;
use crate::part::{Part, Path};
use hm_types::{MOST_PATH_BYTES, MOST_PATH_PARTS};
use std::alloc::Global;

/// The path that a text gives. Its names are copied, in one pass over the text.
///
/// BadPath is answered for a text that is no path, with its bad place. NoMemory is answered where an
/// allocation is refused before a bad component is met. A text that is too long, one without a slash
/// first, and `/` take no memory.
pub fn parse(alloc: Global, text: &[u8]) -> Result<Path, PathFault>
    ensures ok { IfOk result (IsPath text.now) }
    ensures err { IfErr result (IsPathFault text.now) }
{
    if text.len() > MOST_PATH_BYTES {
        return Err(PathFault::BadPath {
            place: MOST_PATH_BYTES as u32,
        });
    }
    let Some(rest) = text.strip_prefix(b"/") else {
        return Err(PathFault::BadPath { place: 0 });
    };
    if rest.is_empty() {
        return Ok(Path::of(Vec::new(alloc)));
    }
    Ok(Path::of(read_components(alloc, rest)?))
}

/// The parts of the components that follow the first slash.
fn read_components(alloc: Global, rest: &[u8]) -> Result<Vec<Part>, PathFault>
    requires some { 0 < length rest.now }
    requires short { length rest.now < MOST_PATH_BYTES }
    ensures ok { IfOk result (λ parts. SpellsParts (component_texts rest.now) parts.items) }
    ensures err { IfErr result (IsComponentFault (component_texts rest.now)) }
{
    let mut parts = Vec::new(alloc);
    let mut place = 1u32;
    for text in rest.split(|byte| *byte == b'/') {
        if parts.len() == MOST_PATH_PARTS {
            return Err(PathFault::BadPath { place });
        }
        let Some(part) = read_component(alloc, text)? else {
            return Err(PathFault::BadPath { place });
        };
        parts.push(part)?;
        place += text.len() as u32 + 1;
    }
    Ok(parts)
}
