// The id that may end a component.
ghost use Rattle.std.specs.Prelude.{◌≡◌, length, MatchOption};
ghost use Rattle.hm_path.specs.Component.{IsIdText, IsNoIdText, CutsId};

use hm_types::Id;

/// How long an id is in a path, in bytes: `@@0x` and 16 digits.
const ID_BYTES: usize = 20;

/// Takes off the id that ends a component, if one does.
pub(crate) fn cut_id(text: &[u8]) -> (&[u8], Option<Id>)
    ensures { CutsId text.now result.0.now result.1 }
{
    let Some(start) = text.len().checked_sub(ID_BYTES) else {
        return (text, None);
    };
    match read_id(&text[start..]) {
        Some(id) => (&text[..start], Some(id)),
        None => (text, None),
    }
}

/// The id that a text spells: `@@0x` and 16 hexadecimal digits of either case. None for any other text.
pub fn read_id(text: &[u8]) -> Option<Id>
    ensures { MatchOption result (IsNoIdText text.now) (IsIdText text.now) }
{
    if text.len() != ID_BYTES {
        return None;
    }
    let digits = text.strip_prefix(b"@@0x")?;
    let mut number = 0u64;
    for digit in digits {
        number = number * 16 + u64::from(char::from(*digit).to_digit(16)?);
    }
    Some(Id(number))
}
