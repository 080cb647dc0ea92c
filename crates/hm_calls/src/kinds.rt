// Checks of an object's kind, by its inode.
ghost use Rattle.std.specs.Prelude.{◌≡◌, ◌<◌, ◌≤◌, ◌^◌, ◌-◌, Option, None, Some, false};
ghost use Rattle.std.specs.Prelude.{if◌then◌else◌, is_some, option_map, IfErr, IfOk, IfSome, OnOk};
ghost use Rattle.std.specs.Bool.{nat_le};
ghost use Rattle.std.specs.Option.{option_map_or};
ghost use Rattle.hm_types.specs.declared.object.Object.{Object};
ghost use Rattle.hm_key.specs.Counts.{Counts};
ghost use Rattle.hm_model.specs.Call.{Call};
ghost use Rattle.hm_model.specs.Due.{gives_way, is_dir, is_dir_or_link, is_link, is_softlink, refuse_if};
ghost use Rattle.hm_model.specs.View.{object_at};
ghost use Rattle.hm_model.specs.declared.reply.Reply.TheVariants.{Exists as exists};
ghost use Rattle.hm_model.specs.declared.reply.Reply.TheVariants.{IsDir as is_a_dir};
ghost use Rattle.hm_model.specs.declared.reply.Reply.TheVariants.{NotDir as no_dir};
ghost use Rattle.hm_model.specs.declared.reply.Reply.TheVariants.{NotFile as no_file};
ghost use Rattle.hm_model.specs.declared.reply.Reply.TheVariants.{NotLink as no_link};
ghost use Rattle.hm_model.specs.declared.reply.Reply.TheVariants.{TooBig as too_big};
ghost use Rattle.hm_dirs.specs.Walk.{IsRead, Scene, place_of};
ghost use Rattle.hm_records.specs.declared.inode.Inode.{Inode as Node};
ghost use Rattle.hm_volume.specs.Found.{IsFoundBy};
ghost use Rattle.hm_calls.specs.Places.{IsKindOf, ask_kind, gives_way_by, refuse_kind};
ghost use Rattle.hm_calls.specs.Stop.{Decides, IfRefused, OfFault};

use crate::rename::Moved;
use crate::stop::Stop;
use hm_dirs::Stand;
use hm_model::Reply;
use hm_records::{DIRECTORY, FILE, Inode, PFS_LINK, SOFTLINK};
use hm_types::Obj;

// `is a directory` for a directory and a PFS link.
pub(crate) fn check_no_directory(stand: &Stand) -> Result<(), Stop>
    ensures check { (scene : Scene) → IsRead scene stand.now →
        Decides (refuse_kind is_dir_or_link is_a_dir (object_at scene.view (place_of stand.now.at))) result }
    ensures gives { IfRefused result (λ reply. reply ≡ is_a_dir) }
    ensures failed { IfErr result (OfFault (λ _. ⊥)) }
{
    match kind_of(stand) {
        Some(DIRECTORY | PFS_LINK) => Err(Stop::Refused(Reply::IsDir)),
        _ => Ok(()),
    }
}

// `not a directory` for all else.
pub(crate) fn check_directory(stand: &Stand) -> Result<(), Stop>
    ensures check { (scene : Scene) → IsRead scene stand.now →
        Decides (ask_kind is_dir no_dir (object_at scene.view (place_of stand.now.at))) result }
    ensures gives { IfRefused result (λ reply. reply ≡ no_dir) }
    ensures failed { IfErr result (OfFault (λ _. ⊥)) }
{
    match kind_of(stand) {
        Some(DIRECTORY) => Ok(()),
        _ => Err(Stop::Refused(Reply::NotDir)),
    }
}

// `not a file` for a softlink.
pub(crate) fn check_no_softlink(stand: &Stand) -> Result<(), Stop>
    ensures check { (scene : Scene) → IsRead scene stand.now →
        Decides (refuse_kind is_softlink no_file (object_at scene.view (place_of stand.now.at))) result }
    ensures gives { IfRefused result (λ reply. reply ≡ no_file) }
    ensures failed { IfErr result (OfFault (λ _. ⊥)) }
{
    match kind_of(stand) {
        Some(SOFTLINK) => Err(Stop::Refused(Reply::NotFile)),
        _ => Ok(()),
    }
}

// `not a link` for what is neither a softlink nor a PFS link.
pub(crate) fn check_link(stand: &Stand) -> Result<(), Stop>
    ensures check { (scene : Scene) → IsRead scene stand.now →
        Decides (ask_kind is_link no_link (object_at scene.view (place_of stand.now.at))) result }
    ensures gives { IfRefused result (λ reply. reply ≡ no_link) }
    ensures failed { IfErr result (OfFault (λ _. ⊥)) }
{
    match kind_of(stand) {
        Some(SOFTLINK | PFS_LINK) => Ok(()),
        _ => Err(Stop::Refused(Reply::NotLink)),
    }
}

// `too big` where an object has as many links as there may be: 4,294,967,295.
pub(crate) fn check_links(stand: &Stand) -> Result<(), Stop>
    ensures check { (scene : Scene) → IsRead scene stand.now →
        Decides (refuse_if (option_map_or (λ (o : Object). nat_le (2 ^ 32 - 1) o.links)
        (object_at scene.view (place_of stand.now.at)) false) too_big) result }
    ensures room { OnOk result (IfSome stand.now.inode (λ inode. inode.links < 2 ^ 32 - 1)) }
    ensures gives { IfRefused result (λ reply. reply ≡ too_big) }
    ensures failed { IfErr result (OfFault (λ _. ⊥)) }
{
    match stand.inode {
        Some(inode) if inode.links == u32::MAX => Err(Stop::Refused(Reply::TooBig)),
        _ => Ok(()),
    }
}

// The kind that the inode in hand tells.
fn kind_of(stand: &Stand) -> Option<u8>
    ensures { result ≡ option_map (λ (inode : Node). inode.kind) stand.now.inode }
{
    stand.inode.map(|inode| inode.kind)
}

// The inode of what stands under a new name and gives way to the object that is moved there: it does
// where it is that object, or is neither a directory nor a PFS link and the moved one is no directory.
// Else `exists`.
pub(crate) fn check_way(moved: &Stand, there: Obj, inode: Option<Inode>) -> Result<Inode, Stop>
    ensures check { (scene : Scene) (call : Call) (o : Option Object) → IsRead scene moved.now →
        IsFoundBy (Counts scene.elements moved.now.as_of.0) moved.now.at.pfs.0 o inode →
        IfSome o (λ found. found.number.0 ≡ there.0) →
        Decides (if option_map_or (λ found. option_map_or (λ m. gives_way call m found)
        (object_at scene.view (place_of moved.now.at)) false) o false then None else Some exists) result }
    ensures inode { IfOk result (λ found. inode ≡ Some found) }
    ensures gives { IfRefused result (λ reply. reply ≡ exists) }
    ensures failed { IfErr result (OfFault (λ _. ⊥)) }
{
    let Some(found) = inode else {
        return Err(Stop::Refused(Reply::Exists));
    };
    if gives_way(moved.inode, inode, there.0 == moved.at.object.0) {
        Ok(found)
    } else {
        Err(Stop::Refused(Reply::Exists))
    }
}

// Whether an object gives way to the one that is moved, which may be the same.
fn gives_way(moved: Option<Inode>, there: Option<Inode>, same: bool) -> bool
    ensures { result ≡ gives_way_by moved there same }
{
    match (moved, there) {
        (Some(moved), Some(there)) => {
            same || (there.kind != DIRECTORY && there.kind != PFS_LINK && moved.kind != DIRECTORY)
        }
        _ => false,
    }
}

// The object that is moved, with the kind that an entry of it tells, 1 to 4.
pub(crate) fn moved_of(stand: &Stand) -> Option<Moved>
    ensures object { IfSome result (λ moved. moved.obj ≡ stand.now.at.object) }
    ensures kind { IfSome result (λ moved. (1 ≤ moved.kind) × (moved.kind ≤ 4)) }
    ensures kind_is { IfSome result (λ moved. IsKindOf moved.kind stand.now.inode) }
    ensures there { is_some result ≡ is_some stand.now.inode }
{
    let inode = stand.inode?;
    Some(Moved {
        obj: stand.at.object,
        kind: match inode.kind {
            DIRECTORY => DIRECTORY,
            FILE => FILE,
            SOFTLINK => SOFTLINK,
            _ => PFS_LINK,
        },
    })
}
