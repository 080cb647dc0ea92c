// Transfers of any length, in pieces that a disk takes.
ghost use Rattle.std.specs.Prelude.{◌≡◌, ◌<◌, ◌≤◌, ◌+◌, ◌^◌, IfSome, OnOk, OnErr, length, slice_range};
ghost use Rattle.hm_types.specs.Faults.{HasCause};
ghost use Rattle.hm_types.specs.Told.{BothTell};
ghost use Rattle.hm_disk.specs.Disk.{moment_of};
ghost use Rattle.hm_disk.specs.Moments.{WriteElapses, SameLeft};
ghost use Rattle.hm_disk.specs.Transfer.{WrittenAll, TornAll, WrittenSynced};

use crate::disk::Disk;
use crate::limits::MOST_CALL_BYTES;
use hm_types::Failed;

/// Fills `buf`, of any length, with the bytes from `place` on. It changes nothing on the disk; what
/// `buf` holds after `Failed` is not known.
pub fn read_all_at<D: Disk>(disk: &mut D, place: u64, buf: &mut [u8]) -> Result<(), Failed>
    requires range { place + length buf.old < 2 ^ 64 }
    requires within { IfSome (D.told disk.old) (λ t. place + length buf.old ≤ length t.bytes) }
    ensures ok { OnOk result (IfSome (D.told disk.old) (λ t.
        buf.new ≡ slice_range t.bytes place (place + length buf.old))) }
    ensures same { D.told disk.new ≡ D.told disk.old }
    ensures past { D.past disk.new ≡ D.past disk.old }
    ensures any_moment { SameLeft (D.left_since disk.old) (D.left_since disk.new) }
    ensures cause { HasCause (D.faults disk.old) (D.faults disk.new) result }
{
    let mut done = 0;
    while done < buf.len() {
        let count = (buf.len() - done).min(MOST_CALL_BYTES);
        disk.read_at(place + done as u64, &mut buf[done..done + count])?;
        done += count;
    }
    Ok(())
}

/// Writes bytes of any number from `place` on, where they are unsettled until the next sync that
/// succeeds. After `Failed` the range holds any bytes, and some or all of it is unsettled. The moment
/// stays. At any time within, a crash leaves what it might have left before, or changes the range
/// alone.
pub fn write_all_at<D: Disk>(disk: &mut D, place: u64, bytes: &[u8]) -> Result<(), Failed>
    requires range { place + length bytes.now < 2 ^ 64 }
    requires within { IfSome (D.told disk.old) (λ t. place + length bytes.now ≤ length t.bytes) }
    ensures ok { OnOk result
        (BothTell (D.told disk.old) (D.told disk.new) (WrittenAll place bytes.now)) }
    ensures err { OnErr result
        (BothTell (D.told disk.old) (D.told disk.new) (TornAll place (length bytes.now))) }
    ensures moment { moment_of (D.told disk.new) ≡ moment_of (D.told disk.old) }
    ensures past { D.past disk.new ≡ D.past disk.old }
    ensures any_moment { BothTell (D.told disk.old) (D.told disk.new)
        (WriteElapses place (length bytes.now) (D.left_since disk.old) (D.left_since disk.new)) }
    ensures cause { HasCause (D.faults disk.old) (D.faults disk.new) result }
{
    let mut done = 0;
    while done < bytes.len() {
        let count = (bytes.len() - done).min(MOST_CALL_BYTES);
        disk.write_at(place + done as u64, &bytes[done..done + count])?;
        done += count;
    }
    Ok(())
}

/// Writes bytes of any number from `place` on, and then settles all that was written. After `Failed`
/// the range holds any bytes, some or all of it is unsettled, and the moment stays. At any time within,
/// a crash leaves what it might have left before, or changes the range alone.
pub fn write_synced<D: Disk>(disk: &mut D, place: u64, bytes: &[u8]) -> Result<(), Failed>
    requires range { place + length bytes.now < 2 ^ 64 }
    requires within { IfSome (D.told disk.old) (λ t. place + length bytes.now ≤ length t.bytes) }
    ensures ok { OnOk result
        (BothTell (D.told disk.old) (D.told disk.new) (WrittenSynced place bytes.now)) }
    ensures err { OnErr result
        (BothTell (D.told disk.old) (D.told disk.new) (TornAll place (length bytes.now))) }
    ensures moment { OnErr result (moment_of (D.told disk.new) ≡ moment_of (D.told disk.old)) }
    ensures past { OnErr result (D.past disk.new ≡ D.past disk.old) }
    ensures any_moment { BothTell (D.told disk.old) (D.told disk.new)
        (WriteElapses place (length bytes.now) (D.left_since disk.old) (D.left_since disk.new)) }
    ensures cause { HasCause (D.faults disk.old) (D.faults disk.new) result }
{
    write_all_at(disk, place, bytes)?;
    disk.sync()
}
