// The units of jobs that are handed in.
ghost use Rattle.std.specs.Prelude.{◌≡◌, ℕ, IfErr, IfOk, IsFalse, None};
ghost use Rattle.hm_key.specs.Calls.{KeepsJob};
ghost use Rattle.hm_key.specs.Job.{IfProgress};

use crate::handed::job_over;
use crate::volume::Core;
use hm_disk::Disk;
use hm_key::{Job, Progress};
use hm_stored::Stored;
use hm_types::{FULL_GROUP_PAGES, Fault};

impl<D: Disk, I, O> Core<D, I, O> {
    ghost use Rattle.hm_core.specs.Core.{Follows, KeepsStreams, LeavesHeld, Waits};
    ghost use Rattle.hm_core.specs.Chosen.{KeepChoices};
    ghost use Rattle.hm_core.specs.Handed.{AsOpened, AsOpenedAfter, DoesHanded, Hands, HasKnown};
    ghost use Rattle.hm_core.specs.Jobs.{FailsWith, IsFull, UnitKeepsLive};
    ghost use Rattle.hm_core.specs.Live.{CallKeepsLive};
    ghost use Rattle.hm_core.specs.Seen.{choice_of, devices, seen, store_in};

    /// Does one unit of a job that is handed in, which must fit the store as a call opens over it, tell no
    /// intervals and not place; or makes one stage of a flush, where the group of changed pages is full,
    /// and answers More with the job as it was. Nothing is entered, and what the volume holds stays. After
    /// More the job goes, and after Done it ends, of the store as a call opens over it again, where that
    /// told its content before the unit, or tells none after it.
    ///
    /// After an error what the unit changed is dropped, and the job is at the start of the unit, where the
    /// store told its content. `Media` tells that the device failed; `Damaged`, which comes only where the
    /// disk holds no volume, that what it holds is damaged; and `NoMemory` that memory was refused, or over
    /// such a disk that the root of the tree would stand outside the pool. A stage that fails is due again.
    pub fn unit_of<J: Job<Stored<D>>>(&mut self, job: &mut J) -> Result<Progress, Fault>
        requires fits { AsOpened (seen self.old).last (J.fits job.old) (store_in self.old) }
        requires kept { (pfs : ℕ) → J.kept job.old pfs ≡ None }
        requires places { IsFalse (J.places job.old) }
        ensures hands { Hands (seen self.old) (seen self.new) result }
        ensures goes { ¬ IsFull (seen self.old) → IfOk result (λ progress. AsOpenedAfter (seen self.old).last
            (seen self.old).heap (seen self.old).root
            (λ s. IfProgress (J.goes job.new s) (J.ends job.new s) progress) (store_in self.new)) }
        ensures tells { (J.kept job.new ≡ J.kept job.old) × (J.places job.new ≡ J.places job.old) }
        ensures job { HasKnown (seen self.old).last (seen self.old).heap (seen self.old).root
            → KeepsJob J.fits J.kept J.places J.place job.old job.new result }
        ensures full { IsFull (seen self.old) → job.new ≡ job.old }
        ensures choices { KeepChoices (λ opening. choice_of opening self.old) (λ opening. choice_of opening self.new)
            (seen self.old).running }
        ensures follows { Follows (D.left_since (devices self.old).disk) (D.left_since (devices self.new).disk)
            (seen self.old) (seen self.new) }
        ensures crashes { LeavesHeld (D.left_since (devices self.old).disk) (D.left_since (devices self.new).disk)
            (seen self.old) }
        ensures live { UnitKeepsLive (seen self.old) (seen self.new) }
        ensures size { (seen self.new).flush.header.bigblocks ≡ (seen self.old).flush.header.bigblocks }
        ensures streams { KeepsStreams (devices self.old) (devices self.new) }
    {
        if self.stored.space().group_len() >= FULL_GROUP_PAGES {
            self.make_stage()?;
            return Ok(Progress::More);
        }
        self.do_handed(job)
    }

    // Does a unit of it.
    fn do_handed<J: Job<Stored<D>>>(&mut self, job: &mut J) -> Result<Progress, Fault>
        requires fits { AsOpened (seen self.old).last (J.fits job.old) (store_in self.old) }
        requires kept { (pfs : ℕ) → J.kept job.old pfs ≡ None }
        requires places { IsFalse (J.places job.old) }
        ensures waits { Waits (seen self.old) (seen self.new) }
        ensures does { DoesHanded (seen self.old) (seen self.new) result }
        ensures fails { IfErr result (FailsWith (seen self.old) (seen self.new)) }
        ensures goes { IfOk result (λ progress. AsOpenedAfter (seen self.old).last
            (seen self.old).heap (seen self.old).root
            (λ s. IfProgress (J.goes job.new s) (J.ends job.new s) progress) (store_in self.new)) }
        ensures tells { (J.kept job.new ≡ J.kept job.old) × (J.places job.new ≡ J.places job.old) }
        ensures job { HasKnown (seen self.old).last (seen self.old).heap (seen self.old).root
            → KeepsJob J.fits J.kept J.places J.place job.old job.new result }
        ensures running { self.new.running ≡ self.old.running }
        ensures follows { Follows (D.left_since (devices self.old).disk) (D.left_since (devices self.new).disk)
            (seen self.old) (seen self.new) }
        ensures crashes { LeavesHeld (D.left_since (devices self.old).disk) (D.left_since (devices self.new).disk)
            (seen self.old) }
        ensures live { CallKeepsLive (seen self.old) (seen self.new) }
        ensures streams { KeepsStreams (devices self.old) (devices self.new) }
    {
        self.core_is_sound();
        let result = job_over(&mut self.stored, job, self.last);
        self.core_is_sound();
        result
    }
}
