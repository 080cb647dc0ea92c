// Laws of tree calls: what they leave as it was.
ghost use Rattle.std.specs.Prelude.{
  ◌≡◌,
  ◌≢◌,
  ℕ,
  ◌<◌,
  List,
  [],
  ◌∷◌,
  Bool,
  true,
  false,
  Some,
  None,
};
ghost use Rattle.hm_types.specs.declared.text.Text.{Text};
ghost use Rattle.hm_model.specs.declared.command.Command.TheVariants.{PfsMaster, PfsSlave};
ghost use Rattle.hm_model.specs.After.{Event, State, after_event, last_after, on_volume};
ghost use Rattle.hm_model.specs.Call.{Call, own_id};
ghost use Rattle.hm_model.specs.Change.{change, changed, changed_pfs, new_slave};
ghost use Rattle.hm_model.specs.Due.{new_pfs};
ghost use Rattle.hm_model.specs.Laws.{adds_pfs, only_looks};
ghost use Rattle.hm_types.specs.Tree.{root_tree};
ghost use Rattle.hm_model.specs.View.{Now};
ghost use Rattle.hm_model.specs.Volume.{
  PseudoFileSystem,
  Volume,
  add_version,
  at,
  new_master,
  system_of,
};

/// The number that a new PFS takes is the least that no PFS has.
pub fn new_numbers_are_unused()
    ensures unused { (volume : Volume) → system_of volume (new_pfs volume) ≡ None }
    ensures least { (volume : Volume) (number : ℕ) → number < new_pfs volume →
        (s : PseudoFileSystem) × (system_of volume number ≡ Some s) }
{}

/// An accepted tree call leaves the tree of every PFS as of every id below its own.
pub fn calls_leave_the_past()
    ensures { (call : Call) (pfs id : ℕ) → id < own_id call →
        at (change call) pfs id ≡ at call.volume pfs id }
{}

/// An accepted tree call changes the one PFS in which its walk ends, and no other; `pfs-master` and
/// `pfs-slave` add one besides, under a number that no PFS had. The changed one gets a version more;
/// its role, its retention and all else of it stay.
pub fn calls_change_one_pfs()
    ensures others { (call : Call) (pfs : ℕ) →
        pfs ≢ changed_pfs call → pfs ≢ new_pfs call.volume →
        system_of (change call) pfs ≡ system_of call.volume pfs }
    ensures all { (call : Call) (pfs : ℕ) →
        pfs ≢ changed_pfs call → adds_pfs call.command ≡ false →
        system_of (change call) pfs ≡ system_of call.volume pfs }
    ensures changed { (call : Call) (s : PseudoFileSystem) →
        system_of call.volume (changed_pfs call) ≡ Some s →
        system_of (change call) (changed_pfs call)
        ≡ Some (add_version (own_id call) (changed call (call.view (changed_pfs call) Now)) s) }
{}

/// What `pfs-master` adds is a master whose tree is the root alone, from the call's id on, and which
/// keeps every id. What `pfs-slave` adds is a slave that has and keeps nothing and has no source.
pub fn new_systems_begin_empty()
    ensures master { (call : Call) (path : Text) (shared : ℕ) →
        call.command ≡ PfsMaster path shared →
        system_of (change call) (new_pfs call.volume)
        ≡ Some (new_master (new_pfs call.volume) shared ((own_id call, root_tree) ∷ [])) }
    ensures slave { (call : Call) (path : Text) (shared : ℕ) →
        call.command ≡ PfsSlave path shared →
        system_of (change call) (new_pfs call.volume)
        ≡ Some (new_slave (new_pfs call.volume) shared) }
{}

/// A call that only looks changes nothing but the last id, whatever it is answered.
pub fn looks_change_nothing()
    ensures { (state : State) (event : Event) → only_looks event.entry.call ≡ true →
        after_event state event
        ≡ on_volume state (record state.volume { last = last_after event.entry }) }
{}
