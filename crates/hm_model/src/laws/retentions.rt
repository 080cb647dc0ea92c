// Laws of retentions: cuts and joins read as sets of ids.
ghost use Rattle.std.specs.Prelude.{◌≡◌, ◌↔◌, ℕ, List, Some, IsTrue, map};
ghost use Rattle.hm_retain.specs.Intervals.{IsIntervals};
ghost use Rattle.hm_retain.specs.Retention.{IsCut, IsJoin};
ghost use Rattle.hm_types.specs.declared.id.Id.{Id};
ghost use Rattle.hm_types.specs.Intervals.{Keeps};
ghost use Rattle.hm_model.specs.Cut.{cut, join};
ghost use Rattle.hm_model.specs.Volume.{PseudoFileSystem, Volume, system_of};
ghost use Rattle.hm_model.specs.Walk.{is_kept};

/// A cut of a retention keeps of it the listed ids, and all from the given one on. It is the only
/// list of maximal intervals that does.
pub fn cuts_keep_what_is_listed()
    ensures keeps { (retention : List (ℕ × ℕ)) (ids : List Id) (from : ℕ) →
        IsCut retention ids from (cut retention (map (λ (id : Id). id.0) ids) from) }
    ensures intervals { (retention : List (ℕ × ℕ)) (ids : List ℕ) (from : ℕ) →
        IsIntervals retention → IsIntervals (cut retention ids from) }
    ensures alone { (retention : List (ℕ × ℕ)) (ids : List Id) (from : ℕ) (list : List (ℕ × ℕ)) →
        IsIntervals retention → IsIntervals list → IsCut retention ids from list →
        list ≡ cut retention (map (λ (id : Id). id.0) ids) from }
{}

/// A join keeps what a retention keeps, and what another one keeps after the begin id and up to the
/// end id. It is the only list of maximal intervals that does.
pub fn joins_keep_both()
    ensures keeps { (retention other : List (ℕ × ℕ)) (begin end : ℕ) →
        IsJoin retention other begin end (join retention other begin end) }
    ensures intervals { (retention other : List (ℕ × ℕ)) (begin end : ℕ) →
        IsIntervals retention → IsIntervals other →
        IsIntervals (join retention other begin end) }
    ensures alone { (retention other : List (ℕ × ℕ)) (begin end : ℕ) (list : List (ℕ × ℕ)) →
        IsIntervals retention → IsIntervals other → IsIntervals list →
        IsJoin retention other begin end list → list ≡ join retention other begin end }
{}

/// Walks and passes mean the same by "a PFS keeps an id": some interval of its retention holds it.
pub fn walks_find_what_is_kept()
    ensures { (volume : Volume) (pfs id : ℕ) (s : PseudoFileSystem) →
        system_of volume pfs ≡ Some s →
        (IsTrue (is_kept volume pfs id) ↔ Keeps s.retention id) }
{}
