// Laws of accepted calls: where they land.
ghost use Rattle.std.specs.Prelude.{◌≡◌, ℕ, List, [], ◌∷◌, false};
ghost use Rattle.std.specs.List.{Contains};
ghost use Rattle.hm_model.specs.After.{Event};
ghost use Rattle.hm_model.specs.Call.{Call, all_located};
ghost use Rattle.hm_model.specs.declared.reply.Reply.{Reply};
ghost use Rattle.hm_model.specs.declared.reply.Reply.TheVariants.{Done};
ghost use Rattle.hm_model.specs.SingleCalls.{a_root, touching};
ghost use Rattle.hm_model.specs.Legal.{IsReply, Lands, MayFollow, Setting, call_after};
ghost use Rattle.hm_model.specs.Reply.{is_refusal};
ghost use Rattle.hm_model.specs.Sites.{Nowhere};
ghost use Rattle.hm_model.specs.Walk.{Passed};

/// Where all trees are certain, the reply of an accepted call says already that its walks end, no tree
/// call's in a slave, that the records of PFS allow it, and that the PFS it names is the one it adds.
pub fn accepted_calls_land()
    ensures { (least : ℕ) (call : Call) (reply : Reply) →
        IsReply least call reply → is_refusal reply ≡ false → Lands call reply }
{}

/// Where trees are not certain, an accepted call lands under those that it saw: in a master of which
/// no tree is known, a `touch` lands where it saw a root there.
pub fn calls_land_under_the_trees_that_they_saw()
    ensures seen { Lands (touching (a_root ∷ [])) Done }
{}

/// No walk of an accepted call ends nowhere, in any legal history.
pub fn accepted_calls_end_their_walks()
    ensures { (run : Setting) (before : List Event) (event : Event) (reply : Reply)
        (passed : Passed) → MayFollow run before event → is_refusal event.entry.reply ≡ false →
        Contains (all_located (call_after run before event)) (Nowhere reply passed) → ⊥ }
{}
