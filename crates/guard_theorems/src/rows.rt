//! A computed attack.
ghost use Rattle.std.specs.Prelude.{◌≡◌, true, false, codes};
ghost use Rattle.own_model.specs.Text.{lines_of};
ghost use Rattle.guard_theorems.specs.Guarded.{guarded_transcript};
ghost use Rattle.guard_theorems.specs.Rows.{shared_store, attack};

/// States a computed example. A crawler that donated for a session alone creates a file (line 1). With guards it is refused.
/// Without them it takes what a reader donated, whose own file (line 2) is then refused.
pub fn guards_decide_an_attack()
    ensures guarded { guarded_transcript true shared_store (lines_of attack)
        ≡ codes "crawler: ERR OUT_OF_RAM\nreader: OK\n" }
    ensures unguarded { guarded_transcript false shared_store (lines_of attack)
        ≡ codes "crawler: OK\nreader: ERR OUT_OF_RAM\n" }
{}
