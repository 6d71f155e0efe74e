//! What every step of a warp keeps.
ghost use Rattle.std.specs.Prelude.{◌≡◌, ◌<◌, ◌≤◌, ◌&&◌, ℕ, List, length, nat_eq, not, true, false};
ghost use Rattle.vx_isa.specs.Warps.{WarpState, has_lane, value_in};
ghost use Rattle.vx_isa.specs.WarpSteps.{Fields, Stays, is_trap, nonzero_lanes, warp_step, zero_lanes};
ghost use Rattle.vx_isa.specs.declared.warps.Ids.{Ids as Numbers};

/// A lane that is not active keeps its registers. A stack never gets more than 64 entries. A warp that traps stays where it
/// was, with its mask and its stack. The two sides of a `split` are the active lanes in which the register is not 0, and
/// those in which it is 0.
pub fn steps_keep()
    ensures inactive { (has : Fields) (ids : Numbers) (code : List ℕ) (answers : ℕ → ℕ) (w : WarpState) (lane : ℕ) →
        length w.stack ≤ 64 → has_lane w.mask lane ≡ false →
        (warp_step has ids code answers w).warp.registers lane ≡ w.registers lane }
    ensures depth { (has : Fields) (ids : Numbers) (code : List ℕ) (answers : ℕ → ℕ) (w : WarpState) →
        length w.stack ≤ 64 → length (warp_step has ids code answers w).warp.stack ≤ 64 }
    ensures trapped { (has : Fields) (ids : Numbers) (code : List ℕ) (answers : ℕ → ℕ) (w : WarpState) →
        length w.stack ≤ 64 → is_trap (warp_step has ids code answers w).outcome ≡ true →
        Stays w (warp_step has ids code answers w).warp }
    ensures nonzero { (w : WarpState) (r lane : ℕ) → lane < 32 →
        has_lane (nonzero_lanes w r) lane ≡ (has_lane w.mask lane && not (nat_eq (value_in (w.registers lane) r) 0)) }
    ensures zero { (w : WarpState) (r lane : ℕ) → lane < 32 →
        has_lane (zero_lanes w r) lane ≡ (has_lane w.mask lane && nat_eq (value_in (w.registers lane) r) 0) }
{}
