//! What holds of the program's definitions alone.

ghost use Rattle.std.specs.Prelude.{◌≡◌, ℕ, List, Option};
ghost use Rattle.sam_host.specs.Host.{PlainHost};
ghost use Rattle.sam_modes.specs.Outcome.{Plays};
ghost use Rattle.sam_ends.specs.declared.stop.Stop.{Stop};

use sam_mesg::{frame_says_t, one_frame_t};

/// States that over one host an input has one output and one end. So the program ends well only if nothing stops it, and it stops at a
/// fault of a side only if that fault is the first. The function changes nothing; its clause is the law.
pub fn one_outcome()
    ensures { (h : PlainHost) (input first second : List ℕ) (one other : Option Stop) → Plays h input first one
        → Plays h input second other → (first ≡ second) × (one ≡ other) }
{
    frame_says_t();
    one_frame_t();
}
