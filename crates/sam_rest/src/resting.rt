//! The call that brings a world to rest.
ghost use Rattle.std.specs.Prelude.{◌≡◌, Err, false, IfErr, OnErr, OnOk, true};
ghost use Rattle.sam_crossing.specs.World.{WasReached};
ghost use Rattle.sam_local.specs.Worlds.{is_at_rest};
ghost use Rattle.sam_rest.specs.Rest.{GoesOn, IsDone};
ghost use Rattle.sam_world.specs.Faults.{IsNextFault};

use sam_world::{StepFault, World};

/// What can be brought to rest: a [`World`]. It is a trait because `World` stands in a lower crate, which knows none of the laws that
/// say that this ends.
pub trait Rest {
    /// Makes events happen until none applies, without a limit, each of them the one that `World::drain` would make happen next. It ends in
    /// every world, however much is under way. The user does nothing in them, and no file joins. At `Ok` all is done: nothing is unsent,
    /// under way, held or locked, and no request awaits its data. Where all is done already, it returns `Ok` and changes nothing.
    ///
    /// Errors: `CountFull` if and only if it comes to an event that would take a count of messages past 2^64-1. `OutOfMemory` may come at
    /// any other event. `NothingThere` and `Barred` never come. After an error the events before it have happened, and the next one has
    /// not.
    fn rest(&mut self) -> Result<(), StepFault>;
}

impl Rest for World {
    #[tactic(auto, using(crate::proofs::Drains::resting_facts))]
    fn rest(&mut self) -> Result<(), StepFault>
        ensures led { GoesOn self.old self.new }
        ensures done { OnOk result (IsDone self.new) }
        ensures rested { OnErr result (is_at_rest self.old ≡ false) }
        ensures still { is_at_rest self.old ≡ true → self.new ≡ self.old }
        ensures stopped { IfErr result (λ why. IsNextFault self.new why) }
        ensures something { (result ≡ Err StepFault.NothingThere) → ⊥ }
        ensures no_file { (result ≡ Err StepFault.Barred) → ⊥ }
    {
        'drains: while !is_resting(self) {
            self.drain()?;
        }
        Ok(())
    }
}

/// Returns true if and only if nothing is unsent, under way or held.
fn is_resting(world: &World) -> bool
    ensures rests { result ≡ is_at_rest world.now }
    ensures reached { WasReached world.now }
{
    world.facts();
    world.quiet() && world.term().held() == 0
}
