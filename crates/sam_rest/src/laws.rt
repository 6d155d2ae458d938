//! The laws. Each is the clause of a function that does nothing: a caller who needs the law calls the function.
ghost use Rattle.sam_rest.specs.Loaded.{ViewsAreLoaded};
ghost use Rattle.sam_rest.specs.Names.{VersionTellsNames};
ghost use Rattle.sam_rest.specs.Rest.{DoneIsStuck, StepsEnd, StuckIsDone};

/// Says that where no event but the user's or a file that joins would change anything, all is done: nothing is unsent, under way, held or
/// locked, and no request awaits its data. This supposes that the counts of messages have room. And where all is done, no such event
/// changes anything.
pub fn stuck_is_done()
    ensures done { StuckIsDone }
    ensures stuck { DoneIsStuck }
{}

/// Says that in every world events that are neither the user's nor a file that joins, each of which changes something, come to an end,
/// whatever their order: there is a number such that no list of them is longer.
#[tactic(auto, using(crate::proofs::Ends::steps_end))]
pub fn steps_end()
    ensures { StepsEnd }
{}

/// Says that where a `View` or a `Load` is held and nothing stands against it, no gap stands in the view of its file once all is done,
/// with no further event of the user. The events that are held after it only look: each is a `View`, a `Load`, a `Select` or a `Flush`,
/// of any file. Of a view after which other events act it says nothing.
pub fn views_are_loaded()
    ensures { ViewsAreLoaded }
{}

/// Says that after a Version the terminal knows every file of the host by its name: where a host that is not done has taken a `Tversion`
/// and no file has joined since, then, whatever else happened, the names agree wherever no frame is under way to the terminal. The command
/// file is left out: the answer to `Tstartcmdfile` has its name.
#[tactic(auto, using(crate::proofs::Names::version_tells_names))]
pub fn version_tells_names()
    ensures { VersionTellsNames }
{}
