//! Laws of scripts and runs. Each is the clause of a function that does nothing: a caller who needs the law calls the function.

ghost use Rattle.std.specs.Prelude.{◌≡◌, ◌≤◌, ℕ, List, Some, Ok, length};
ghost use Rattle.std.specs.List.{AllByRecursion};
ghost use Rattle.sam_runes.specs.Texts.{most_files};
ghost use Rattle.sam_crossing.specs.declared.event.Event.{Event};
ghost use Rattle.sam_crossing.specs.World.{PlainWorld, new_world, run_of};
ghost use Rattle.sam_script.specs.Replay.{replayed};
ghost use Rattle.sam_script.specs.Show.{show_lines};
ghost use Rattle.sam_script.specs.RunLines.{run_lines_of, run_script, CanBeNamed, CanBeWritten};
ghost use Rattle.sam_script.specs.Script.{PlainScript};
ghost use Rattle.sam_script.specs.Spelling.{Spells};

/// Says that bytes spell at most one script.
pub fn one_script()
    ensures { (bytes : List ℕ) (a b : PlainScript) → Spells bytes a → Spells bytes b → a ≡ b }
{}

/// Says that what `run_lines` writes of files and events within the limits is read back as just these, and a last `show`.
#[tactic(auto, using(crate::proofs::RunSpelled::run_is_spelled))]
pub fn run_is_spelled()
    ensures { (files : List (List ℕ × List ℕ)) (events : List Event) → length files ≤ most_files → AllByRecursion CanBeNamed files
        → AllByRecursion CanBeWritten events → Spells (run_lines_of files events) (run_script files events) }
{}

/// Says that the script that `run_lines` writes of a run, read and replayed, shows the world to which the run leads.
#[tactic(auto, using(crate::proofs::RunReplayed::run_replayed))]
pub fn run_is_replayed()
    ensures { (files : List (List ℕ × List ℕ)) (events : List Event) (w : PlainWorld) (script : PlainScript) → length files ≤ most_files
        → AllByRecursion CanBeNamed files → AllByRecursion CanBeWritten events → run_of (new_world files) events ≡ Some w
        → Spells (run_lines_of files events) script → replayed script ≡ Ok (show_lines w) }
{}
