//! The laws. Each is the clause of a function that does nothing: a caller who needs the law calls the function.
//!
//! First those of runs: every run of a world comes to what its events do to the editor without a network. Then what each of the 25 events
//! of the user does to that editor: the editor after it is the one before it with just the changes that the law names. These hold of
//! every editor to which events have led from files within the limits (`IsReached`), where nothing stands against the event (`May`); one
//! that something stands against does nothing.
ghost use Rattle.sam_local.specs.Worlds.{RunsComeInOrder, RunsAreAsIfLocal, RestIsAsIfLocal, OneRestForAll, AloneInOrder};
ghost use Rattle.sam_local.specs.Editing.{RefusedDoesNothing, TypingReplaces, SelectSets, CutMoves, PasteReplaces, EditReplaces, EditOfNothingKeeps, SnarfCopies, SetSnarfSets, GetSnarfFetches, EmptyDotKeeps, LookSelects, LookKeeps, SearchSelects, SendRuns, DclickSelects, ScrollShows, ViewShows, LoadShows, CheckAndFlushKeep, OpenOpens, CloseDrops, WriteSaves, WorkSets, CommandFileOpens, NewMakes, ExitEnds, VersionAgrees, FileJoins, NamesAndMarksAgree};

/// Says that wherever a run stands, what the world comes to with nothing new done is what its doings, in their order, lead the editor
/// without a network to. The doings are all files that joined, and all events of the user but those that are still held; an event that is
/// refused does nothing there, too. A file stands among them just before the first event whose message had not reached the host when it
/// joined, as far as any answer can tell: it is there for that event and all later ones, and for none that was answered. An open file that
/// is not locked is shown as that editor has it: its name, its marks, its dot and its view, and its runes as far as they are loaded.
/// Whatever the user does next waits, or it is refused where that editor refuses it, and for the same reason.
///
/// That editor knows no marks of a program. So a file that was marked in the run may be dirty though it is clean there: then the host has
/// it so, and the terminal says so. That ends once a write or a close of the file acts. It is not said whether a mark stands that came
/// while a write was on its way. All else is as there.
///
/// At rest, where nothing is unsent, under way or held, both sides are where all doings of the run lead that editor, but for runes that
/// are not loaded and for counts of messages: the texts, names, marks, saved copies, dots, snarf buffer, pattern, work file, version and
/// end of the host, and the names, marks, dots, views, current file, pattern and snarfed text of the terminal. Its names are the host's
/// then, and so is what it says of each file but the command file: whether that is dirty. So two runs from the same files in which the
/// same was done, in the same order, differ in nothing else where they are at rest, but for which of the marked files are dirty. Where no
/// file joins, that order is the one in which the user did it.
pub fn runs_are_as_if_local()
    ensures order { RunsComeInOrder }
    ensures run { RunsAreAsIfLocal }
    ensures rest { RestIsAsIfLocal }
    ensures one { OneRestForAll }
    ensures alone { AloneInOrder }
{}

/// Says that an event that something stands against changes nothing.
#[tactic(auto, using(crate::proofs::Editing::refused_does_nothing))]
pub fn refused_does_nothing()
    ensures { RefusedDoesNothing }
{}

/// Says that typing puts its runes in the place of the dot, and the dot after them. Where they end a line of the command file, that line
/// is run on the files as they are then: its outcome is there, what it prints is printed, and the session is over where it quits.
pub fn typing_replaces()
    ensures { TypingReplaces }
{}

/// Says that a select sets the dot at the terminal.
pub fn select_sets()
    ensures { SelectSets }
{}

/// Says that a cut moves the text of the dot into the snarf buffer.
pub fn cut_moves()
    ensures { CutMoves }
{}

/// Says that a paste puts the snarf buffer in the place of the dot, which then is what was pasted. Where the buffer is empty, or the text
/// would be too long, the dot goes and nothing comes.
pub fn paste_replaces()
    ensures { PasteReplaces }
{}

/// Says that an edit puts its text, of any length, in the place of its range. The file is changed then, the window shows the new text,
/// and its dot and its view move as other places do. An edit by which nothing goes and nothing comes changes nothing.
#[tactic(auto, using(crate::proofs::Replacing::edit_of_nothing_keeps))]
pub fn edit_replaces()
    ensures text { EditReplaces }
    ensures nothing { EditOfNothingKeeps }
{}

/// Says that a snarf copies the text of the dot into the snarf buffer.
#[tactic(auto, using(crate::proofs::Editing::snarf_copies))]
pub fn snarf_copies()
    ensures { SnarfCopies }
{}

/// Says that the snarf buffer is what it is set to, and how much of it the terminal fetches.
#[tactic(auto, using(crate::proofs::Editing::set_snarf_sets, crate::proofs::Looking::get_snarf_fetches))]
pub fn snarf_buffer_is_set_and_fetched()
    ensures set { SetSnarfSets }
    ensures fetched { GetSnarfFetches }
{}

/// Says that where the dot is empty a cut, a snarf and a send change nothing.
pub fn empty_dot_keeps()
    ensures { EmptyDotKeeps }
{}

/// Says that a look makes the text of the dot the pattern, and selects and shows the next place where it stands; where that text can't be
/// a pattern, it changes nothing.
#[tactic(auto, using(crate::proofs::Looking::look_keeps))]
pub fn look_selects()
    ensures found { LookSelects }
    ensures none { LookKeeps }
{}

/// Says that a search selects and shows the next place where the pattern stands, if there is one.
pub fn search_selects()
    ensures { SearchSelects }
{}

/// Says that a double click selects the word at its place.
pub fn dclick_selects()
    ensures { DclickSelects }
{}

/// Says that a send prints the text of the dot as lines in the command file, and runs the last of them. Where that file has no room for
/// them, it changes nothing.
#[tactic(auto, using(crate::proofs::Lines::send_runs))]
pub fn send_runs()
    ensures { SendRuns }
{}

/// Says what a view, a load and a scroll show, and that a check and a flush change nothing, since all is loaded and sent.
pub fn looking_changes_no_text()
    ensures view { ViewShows }
    ensures load { LoadShows }
    ensures scroll { ScrollShows }
    ensures keep { CheckAndFlushKeep }
{}

/// Says that a file that is opened has a window and is the work file, and that the command file has a window once it is opened: a new one
/// at the front, where it had none.
#[tactic(auto, using(crate::proofs::Opening::command_file_opens))]
pub fn open_opens()
    ensures file { OpenOpens }
    ensures command { CommandFileOpens }
{}

/// Says that a new file stands under the next tag, in a window, and is the work file and the current one. Where no tag is left, this is
/// printed.
pub fn new_makes()
    ensures { NewMakes }
{}

/// Says that a file that is closed is gone on both sides, and that no command line works on it.
#[tactic(auto, using(crate::proofs::Editing::close_drops))]
pub fn close_drops()
    ensures { CloseDrops }
{}

/// Says that a file that is written is clean on both sides, and its text is saved.
#[tactic(auto, using(crate::proofs::Editing::write_saves))]
pub fn write_saves()
    ensures { WriteSaves }
{}

/// Says that the work file is the one that was made so last, on the dot that the user sees.
#[tactic(auto, using(crate::proofs::Editing::work_sets))]
pub fn work_sets()
    ensures { WorkSets }
{}

/// Says that an exit ends the session on both sides.
#[tactic(auto, using(crate::proofs::Editing::exit_ends))]
pub fn exit_ends()
    ensures { ExitEnds }
{}

/// Says that a file that joins is there under the next tag, clean and closed, and that nothing else changes.
#[tactic(auto, using(crate::proofs::Doings::file_joins))]
pub fn file_joins()
    ensures { FileJoins }
{}

/// Says that both sides speak the version that is agreed on, and that the terminal has the names of all files but the command file then.
#[tactic(auto, using(crate::proofs::Opening::version_agrees))]
pub fn version_agrees()
    ensures { VersionAgrees }
{}

/// Says that the terminal has the host's names of all files that it knows, and says of each file but the command file whether it is
/// dirty.
#[tactic(auto, using(crate::proofs::Names::names_and_marks_agree))]
pub fn names_and_marks_agree()
    ensures { NamesAndMarksAgree }
{}
