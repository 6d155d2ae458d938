//! Laws of edits that wait over a terminal's end, of which the clauses of `sam_overlay` speak. Each is the contract of a function that does
//! nothing.

ghost use Rattle.sam_overlay.specs.Effects.{CellsFollow, WaitingStays};
ghost use Rattle.sam_overlay.specs.Calls.{RestsShow};
ghost use Rattle.sam_overlay.specs.Marks.{InsertionsMovePlaces};
ghost use Rattle.sam_overlay.specs.Requests.{RequestsFindTheirText};
ghost use Rattle.sam_overlay.specs.Outcomes.{TypedShows};
ghost use Rattle.sam_overlay.specs.Frames.{FramesMoveRasps};

/// States what a frame that the terminal takes does to the rasp of each file: what `effect` says, and its places are within the rasp.
#[tactic(auto, using(sam_overlay::proofs::EffectLaws::frames_move_rasps))]
pub fn frames_move_rasps()
    ensures { FramesMoveRasps }
{}

/// States that the cells over a rasp go with it: those that are in the rasp become the members that the frame leaves there.
#[tactic(auto, using(sam_overlay::proofs::OutcomeLaws::cells_follow))]
pub fn cells_follow()
    ensures { CellsFollow }
{}

/// States that no frame takes, adds or reorders what waits, but one that ends its file.
#[tactic(auto, using(sam_overlay::proofs::OutcomeLaws::waiting_stays))]
pub fn what_waits_stays()
    ensures { WaitingStays }
{}

/// States what `Overlay::replace` does to what is shown, and that the rasp stays meanwhile.
#[tactic(auto, using(sam_overlay::proofs::CallLaws::typed_shows))]
pub fn typed_shows()
    ensures { TypedShows }
{}

/// States that where nothing waits the rasp is shown. So once `put_next` answers `Nothing` the rasp is what was shown as the edits were
/// put, since nothing that is shown moves by them.
#[tactic(auto, using(sam_overlay::proofs::CallLaws::rests_show))]
pub fn rests_show()
    ensures { RestsShow }
{}

/// States that a request finds the text that was shown as it was asked for, with the host's changes since: once no edit before it is left
/// to put, the rasp is that text. `cells::requests_find_what_was_shown` says what changes it meanwhile.
#[tactic(auto, using(sam_overlay::proofs::RequestLaws::requests_find_their_text))]
pub fn requests_find_their_text()
    ensures { RequestsFindTheirText }
{}

/// States where a place, of the text that a request comes to, goes as the host puts members into the rasp: the text before it is what stood
/// before it, with what came in before the place. `cells::places_stay_behind_their_text` says the same of removals.
#[tactic(auto, using(sam_overlay::proofs::MarkLaws::insertions_move_places))]
pub fn insertions_move_places()
    ensures { InsertionsMovePlaces }
{}
