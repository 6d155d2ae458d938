//! Laws of the cells over one rasp, of which the clauses of `sam_pending` speak. Each is the contract of a function that does nothing; a
//! caller's proof may use what it says.

ghost use Rattle.std.specs.Prelude.{◌≡◌, ◌<◌, ◌≤◌, ◌+◌, ◌++◌, ℕ, List, length, map, take, drop, reverse, Some, All};
ghost use Rattle.sam_pending.specs.Groups.{DropsMovePlaces, EditsKeepText, PutIsText, RemovalsGoOutOfText, RemovalsMovePlaces};
ghost use Rattle.sam_pending.specs.Cells.{Cell, PartialText, Change, put, all_put, in_rasp, rasp_of, shown_of, waiting_of, resting, part_by, shown_place, replaced, inserted, removed, filled, gone_from, text_at, place_at, IsNewest, IsMade, IsTakenBack};
ghost use Rattle.sam_waiting.specs.OneMachine.{Act, Ends, File, Leads, found, local_found, local_text, to_find, unasked};

/// States that what is typed is what is seen: `s` in place of what was shown from `p` to `q`. While the edit waits the rasp stays.
pub fn typed_is_shown()
    ensures shown { (cs : List Cell) (g p q : ℕ) (s : List ℕ) → p ≤ q →
        shown_of (replaced g p q s cs) ≡ take p (shown_of cs) ++ map Some s ++ drop q (shown_of cs) }
    ensures rasp { (cs : List Cell) (g p q : ℕ) (s : List ℕ) → p ≤ q → rasp_of (replaced g p q s cs) ≡ rasp_of cs }
{}

/// States that a frame that inserts does so in the rasp and, as one splice, in what is shown.
pub fn insertions_come_in()
    ensures rasp { (cs : List Cell) (p : ℕ) (new : PartialText) →
        rasp_of (inserted p new cs) ≡ take p (rasp_of cs) ++ new ++ drop p (rasp_of cs) }
    ensures shown { (cs : List Cell) (p : ℕ) (new : PartialText) →
        shown_of (inserted p new cs) ≡ take (shown_place p cs) (shown_of cs) ++ new ++ drop (shown_place p cs) (shown_of cs) }
{}

/// States that a frame that removes does so in the rasp; what is shown keeps, between the places of that range, what waits there.
pub fn removals_go_out()
    ensures rasp { (cs : List Cell) (p q : ℕ) → p ≤ q → rasp_of (removed p q cs) ≡ take p (rasp_of cs) ++ drop q (rasp_of cs) }
    ensures shown { (cs : List Cell) (p q : ℕ) → p ≤ q → shown_of (removed p q cs)
        ≡ take (shown_place p cs) (shown_of cs) ++ shown_of (waiting_of (part_by in_rasp p q cs)) ++ drop (shown_place q cs) (shown_of cs) }
{}

/// States that what is shown of a range that a frame removes goes by removals alone, one after another, the last first.
pub fn removals_go_one_by_one()
    ensures { (cs : List Cell) (p q : ℕ) → p ≤ q →
        all_put (shown_of cs) (reverse (gone_from (shown_place p cs) (part_by in_rasp p q cs))) ≡ shown_of (removed p q cs) }
{}

/// States that a frame that loads runes stores them in the rasp, and moves nothing that is shown.
pub fn runes_are_stored()
    ensures rasp { (cs : List Cell) (p : ℕ) (s : List ℕ) → p + length s ≤ length (rasp_of cs) →
        rasp_of (filled p s cs) ≡ take p (rasp_of cs) ++ map Some s ++ drop (p + length s) (rasp_of cs) }
    ensures shown { (cs : List Cell) (p : ℕ) (s : List ℕ) →
        (length (shown_of (filled p s cs)) ≡ length (shown_of cs))
        × (take (shown_place p cs) (shown_of (filled p s cs)) ≡ take (shown_place p cs) (shown_of cs)) }
{}

/// States that no frame takes away, adds or reorders what waits. Only a file that is closed loses it.
pub fn nothing_typed_is_lost()
    ensures inserted { (cs : List Cell) (p : ℕ) (new : PartialText) → waiting_of (inserted p new cs) ≡ waiting_of cs }
    ensures removed { (cs : List Cell) (p q : ℕ) → waiting_of (removed p q cs) ≡ waiting_of cs }
    ensures filled { (cs : List Cell) (p : ℕ) (s : List ℕ) → waiting_of (filled p s cs) ≡ waiting_of cs }
{}

/// States that while nothing waits the rasp is shown.
#[tactic(auto, using(sam_pending::proofs::CellLaws::rasp_resting, sam_pending::proofs::CellLaws::shown_resting))]
pub fn resting_shows_the_rasp()
    ensures rasp { (r : PartialText) → rasp_of (resting r) ≡ r }
    ensures shown { (r : PartialText) → shown_of (resting r) ≡ r }
{}

/// States what a request of group `g` comes to: the text that was shown as it was asked for, which no later group changes. A frame that
/// inserts does so in it. `requests_find_what_was_shown` says that it is what the rasp becomes.
pub fn requests_come_to_what_was_shown()
    ensures asked { (cs : List Cell) (g : ℕ) → All (IsNewest g) cs → text_at g cs ≡ shown_of cs }
    ensures later { (cs : List Cell) (g h p q : ℕ) (s : List ℕ) → g < h → text_at g (replaced h p q s cs) ≡ text_at g cs }
    ensures inserted { (cs : List Cell) (g p : ℕ) (new : PartialText) →
        text_at g (inserted p new cs) ≡ take (place_at g p cs) (text_at g cs) ++ new ++ drop (place_at g p cs) (text_at g cs) }
{}

/// States that as runes are taken back what is shown changes by one removal, and the rasp stays.
pub fn runes_are_taken_back()
    ensures shown { (cs ds : List Cell) (p n : ℕ) (s : List ℕ) → IsTakenBack cs p n s ds →
        shown_of ds ≡ take p (shown_of cs) ++ drop (p + n) (shown_of cs) }
    ensures rasp { (cs ds : List Cell) (p n : ℕ) (s : List ℕ) → IsTakenBack cs p n s ds → rasp_of ds ≡ rasp_of cs }
{}

/// States that as an edit of what waits comes to the rasp what is shown stays.
#[tactic(auto, using(sam_pending::proofs::DueLaws::made_texts))]
pub fn edits_come_one_by_one()
    ensures shown { (cs ds : List Cell) (e : Change) → IsMade cs e ds → shown_of ds ≡ shown_of cs }
    ensures rasp { (cs ds : List Cell) (e : Change) → IsMade cs e ds → rasp_of ds ≡ put (rasp_of cs) e }
{}

/// States that a request finds what was shown as it was asked for, with the host's changes since, once the edits of its group and of those
/// before it came to the rasp: none of them changes the text that it comes to, and that is then the rasp. The host's removals go out of
/// it; `requests_come_to_what_was_shown` says the same of insertions.
pub fn requests_find_what_was_shown()
    ensures keep { EditsKeepText }
    ensures put { PutIsText }
    ensures removed { RemovalsGoOutOfText }
{}

/// States where a place, of the text that a request comes to, goes as the host removes members of the rasp: what is left of the text before
/// it is the text before it then. So a range of which all goes is empty there.
pub fn places_stay_behind_their_text()
    ensures { RemovalsMovePlaces }
{}

/// States that a file ends as on one machine, where the host changes nothing of its text meanwhile. What is shown is the text there. The
/// requests that acted found what they find there, in their order, and those that wait come to what the others find there. Once nothing
/// waits any more, the rasp is the text there, too, and all requests found theirs. And from each state a way leads to that, by edits that
/// come to the rasp and requests that act.
#[tactic(auto, using(crate::proofs::OneMachineLaws::one_machine_facts))]
pub fn as_on_one_machine()
    ensures shown { (cs : List Cell) (acts : List Act) (n : File) → Leads (unasked cs) acts n
        → shown_of n.cells ≡ local_text (shown_of cs) acts }
    ensures found { (cs : List Cell) (acts : List Act) (n : File) → Leads (unasked cs) acts n
        → local_found (shown_of cs) acts ≡ found acts ++ to_find n }
    ensures rests { (cs : List Cell) (acts : List Act) (r : PartialText) → Leads (unasked cs) acts (unasked (resting r))
        → (r ≡ local_text (shown_of cs) acts) × (found acts ≡ local_found (shown_of cs) acts) }
    ensures ends { (a : File) → Ends a }
{}

/// States where a place, of the text that a request comes to, goes as runes are taken back: what is left of the text before it is the text
/// before it then. So a range of which all goes is empty there.
pub fn places_stay_behind_what_is_left()
    ensures { DropsMovePlaces }
{}
