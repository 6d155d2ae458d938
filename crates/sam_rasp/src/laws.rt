//! Laws of a rasp that agrees with a text, for crates that change the two side by side. Each law is a function that does nothing; its
//! clause is what a proof can use.

ghost use Rattle.std.specs.Prelude.{◌≡◌, ◌≤◌, ◌+◌, ◌++◌, ◌↔◌, ℕ, List, length, map, replicate, take, drop, slice_get, Some, None};
ghost use Rattle.sam_runes.specs.Texts.{ins, del};
ghost use Rattle.sam_rasp.specs.Rasp.{PartialText, Agrees, ins_cells, del_cells, put_cells, load_cells};

/// States that a rasp agrees with a text if and only if it has the text's length and each of its runes is the text's rune there.
#[tactic(auto, using(crate::proofs::RaspLaws::agrees_by_place))]
pub fn agrees_by_place()
    ensures { (r : PartialText) (t : List ℕ) → Agrees r t
        ↔ ((length r ≡ length t) × ((k c : ℕ) → slice_get r k ≡ Some (Some c) → slice_get t k ≡ Some c)) }
{}

/// States that a rasp and a text that agree still agree after the same runes are put in at the same place of both.
#[tactic(auto, using(crate::proofs::RaspLaws::agrees_typed))]
pub fn agrees_after_typing()
    ensures { (r : PartialText) (t s : List ℕ) (p : ℕ) → Agrees r t → Agrees (ins_cells r p (map Some s)) (ins t p s) }
{}

/// States that they still agree after runes are put into the text, and as many gaps into the rasp at the same place.
#[tactic(auto, using(crate::proofs::RaspLaws::agrees_grown))]
pub fn agrees_after_growth()
    ensures { (r : PartialText) (t s : List ℕ) (p : ℕ) → Agrees r t → Agrees (ins_cells r p (replicate (length s) None)) (ins t p s) }
{}

/// States that they still agree after the same range is removed from both.
#[tactic(auto, using(crate::proofs::RaspLaws::agrees_removed))]
pub fn agrees_after_removal()
    ensures { (r : PartialText) (t : List ℕ) (p q : ℕ) → Agrees r t → Agrees (del_cells r p q) (del t p q) }
{}

/// States that they still agree after the same range of both is replaced by the same runes.
#[tactic(auto, using(crate::proofs::RaspLaws::agrees_replaced))]
pub fn agrees_after_edit()
    ensures { (r : PartialText) (t s : List ℕ) (p q : ℕ) → Agrees r t
        → Agrees (put_cells r p q (map Some s)) (take p t ++ s ++ drop q t) }
{}

/// States that they still agree after a range of the text is loaded into the rasp at the same places.
#[tactic(auto, using(crate::proofs::RaspLaws::agrees_loaded))]
pub fn agrees_after_data()
    ensures { (r : PartialText) (t : List ℕ) (p n : ℕ) → Agrees r t → p + n ≤ length t → Agrees (load_cells r p (take n (drop p t))) t }
{}
