//! Laws of the definitions in specs/. Each is the contract of a function that does nothing; a caller's proof may use what it says.

ghost use Rattle.std.specs.Prelude.{◌≡◌, ℕ, List, reverse};
ghost use Rattle.sam_runes.specs.Edits.{Ascend, replace, all_edited};
ghost use Rattle.sam_runes.specs.declared.edit.Edit.{Edit};

/// States that ascending edits, made one after another from the last to the first, give the text that they give all at once.
#[tactic(auto, using(crate::proofs::EditLaws::last_first_is_at_once))]
pub fn last_first_is_at_once()
    ensures { (edits : List Edit) (text : List ℕ) → Ascend text edits → all_edited text (reverse edits) ≡ replace text edits }
{}
