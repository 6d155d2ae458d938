//! `TextChange`: a change of a text, as one of many that are made one after another.

ghost use Rattle.std.specs.Prelude.{◌≡◌, ◌≤◌, MatchOption, IfSome, length, take};
ghost use Rattle.sam_text.specs.Changes.{after_change, after_changes, dot_after, last_dot, AllowsAll, IsAllowed};

use sam_runes::GapBuffer;

/// A change of the text of a file, for `Files::change_text`. Its places are those of the text as the change before leaves it.
#[derive(Clone, Copy)]
pub enum TextChange<'a> {
    /// Puts these runes in at a place. Dot is then the empty range after them.
    Insert(u32, &'a [char]),
    /// Removes what stands from the first place to the second. Dot is then the empty range there.
    Delete(u32, u32),
}

/// Makes the change, and returns the dot after it; `None` if the text has no such place or range or would be too long, or if memory is
/// refused. The text is then unchanged.
fn make(text: &mut GapBuffer, change: TextChange<'_>) -> Option<(u32, u32)>
    ensures done { MatchOption result (text.new ≡ text.old) (λ dot. (IsAllowed change.entry text.old)
        × (text.new ≡ after_change change.entry text.old) × (dot ≡ dot_after change.entry)) }
    ensures dot { IfSome result (λ dot. (dot.0 ≤ dot.1) × (dot.1 ≤ length text.new)) }
{
    let len = text.len();
    match change {
        TextChange::Insert(p, runes) => {
            if p > len || text.insert(p, runes).is_err() {
                return None;
            }
            let end = p + runes.len() as u32;
            Some((end, end))
        }
        TextChange::Delete(p, q) => {
            if q < p || q > len {
                return None;
            }
            text.delete(p, q);
            Some((p, p))
        }
    }
}

/// Makes the changes up to the first that is not allowed, or for which memory is refused. Returns how many it made, and the dot after
/// them; `dot` is the one before.
#[tactic(auto, using(crate::proofs::ChangeSteps::make_facts))]
pub(crate) fn make_all(
    text: &mut GapBuffer,
    changes: &[TextChange<'_>],
    dot: (u32, u32),
) -> (usize, (u32, u32))
    requires { (dot.0 ≤ dot.1) × (dot.1 ≤ length text.old) }
    ensures count { result.0 ≤ length changes.now }
    ensures allowed { AllowsAll (take result.0 changes.now) text.old }
    ensures text { text.new ≡ after_changes (take result.0 changes.now) text.old }
    ensures dot { result.1 ≡ last_dot (take result.0 changes.now) dot }
    ensures range { (result.1.0 ≤ result.1.1) × (result.1.1 ≤ length text.new) }
{
    let mut dot = dot;
    let mut count = 0;
    while count < changes.len() {
        let Some(next) = make(text, changes[count]) else {
            return (count, dot);
        };
        dot = next;
        count += 1;
    }
    (count, dot)
}
