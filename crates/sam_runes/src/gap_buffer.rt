//! `GapBuffer`: a text while many changes of it are made, one after another.

ghost use Rattle.std.specs.Prelude.{◌≡◌, ◌<◌, ◌≤◌, ◌+◌, ◌-◌, ◌++◌, ◌↔◌, OnOk, OnErr, IfOk, Err, length, take, drop, vec_len};
ghost use Rattle.sam_runes.specs.Texts.{max_runes, ins, del};

use crate::edits::{move_down, move_up, put, remove_runes};
use crate::fault::TextFault;
use crate::limits::MAX_RUNES;
use crate::text::Text;
use std::alloc::AllocError;
use std::marker::Model;

/// One part in so many of the text is how wide a gap is made at least, so that long texts seldom need a wider one.
const GAP_PART: usize = 16;

/// A text while many changes of it are made: its runes with a gap where the last change was. A change moves the runes between the gap and
/// its place, and none that stand elsewhere, so changes that are near each other cost little, however long the text is.
///
/// A clause sees it as its runes, without the gap.
///
/// ```rust
/// let mut buffer = GapBuffer::of(text); // one
/// buffer.insert(3, &['\n', 't', 'w', 'o'])?;
/// buffer.delete(0, 4);
/// let text = buffer.into_text(); // two
/// ```
#[derive(Drop)]
pub struct GapBuffer {
    /// The runes before the gap, the gap, and the runes after it. What stands in the gap means nothing.
    runes: Vec<char>,
    /// Where the gap begins.
    start: usize,
    /// Where the gap ends: not before it begins, and not past the end. What is not gap is at most `MAX_RUNES` runes.
    end: usize,
}

impl Model for GapBuffer {
    ghost use Rattle.std.specs.Prelude.{ℕ, List, ◌≤◌, ◌+◌, ◌-◌, ◌++◌, vec_len, take, drop};
    ghost use Rattle.sam_runes.specs.Texts.{max_runes};

    ghost Value = { List ℕ };

    ghost view = { λ b. take b.start b.runes.items ++ drop b.end b.runes.items };

    ghost invariant = { λ b. (b.start ≤ b.end) × (b.end ≤ vec_len b.runes) × (b.start + (vec_len b.runes - b.end) ≤ max_runes) };
}

/// Moves the gap between `start` and `end` to place `p` of the text that stands round it.
fn move_gap(items: &mut [char], start: usize, end: usize, p: usize)
    requires ascending { start ≤ end }
    requires within { end ≤ length items.old }
    requires place { p ≤ start + (length items.old - end) }
    ensures len { length items.new ≡ length items.old }
    ensures text { take p items.new ++ drop (p + (end - start)) items.new ≡ take start items.old ++ drop end items.old }
{
    if start == end {
        return;
    }
    if p <= start {
        move_up(items, p, start, end - start);
    } else {
        move_down(&mut items[..end + (p - start)], end, start);
    }
}

/// As `move_gap`, and then writes `runes` where the gap begins. They fit in it.
fn fill_gap(items: &mut [char], start: usize, end: usize, p: usize, runes: &[char])
    requires ascending { start + length runes.now ≤ end }
    requires within { end ≤ length items.old }
    requires place { p ≤ start + (length items.old - end) }
    ensures len { length items.new ≡ length items.old }
    ensures text { take (p + length runes.now) items.new ++ drop (p + (end - start)) items.new
        ≡ ins (take start items.old ++ drop end items.old) p runes.now }
{
    move_gap(items, start, end, p);
    put(items, p, runes);
}

/// As `move_gap`, and then makes the gap wider by the `n` runes after it.
fn widen_gap(items: &mut [char], start: usize, end: usize, p: usize, n: usize)
    requires ascending { start ≤ end }
    requires within { end ≤ length items.old }
    requires place { p + n ≤ start + (length items.old - end) }
    ensures len { length items.new ≡ length items.old }
    ensures text { take p items.new ++ drop (p + (end - start) + n) items.new
        ≡ del (take start items.old ++ drop end items.old) p (p + n) }
{
    move_gap(items, start, end, p);
}

/// Makes the gap that ends at `end` wider by so many places. The only error is out of memory; nothing has changed then.
fn widen(items: &mut Vec<char>, end: usize, by: usize) -> Result<(), AllocError>
    requires within { end ≤ vec_len items.old }
    requires most { by ≤ max_runes }
    ensures ok { OnOk result ((vec_len items.new ≡ vec_len items.old + by) × (take end items.new.items ≡ take end items.old.items)
        × (drop (end + by) items.new.items ≡ drop end items.old.items)) }
    ensures err { OnErr result (items.new.items ≡ items.old.items) }
{
    let len = items.len();
    items.resize(len + by, '\0')?;
    move_up(items, end, len, by);
    Ok(())
}

/// Makes the gap from `start` to `end` at least `n` places wide, and returns where it ends then. The only error is out of memory; nothing
/// has changed then.
fn make_gap(items: &mut Vec<char>, start: usize, end: usize, n: usize) -> Result<usize, AllocError>
    requires ascending { start ≤ end }
    requires within { end ≤ vec_len items.old }
    requires most { n ≤ max_runes }
    ensures wide { IfOk result (λ e. (start + n ≤ e) × (e ≤ vec_len items.new)) }
    ensures len { IfOk result (λ e. vec_len items.new - e ≡ vec_len items.old - end) }
    ensures text { IfOk result (λ e. take start items.new.items ++ drop e items.new.items
        ≡ take start items.old.items ++ drop end items.old.items) }
    ensures err { OnErr result (items.new.items ≡ items.old.items) }
{
    if n <= end - start {
        return Ok(end);
    }
    let by = n.max(items.len() / GAP_PART).min(MAX_RUNES as usize);
    widen(items, end, by)?;
    Ok(end + by)
}

impl GapBuffer {
    /// Returns a buffer of this text. It takes no memory.
    pub fn of(text: Text) -> GapBuffer
        ensures { result ≡ text.runes }
    {
        let runes = text.into_vec();
        let len = runes.len();
        GapBuffer {
            runes,
            start: len,
            end: len,
        }
    }

    /// Returns how many runes the text has, which is at most `MAX_RUNES`.
    pub fn len(&self) -> u32
        ensures len { result ≡ length self.now }
        ensures limit { length self.now ≤ max_runes }
    {
        (self.start + (self.runes.len() - self.end)) as u32
    }

    /// Puts `runes` in at place `p`, which is not past the end. The runes after `p` move up by as many places, and those before it stay.
    ///
    /// Errors, in this order: `TooLong` if and only if the text would have more than `MAX_RUNES` runes; `OutOfMemory` if a request for
    /// memory is refused. After an error the text is as before.
    pub fn insert(&mut self, p: u32, runes: &[char]) -> Result<(), TextFault>
        requires { p ≤ length self.old }
        ensures ok { OnOk result (self.new ≡ ins self.old p runes.now) }
        ensures long { (result ≡ Err TextFault.TooLong) ↔ (max_runes < length self.old + length runes.now) }
        ensures err { OnErr result (self.new ≡ self.old) }
    {
        if runes.len() > (MAX_RUNES - self.len()) as usize {
            return Err(TextFault::TooLong);
        }
        let p = p as usize;
        let gap_end = make_gap(&mut self.runes, self.start, self.end, runes.len())?;
        fill_gap(&mut self.runes, self.start, gap_end, p, runes);
        let end = p + (gap_end - self.start);
        self.start = p + runes.len();
        self.end = end;
        Ok(())
    }

    /// Removes the runes from place `p` to place `q`, which is not below `p` and not past the end. It takes no memory and never fails.
    pub fn delete(&mut self, p: u32, q: u32)
        requires ascending { p ≤ q }
        requires within { q ≤ length self.old }
        ensures { self.new ≡ del self.old p q }
    {
        let p = p as usize;
        let n = q as usize - p;
        widen_gap(&mut self.runes, self.start, self.end, p, n);
        self.end = p + (self.end - self.start) + n;
        self.start = p;
    }

    /// Returns the text. It takes no memory.
    pub fn into_text(mut self) -> Text
        ensures { result.runes ≡ self }
    {
        remove_runes(&mut self.runes, self.start, self.end);
        Text::from_vec(self.runes)
    }
}
