//! What can be read of `Files` by tag: texts, names, dots, marks, and where words and patterns stand.

ghost use Rattle.std.specs.Prelude.{◌≡◌, ◌<◌, ◌≤◌, ◌+◌, ◌||◌, IfOk, IfSome, length, option_map, option_copied, nat_lt};
ghost use Rattle.sam_runes.specs.Texts.{max_runes, part, searched, word_at, most_in_name};
ghost use Rattle.sam_runes.specs.Slots.{slot};
ghost use Rattle.sam_text.specs.Files.{has_file, file_at, search_of, IsFit, HasShortName};
ghost use Rattle.sam_text.specs.Views.{room_at};

use crate::files::Files;
use sam_runes::{MAX_RUNES, Runes, Text};
use std::alloc::AllocError;

impl Files {
    /// Returns whether the tag has a file.
    pub fn has(&self, tag: u16) -> bool
        ensures { result ≡ has_file self.now.plain tag }
    {
        self.file(tag).is_some()
    }

    /// Returns whether the tag was given. Its file may have been closed since.
    pub fn was_given(&self, tag: u16) -> bool
        ensures { result ≡ nat_lt tag (length self.now.plain.slots) }
    {
        (tag as usize) < self.tags()
    }

    /// States what is always true of a file: its dot is a range of its text, its text has at most `MAX_RUNES` runes, and its name
    /// at most `MOST_IN_NAME`. It does nothing.
    pub fn file_facts(&self, tag: u16)
        ensures fit { IsFit (file_at self.now.plain tag) }
        ensures name { HasShortName (file_at self.now.plain tag) }
    {
        self.facts();
    }

    /// Returns the text of a file, or `None` if the tag has no file.
    pub fn text(&self, tag: u16) -> Option<&Text>
        ensures { option_map (λ t. t.runes) (option_copied result) ≡ option_map (λ f. f.text) (slot self.now.plain.slots tag) }
    {
        match self.file(tag) {
            Some(file) => Some(file.text()),
            None => None,
        }
    }

    /// Returns how many runes the text of a file has, at most `MAX_RUNES`, or 0 if the tag has no file.
    pub fn text_len(&self, tag: u16) -> usize
        ensures len { result ≡ length (file_at self.now.plain tag).text }
        ensures limit { length (file_at self.now.plain tag).text ≤ max_runes }
    {
        match self.file(tag) {
            Some(file) => file.text().len() as usize,
            None => 0,
        }
    }

    /// Returns whether place `p` is past the end of the text of a file, which counts as empty if the tag has no file.
    pub(crate) fn is_past_end(&self, tag: u16, p: u32) -> bool
        ensures { result ≡ nat_lt (length (file_at self.now.plain tag).text) p }
    {
        self.text_len(tag) < p as usize
    }

    /// Returns whether the text of a file, which counts as empty if the tag has no file, has no range from place `p` to place `q`: `q` is
    /// less than `p` or past the end.
    pub(crate) fn lacks_range(&self, tag: u16, p: u32, q: u32) -> bool
        ensures { result ≡ nat_lt q p || nat_lt (length (file_at self.now.plain tag).text) q }
    {
        q < p || self.is_past_end(tag, q)
    }

    /// Returns whether the text of a file, which counts as empty if the tag has no file, and `n` more runes together are more than
    /// `MAX_RUNES`.
    pub fn passes_limit(&self, tag: u16, n: usize) -> bool
        ensures { result ≡ nat_lt max_runes (length (file_at self.now.plain tag).text + n) }
    {
        n > MAX_RUNES as usize - self.text_len(tag)
    }

    /// Returns the name of a file, at most `MOST_IN_NAME` runes, or `None` if the tag has no file.
    pub fn name(&self, tag: u16) -> Option<&Runes>
        ensures value { option_copied result ≡ option_map (λ f. f.name) (slot self.now.plain.slots tag) }
        ensures short { IfSome result (λ name. length name.now ≤ most_in_name) }
    {
        match self.file(tag) {
            Some(file) => Some(file.name()),
            None => None,
        }
    }

    /// Returns the dot of a file, the selected range of its text, or `None` if the tag has no file.
    pub fn dot(&self, tag: u16) -> Option<(u32, u32)>
        ensures value { result ≡ option_map (λ f. f.dot) (slot self.now.plain.slots tag) }
        ensures range { IfSome result (λ dot. (dot.0 ≤ dot.1) × (dot.1 ≤ length (file_at self.now.plain tag).text)) }
    {
        match self.file(tag) {
            Some(file) => Some(file.dot()),
            None => None,
        }
    }

    /// Returns the text of a file as it was written last, or `None` if it never was, or the tag has no file.
    pub fn saved(&self, tag: u16) -> Option<&Runes>
        ensures { option_copied result ≡ (file_at self.now.plain tag).saved }
    {
        match self.file(tag) {
            Some(file) => file.saved(),
            None => None,
        }
    }

    /// Returns whether the terminal has a window on the file of a tag; false if the tag has no file.
    pub fn is_open(&self, tag: u16) -> bool
        ensures { result ≡ (file_at self.now.plain tag).opened }
    {
        match self.file(tag) {
            Some(file) => file.is_open(),
            None => false,
        }
    }

    /// Returns whether the file of a tag is dirty, as `File::is_dirty` says it; false if the tag has no file. `facts` says that tag 0 never
    /// is.
    pub fn is_dirty(&self, tag: u16) -> bool
        ensures { result ≡ (file_at self.now.plain tag).dirty }
    {
        match self.file(tag) {
            Some(file) => file.is_dirty(),
            None => false,
        }
    }

    /// Returns whether the terminal knows the name of the file of a tag; false if the tag has no file.
    pub fn is_announced(&self, tag: u16) -> bool
        ensures { result ≡ (file_at self.now.plain tag).announced }
    {
        match self.file(tag) {
            Some(file) => file.is_announced(),
            None => false,
        }
    }

    /// Returns how many more runes the text of a file takes without asking for memory, or 0 if the tag has no file.
    pub fn room(&self, tag: u16) -> u32
        ensures { result ≡ room_at self.now.rooms tag }
    {
        match self.file(tag) {
            Some(file) => file.text().room(),
            None => 0,
        }
    }

    /// Returns what stands in a file from place `p` to place `q`. The caller makes sure that this is a range of the text, which counts as
    /// empty if the tag has no file.
    pub fn part(&self, tag: u16, p: u32, q: u32) -> &[char]
        requires ascending { p ≤ q }
        requires within { q ≤ length (file_at self.now.plain tag).text }
        ensures { result.now ≡ part (file_at self.now.plain tag).text p q }
    {
        match self.file(tag) {
            Some(file) => file.text().slice(p, q),
            None => &[],
        }
    }

    /// Returns a copy of what stands in a file from place `p` to place `q`. The caller makes sure that this is a range of the text, which
    /// counts as empty if the tag has no file. The only error is out of memory.
    pub fn copy_part(&self, tag: u16, p: u32, q: u32) -> Result<Runes, AllocError>
        requires ascending { p ≤ q }
        requires within { q ≤ length (file_at self.now.plain tag).text }
        ensures { IfOk result (λ r. r ≡ part (file_at self.now.plain tag).text p q) }
    {
        Runes::from_slice(self.alloc(), self.part(tag, p, q))
    }

    /// Returns a copy of the text of a file, or no runes if the tag has no file. The only error is out of memory.
    pub(crate) fn copy_text(&self, tag: u16) -> Result<Runes, AllocError>
        ensures { IfOk result (λ r. r ≡ (file_at self.now.plain tag).text) }
    {
        self.copy_part(tag, 0, self.text_len(tag) as u32)
    }

    /// Returns the first occurrence of `lit` in a file that begins at or after place `from`, or else the first of the text, as the places
    /// of its start and its end; `None` if there is none. The caller makes sure that `lit` is not empty, and `from` not past the end.
    pub(crate) fn find(&self, tag: u16, lit: &[char], from: u32) -> Option<(u32, u32)>
        requires filled { 0 < length lit.now }
        requires within { from ≤ length (file_at self.now.plain tag).text }
        ensures value { result ≡ searched (file_at self.now.plain tag).text lit.now from }
        ensures range { IfSome result (λ r. (r.0 ≤ r.1) × (r.1 ≤ length (file_at self.now.plain tag).text)) }
    {
        match self.file(tag) {
            Some(file) => file.text().search(lit, from),
            None => None,
        }
    }

    /// Returns the word of a file that has place `p` inside it or at an edge, or the empty range at `p` if there is none. The caller
    /// makes sure that `p` is not past the end. A word is made of ASCII letters, digits and underscores, and of runes above U+007F.
    pub(crate) fn word(&self, tag: u16, p: u32) -> (u32, u32)
        requires { p ≤ length (file_at self.now.plain tag).text }
        ensures value { result ≡ word_at (file_at self.now.plain tag).text p }
        ensures range { (result.0 ≤ result.1) × (result.1 ≤ length (file_at self.now.plain tag).text) }
    {
        match self.file(tag) {
            Some(file) => file.text().word_at(p),
            None => (0, 0),
        }
    }

    /// Returns the first occurrence of the pattern that was searched last in a file from place `from` on, or else the first of the text;
    /// `None` if there is no pattern or it stands nowhere. The caller makes sure that `from` is not past the end.
    pub(crate) fn search_from(&self, tag: u16, from: u32) -> Option<(u32, u32)>
        requires { from ≤ length (file_at self.now.plain tag).text }
        ensures value { result ≡ search_of self.now.plain tag from }
        ensures range { IfSome result (λ r. (r.0 ≤ r.1) × (r.1 ≤ length (file_at self.now.plain tag).text)) }
    {
        match self.pattern() {
            Some(pattern) => self.find(tag, pattern.as_slice(), from),
            None => None,
        }
    }
}
