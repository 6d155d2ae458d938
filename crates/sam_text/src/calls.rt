//! The calls that change files and check their arguments. After an error the files and their rooms are unchanged. Every text that
//! a call does not change keeps its room, unless the call is there to make room in it.

ghost use Rattle.std.specs.Prelude.{◌≡◌, ◌<◌, ◌≤◌, ◌+◌, ◌-◌, ◌∷◌, [], OnOk, OnErr, IfOk, Err, Some, None, true, false, length};
ghost use Rattle.sam_runes.specs.Checks.{first_of_checks, unless};
ghost use Rattle.sam_runes.specs.Texts.{max_runes, word_at, most_in_name};
ghost use Rattle.sam_text.specs.Files.{blank_file, file_at, has_file, part_at, change_file, too_long, no_tag, file_checks, place_checks, range_checks, insert_checks, room_checks, IsChecked, with_dot, with_work, with_new, with_opened, with_started, without_file, dirty_file, opened_file, announced_file, written_file, typed_file, cut_file, pasted_file, has_room, is_printed, after_print, search_of, with_found, may_look, look_of, with_look};
ghost use Rattle.sam_text.specs.Views.{room_at, StaysInRoom, KeepRooms, KeepRoomsBut};

use crate::fault::FilesFault;
use crate::file::{File, FileChange};
use crate::files::Files;
use crate::pattern::may_be_pattern;
use sam_runes::{ALL_TAGS, MAX_RUNES, Runes, Text};

impl Files {
    /// Tests that the tag has a file. The only error is `NoFile`.
    pub fn wants_file(&self, tag: u16) -> Result<(), FilesFault>
        ensures answer { result ≡ unless (first_of_checks (file_checks self.now.plain tag)) tt }
        ensures there { OnOk result (has_file self.now.plain tag ≡ true) }
    {
        if !self.has(tag) {
            return Err(FilesFault::NoFile);
        }
        Ok(())
    }

    /// Tests that the tag has a file, and its text the place `p`. Errors, in this order: `NoFile`; `BadPosition` if `p` is past the end.
    pub fn wants_place(&self, tag: u16, p: u32) -> Result<(), FilesFault>
        ensures answer { result ≡ unless (first_of_checks (place_checks self.now.plain tag p)) tt }
        ensures there { OnOk result (has_file self.now.plain tag ≡ true) }
        ensures within { OnOk result (p ≤ length (file_at self.now.plain tag).text) }
    {
        self.wants_file(tag)?;
        if self.is_past_end(tag, p) {
            return Err(FilesFault::BadPosition);
        }
        Ok(())
    }

    /// Tests that the tag has a file, and its text the range from `p` to `q`. Errors, in this order: `NoFile`; `BadPosition` if `q` is
    /// less than `p` or past the end.
    pub fn wants_range(&self, tag: u16, p: u32, q: u32) -> Result<(), FilesFault>
        ensures answer { result ≡ unless (first_of_checks (range_checks self.now.plain tag p q)) tt }
        ensures there { OnOk result (has_file self.now.plain tag ≡ true) }
        ensures within { OnOk result ((p ≤ q) × (q ≤ length (file_at self.now.plain tag).text)) }
    {
        self.wants_file(tag)?;
        if self.lacks_range(tag, p, q) {
            return Err(FilesFault::BadPosition);
        }
        Ok(())
    }

    /// Tests that the tag has a file, and that `n` runes can be put in at place `p` of its text. Errors, in this order: `NoFile`;
    /// `BadPosition` if `p` is past the end; `TooLong` if the text would have more than `MAX_RUNES` runes.
    pub fn wants_insert(&self, tag: u16, p: u32, n: usize) -> Result<(), FilesFault>
        ensures answer { result ≡ unless (first_of_checks (insert_checks self.now.plain tag p n)) tt }
        ensures there { OnOk result (has_file self.now.plain tag ≡ true) }
        ensures within { OnOk result (p ≤ length (file_at self.now.plain tag).text) }
        ensures fits { OnOk result (length (file_at self.now.plain tag).text + n ≤ max_runes) }
    {
        self.wants_place(tag, p)?;
        if self.passes_limit(tag, n) {
            return Err(FilesFault::TooLong);
        }
        Ok(())
    }

    /// Closes a file: takes it away, with its saved copy. If it was the work file, there is none afterwards. The tag is not given again;
    /// the caller makes sure that it is not 0. The only error is `NoFile` if the tag has no file; the files are then unchanged.
    pub fn close(&mut self, tag: u16) -> Result<(), FilesFault>
        requires { 0 < tag }
        ensures answer { result ≡ unless (first_of_checks (file_checks self.old.plain tag)) tt }
        ensures done { OnOk result (self.new.plain ≡ without_file self.old.plain tag) }
        ensures rooms { KeepRooms self.old self.new }
        ensures unchanged { OnErr result (self.new ≡ self.old) }
    {
        self.wants_file(tag)?;
        self.remove(tag);
        Ok(())
    }

    /// Keeps a copy of the text of a file as its saved copy, and marks the file as clean. The caller makes sure that the tag is not 0.
    ///
    /// Errors, in this order: `NoFile` if the tag has no file; `OutOfMemory`. After an error the files are unchanged.
    pub fn write(&mut self, tag: u16) -> Result<(), FilesFault>
        requires { 0 < tag }
        ensures checked { IsChecked (file_checks self.old.plain tag) result }
        ensures done { OnOk result (self.new.plain ≡ change_file self.old.plain tag written_file) }
        ensures rooms { KeepRooms self.old self.new }
        ensures unchanged { OnErr result (self.new ≡ self.old) }
    {
        self.wants_file(tag)?;
        let copy = self.copy_text(tag)?;
        self.change(tag, FileChange::Saved(copy));
        Ok(())
    }

    /// Marks a file as dirty; its text, name, dot and saved copy stay. No memory is asked for. The caller makes sure that the tag is not 0.
    /// The only error is `NoFile` if the tag has no file; the files are then unchanged.
    pub fn mark_dirty(&mut self, tag: u16) -> Result<(), FilesFault>
        requires { 0 < tag }
        ensures answer { result ≡ unless (first_of_checks (file_checks self.old.plain tag)) tt }
        ensures done { OnOk result (self.new.plain ≡ change_file self.old.plain tag dirty_file) }
        ensures rooms { KeepRooms self.old self.new }
        ensures unchanged { OnErr result (self.new ≡ self.old) }
    {
        self.wants_file(tag)?;
        self.change(tag, FileChange::Dirty);
        Ok(())
    }

    /// Makes a file the work file, and sets its dot to the range from place `p` to place `q`. The caller makes sure that the tag isn't 0.
    ///
    /// Errors, in this order: `NoFile` if the tag has no file; `BadPosition` if `q` is less than `p` or past the end of the text. After
    /// an error the files are unchanged.
    #[tactic(auto, using(crate::proofs::KeptLaws::put_is_there))]
    pub fn set_work(&mut self, tag: u16, p: u32, q: u32) -> Result<(), FilesFault>
        requires { 0 < tag }
        ensures answer { result ≡ unless (first_of_checks (range_checks self.old.plain tag p q)) tt }
        ensures done { OnOk result (self.new.plain ≡ with_work self.old.plain tag p q) }
        ensures rooms { KeepRooms self.old self.new }
        ensures unchanged { OnErr result (self.new ≡ self.old) }
    {
        self.set_dot(tag, p, q)?;
        self.put_work(tag);
        Ok(())
    }

    /// Marks a file as open: the terminal has a window on it. The only error is `NoFile` if the tag has no file; the files are then
    /// unchanged.
    pub fn open(&mut self, tag: u16) -> Result<(), FilesFault>
        ensures answer { result ≡ unless (first_of_checks (file_checks self.old.plain tag)) tt }
        ensures done { OnOk result (self.new.plain ≡ change_file self.old.plain tag opened_file) }
        ensures rooms { KeepRooms self.old self.new }
        ensures unchanged { OnErr result (self.new ≡ self.old) }
    {
        self.wants_file(tag)?;
        self.change(tag, FileChange::Open);
        Ok(())
    }

    /// Marks a file as open, and makes it the work file; its dot stays. The caller makes sure that the tag is not 0. The only error is
    /// `NoFile` if the tag has no file; the files are then unchanged.
    #[tactic(auto, using(crate::proofs::KeptLaws::put_is_there))]
    pub fn open_work(&mut self, tag: u16) -> Result<(), FilesFault>
        requires { 0 < tag }
        ensures answer { result ≡ unless (first_of_checks (file_checks self.old.plain tag)) tt }
        ensures done { OnOk result (self.new.plain ≡ with_opened self.old.plain tag) }
        ensures rooms { KeepRooms self.old self.new }
        ensures unchanged { OnErr result (self.new ≡ self.old) }
    {
        self.open(tag)?;
        self.put_work(tag);
        Ok(())
    }

    /// Marks a file as announced: the terminal knows its name. The only error is `NoFile` if the tag has no file; the files are then
    /// unchanged.
    pub fn announce(&mut self, tag: u16) -> Result<(), FilesFault>
        ensures answer { result ≡ unless (first_of_checks (file_checks self.old.plain tag)) tt }
        ensures done { OnOk result (self.new.plain ≡ change_file self.old.plain tag announced_file) }
        ensures rooms { KeepRooms self.old self.new }
        ensures unchanged { OnErr result (self.new ≡ self.old) }
    {
        self.wants_file(tag)?;
        self.change(tag, FileChange::Announced);
        Ok(())
    }

    /// Sets the dot of a file to the range from place `p` to place `q`.
    ///
    /// Errors, in this order: `NoFile` if the tag has no file; `BadPosition` if `q` is less than `p` or past the end of the text. After
    /// an error the files are unchanged.
    pub fn set_dot(&mut self, tag: u16, p: u32, q: u32) -> Result<(), FilesFault>
        ensures answer { result ≡ unless (first_of_checks (range_checks self.old.plain tag p q)) tt }
        ensures done { OnOk result (self.new.plain ≡ with_dot self.old.plain tag p q) }
        ensures rooms { KeepRooms self.old self.new }
        ensures unchanged { OnErr result (self.new ≡ self.old) }
    {
        self.wants_range(tag, p, q)?;
        self.change(tag, FileChange::Dot(p, q));
        Ok(())
    }

    /// Deletes the runes of a file from place `p` to place `q`. Dot is then the empty range at `p`, and the file becomes dirty, unless it
    /// is the command file. No memory is asked for.
    ///
    /// Errors, in this order: `NoFile` if the tag has no file; `BadPosition` if `q` is less than `p` or past the end of the text. After
    /// an error the files are unchanged.
    pub fn delete(&mut self, tag: u16, p: u32, q: u32) -> Result<(), FilesFault>
        ensures answer { result ≡ unless (first_of_checks (range_checks self.old.plain tag p q)) tt }
        ensures done { OnOk result (self.new.plain ≡ change_file self.old.plain tag (λ file. cut_file tag file p q)) }
        ensures rooms { KeepRooms self.old self.new }
        ensures unchanged { OnErr result (self.new ≡ self.old) }
    {
        self.wants_range(tag, p, q)?;
        self.cut_out(tag, p, q);
        Ok(())
    }

    /// Puts `runes` in a file at place `p`. Dot is then the empty range after them, and the file becomes dirty, unless it is the command
    /// file. Within the room of the file no memory is asked for, only what stands after `p` is moved, and the room shrinks by no more
    /// than what is put in.
    ///
    /// Errors, in this order: `NoFile` if the tag has no file; `BadPosition` if `p` is past the end of the text; `TooLong` if the text
    /// would have more than `MAX_RUNES` runes; `OutOfMemory`. After an error the files and their rooms are unchanged.
    pub fn insert(&mut self, tag: u16, p: u32, runes: &[char]) -> Result<(), FilesFault>
        ensures checked { IsChecked (insert_checks self.old.plain tag p (length runes.now)) result }
        ensures done { OnOk result (self.new.plain ≡ change_file self.old.plain tag (λ file. typed_file tag file p runes.now)) }
        ensures unchanged { OnErr result (self.new ≡ self.old) }
        ensures memory { length runes.now ≤ room_at self.old.rooms tag →
            result ≡ unless (first_of_checks (insert_checks self.old.plain tag p (length runes.now))) tt }
        ensures room { OnOk result (length runes.now ≤ room_at self.old.rooms tag →
            room_at self.old.rooms tag ≤ room_at self.new.rooms tag + length runes.now) }
        ensures rooms { KeepRooms self.old self.new }
    {
        self.wants_insert(tag, p, runes.len())?;
        let end = p + runes.len() as u32;
        self.put_in(tag, p, runes, (end, end))
    }

    /// Makes room for `n` more runes in the text of a file, so that they can be put in without asking for memory. No text, name or mark
    /// is changed, and if the room is there already, no room either.
    ///
    /// Errors, in this order: `NoFile` if the tag has no file; `TooLong` if the length and `n` together are more than `MAX_RUNES`;
    /// `OutOfMemory`. After an error all rooms are unchanged.
    pub fn reserve(&mut self, tag: u16, n: u32) -> Result<(), FilesFault>
        ensures checked { IsChecked (room_checks self.old.plain tag n) result }
        ensures unchanged { self.new.plain ≡ self.old.plain }
        ensures room { OnOk result (n ≤ room_at self.new.rooms tag) }
        // Where that room is there already, it takes no memory and changes nothing.
        ensures there { n ≤ room_at self.old.rooms tag → self.new ≡ self.old }
        ensures memory { n ≤ room_at self.old.rooms tag →
            result ≡ unless (first_of_checks (room_checks self.old.plain tag n)) tt }
        ensures err { OnErr result (self.new ≡ self.old) }
        ensures rooms { KeepRoomsBut (Some tag) self.old self.new }
    {
        self.wants_file(tag)?;
        if self.passes_limit(tag, n as usize) {
            return Err(FilesFault::TooLong);
        }
        self.make_room(tag, n)
    }

    /// Copies the runes of a file from place `p` to place `q` into the snarf buffer, and returns how many they are.
    ///
    /// Errors, in this order: `NoFile` if the tag has no file; `BadPosition` if `q` is less than `p` or past the end of the text;
    /// `OutOfMemory`. After an error the files and the snarf buffer are unchanged.
    #[tactic(auto, using(crate::proofs::KeptLaws::part_within))]
    pub fn snarf(&mut self, tag: u16, p: u32, q: u32) -> Result<u32, FilesFault>
        ensures checked { IsChecked (range_checks self.old.plain tag p q) result }
        ensures count { IfOk result (λ n. n ≡ q - p) }
        ensures done { OnOk result (self.new.plain ≡ record self.old.plain { snarf = part_at self.old.plain tag p q }) }
        ensures rooms { KeepRooms self.old self.new }
        ensures unchanged { OnErr result (self.new ≡ self.old) }
    {
        self.wants_range(tag, p, q)?;
        self.file_facts(tag);
        let runes = self.copy_part(tag, p, q)?;
        self.put_snarf(runes);
        Ok(q - p)
    }

    /// Copies `runes` into the snarf buffer.
    ///
    /// Errors, in this order: `TooLong` if there are more than `MAX_RUNES`; `OutOfMemory`. After an error the snarf buffer is unchanged.
    pub fn set_snarf(&mut self, runes: &[char]) -> Result<(), FilesFault>
        ensures checked { IsChecked (too_long (length runes.now) ∷ []) result }
        ensures limit { OnOk result (length runes.now ≤ max_runes) }
        ensures done { OnOk result (self.new.plain ≡ record self.old.plain { snarf = runes.now }) }
        ensures rooms { KeepRooms self.old self.new }
        ensures unchanged { OnErr result (self.new ≡ self.old) }
    {
        if runes.len() > MAX_RUNES as usize {
            return Err(FilesFault::TooLong);
        }
        let copy = Runes::from_slice(self.alloc(), runes)?;
        self.put_snarf(copy);
        Ok(())
    }

    /// Sets the dot of a file to the word that has place `p` inside it or at an edge, or to the empty range at `p` if there is none.
    /// Returns the new dot. A word is made of ASCII letters, digits and underscores, and of runes above U+007F.
    ///
    /// Errors, in this order: `NoFile` if the tag has no file; `BadPosition` if `p` is past the end of the text. After an error the files
    /// are unchanged.
    pub fn double_click(&mut self, tag: u16, p: u32) -> Result<(u32, u32), FilesFault>
        ensures answer { result
            ≡ unless (first_of_checks (place_checks self.old.plain tag p)) (word_at (file_at self.old.plain tag).text p) }
        ensures done { IfOk result (λ dot. self.new.plain ≡ with_dot self.old.plain tag dot.0 dot.1) }
        ensures rooms { KeepRooms self.old self.new }
        ensures unchanged { OnErr result (self.new ≡ self.old) }
    {
        self.wants_place(tag, p)?;
        let (start, end) = self.word(tag, p);
        self.change(tag, FileChange::Dot(start, end));
        Ok((start, end))
    }

    /// Adds a file with copies of this name and text under the next tag, and returns the tag. The file is clean, closed and not
    /// announced. The caller makes sure that the name has at most `MOST_IN_NAME` runes.
    ///
    /// Errors, in this order: `TooLong` if the text has more than `MAX_RUNES` runes; `NoTag` if all tags were given; `OutOfMemory`.
    /// After an error the files are unchanged.
    pub fn new_file(&mut self, name: &[char], text: &[char]) -> Result<u16, FilesFault>
        requires { length name.now ≤ most_in_name }
        ensures checked { IsChecked (too_long (length text.now) ∷ no_tag self.old.plain ∷ []) result }
        ensures tag { IfOk result (λ tag. tag ≡ length self.old.plain.slots) }
        ensures done { OnOk result (self.new.plain ≡ with_new self.old.plain (record blank_file { name = name.now; text = text.now })) }
        ensures unchanged { OnErr result (self.new ≡ self.old) }
        ensures rooms { KeepRooms self.old self.new }
    {
        if text.len() > MAX_RUNES as usize {
            return Err(FilesFault::TooLong);
        }
        if self.tags() >= ALL_TAGS {
            return Err(FilesFault::NoTag);
        }
        let name = Runes::from_slice(self.alloc(), name)?;
        let text = match Text::from_runes(self.alloc(), text) {
            Ok(text) => text,
            Err(_) => return Err(FilesFault::OutOfMemory),
        };
        self.add_file(name, text)
    }

    /// Adds a file of this name and text, which are not copied, under the next tag, and returns the tag. The file is clean, closed and
    /// not announced. The caller makes sure that the name has at most `MOST_IN_NAME` runes.
    ///
    /// Errors, in this order: `NoTag` if all tags were given; `OutOfMemory`. After an error the files are unchanged.
    pub fn add_file(&mut self, name: Runes, text: Text) -> Result<u16, FilesFault>
        requires { length name ≤ most_in_name }
        ensures checked { IsChecked (no_tag self.old.plain ∷ []) result }
        ensures tag { IfOk result (λ tag. tag ≡ length self.old.plain.slots) }
        ensures done { OnOk result (self.new.plain ≡ with_new self.old.plain (record blank_file { name = name; text = text.runes })) }
        ensures unchanged { OnErr result (self.new ≡ self.old) }
        ensures rooms { KeepRooms self.old self.new }
    {
        let tag = self.tags();
        if tag >= ALL_TAGS {
            return Err(FilesFault::NoTag);
        }
        self.add(File::new(name, text))?;
        Ok(tag as u16)
    }

    /// Adds a file for the terminal under the next tag, makes it the work file, and returns the tag. The file has an empty text and no
    /// name, and it is clean, open and announced.
    ///
    /// Errors, in this order: `NoTag` if all tags were given; `OutOfMemory`. After an error the files are unchanged.
    #[tactic(auto, using(crate::proofs::KeptLaws::put_is_there))]
    pub fn start_file(&mut self) -> Result<u16, FilesFault>
        ensures checked { IsChecked (no_tag self.old.plain ∷ []) result }
        ensures tag { IfOk result (λ tag. tag ≡ length self.old.plain.slots) }
        ensures done { OnOk result (self.new.plain ≡ with_started self.old.plain) }
        ensures unchanged { OnErr result (self.new ≡ self.old) }
        ensures rooms { KeepRooms self.old self.new }
    {
        let tag = self.tags();
        if tag >= ALL_TAGS {
            return Err(FilesFault::NoTag);
        }
        self.add(File::for_terminal(self.alloc()))?;
        self.put_work(tag as u16);
        Ok(tag as u16)
    }

    /// Searches a file for what stands in it from place `p` to place `q`: that becomes the pattern, and its first occurrence from `q` on,
    /// or else the first of the text, becomes dot. Returns the new dot. There is always one, since the range itself is an occurrence; but
    /// if the range is empty or longer than `MOST_IN_PATTERN` runes, the call returns `None`, changes nothing, and is never refused for
    /// memory.
    ///
    /// Errors, in this order: `NoFile` if the tag has no file; `BadPosition` if `q` is less than `p` or past the end of the text;
    /// `OutOfMemory`. After an error files and pattern are unchanged.
    pub fn look(&mut self, tag: u16, p: u32, q: u32) -> Result<Option<(u32, u32)>, FilesFault>
        ensures checked { IsChecked (range_checks self.old.plain tag p q) result }
        ensures found { IfOk result (λ found. found ≡ look_of self.old.plain tag (part_at self.old.plain tag p q) q) }
        ensures done { OnOk result (self.new.plain ≡ with_look self.old.plain tag (part_at self.old.plain tag p q) q) }
        // A range that may not be a pattern is never refused for memory.
        ensures memory { may_look (part_at self.old.plain tag p q) ≡ false →
            result ≡ unless (first_of_checks (range_checks self.old.plain tag p q)) None }
        ensures rooms { KeepRooms self.old self.new }
        ensures unchanged { OnErr result (self.new ≡ self.old) }
    {
        self.wants_range(tag, p, q)?;
        let lit = self.part(tag, p, q);
        if !may_be_pattern(lit) {
            return Ok(None);
        }
        let pattern = Runes::from_slice(self.alloc(), lit)?;
        let found = self.find(tag, lit, q);
        self.put_pattern(pattern);
        if let Some((start, end)) = found {
            self.change(tag, FileChange::Dot(start, end));
        }
        Ok(found)
    }

    /// Searches a file for the pattern that was searched last: its first occurrence from place `q` on, or else the first of the text,
    /// becomes dot. Returns the new dot. If there is no pattern or it stands nowhere, returns `None` and changes nothing. Place `p` is
    /// only checked.
    ///
    /// Errors, in this order: `NoFile` if the tag has no file; `BadPosition` if `q` is less than `p` or past the end of the text. After
    /// an error the files are unchanged.
    pub fn search(&mut self, tag: u16, p: u32, q: u32) -> Result<Option<(u32, u32)>, FilesFault>
        ensures answer { result ≡ unless (first_of_checks (range_checks self.old.plain tag p q)) (search_of self.old.plain tag q) }
        ensures done { OnOk result (self.new.plain ≡ with_found self.old.plain tag (search_of self.old.plain tag q)) }
        ensures rooms { KeepRooms self.old self.new }
        ensures unchanged { OnErr result (self.new ≡ self.old) }
    {
        self.wants_range(tag, p, q)?;
        let found = self.search_from(tag, q);
        if let Some((start, end)) = found {
            self.change(tag, FileChange::Dot(start, end));
        }
        Ok(found)
    }

    /// Puts what is in the snarf buffer in a file at place `p`. Dot is then what was put in, and the file becomes dirty, unless it is the
    /// command file.
    ///
    /// Errors, in this order: `NoFile` if the tag has no file; `BadPosition` if `p` is past the end of the text; `TooLong` if the text
    /// would have more than `MAX_RUNES` runes; `OutOfMemory`. After an error the files and their rooms are unchanged.
    pub fn paste(&mut self, tag: u16, p: u32) -> Result<(), FilesFault>
        ensures checked { IsChecked (insert_checks self.old.plain tag p (length self.old.plain.snarf)) result }
        ensures done { OnOk result (self.new.plain ≡ change_file self.old.plain tag (λ file. pasted_file tag file p self.old.plain.snarf)) }
        ensures unchanged { OnErr result (self.new ≡ self.old) }
        ensures rooms { KeepRooms self.old self.new }
    {
        self.wants_insert(tag, p, self.snarf_text().len())?;
        self.put_snarf_in(tag, p)
    }

    /// Prints `runes`: puts them at the end of the command file, and sets its dot to the empty range at the new end. Returns false, and
    /// changes nothing, if its text would have more than `MAX_RUNES` runes; true otherwise. To print no runes changes nothing.
    ///
    /// The only error is `OutOfMemory`, which doesn't come while the room of the command file is enough. After it the files and their
    /// rooms are unchanged.
    pub fn print(&mut self, runes: &[char]) -> Result<bool, FilesFault>
        ensures told { IfOk result (λ fits. fits ≡ has_room self.old.plain runes.now) }
        ensures done { OnOk result (self.new.plain ≡ after_print self.old.plain runes.now) }
        ensures refused { OnErr result (result ≡ Err FilesFault.OutOfMemory) }
        // Memory is asked for only if something is printed.
        ensures memory { OnErr result (is_printed self.old.plain runes.now ≡ true) }
        ensures unchanged { OnErr result (self.new ≡ self.old) }
        ensures room { StaysInRoom (room_at self.old.rooms 0) (room_at self.new.rooms 0) (length runes.now) result }
        ensures rooms { KeepRooms self.old self.new }
    {
        self.facts();
        let len = self.text_len(0);
        if self.passes_limit(0, runes.len()) {
            return Ok(false);
        }
        if runes.is_empty() {
            return Ok(true);
        }
        let end = (len + runes.len()) as u32;
        self.put_in(0, len as u32, runes, (end, end))?;
        Ok(true)
    }
}
