//! Typing and command lines. A line is run when its newline is typed into the command file, or when it is sent there. It is read, and what
//! it does worked out, before it is typed. Then its frames are made, and then room in the command file for what is typed and printed. So
//! all memory is had before the first change, and no change can fail. The functions `tell_..` add frames to those of the answer. The only
//! error of a private function is `OutOfMemory`, and the host is then unchanged.

ghost use Rattle.std.specs.Prelude.{◌≡◌, ◌==◌, ◌<◌, ◌≤◌, ◌+◌, ◌-◌, ◌∷◌, [], ◌^◌, IfOk, OnOk, OnErr, Err, Some, not, ◌&&◌, nat_lt, if◌then◌else◌, length};
ghost use Rattle.sam_host.specs.Typing.{typed, sent, typed_line, reply_typed_line, told_line, IsSameButEdits};
ghost use Rattle.sam_host.specs.Host.{Replies, Appends, stamped, when, when_given, printed, told_edit, told_edits, told_outcome, line_to, reply_line};
ghost use Rattle.sam_runes.specs.Texts.{max_runes, part, as_lines, last_line};
ghost use Rattle.sam_runes.specs.Edits.{inserted};
ghost use Rattle.sam_text.specs.Files.{file_at, IsOutcomeOf};
ghost use Rattle.sam_text.specs.Views.{room_at};
ghost use Rattle.sam_text.specs.Outcomes.{effect};
ghost use Rattle.sam_text.specs.Meaning.{meaning, nothing};

use crate::fault::HostFault;
use crate::host::Host;
use sam_mesg::{HFrame, Hmesg, Tmesg};
use sam_runes::places::start_of_line;
use sam_runes::{Edit, MAX_RUNES, Runes};
use sam_text::{Files, Outcome};
use std::mem;

/// How many frames an answer to a line has at most beside the two of each edit: the mark, the name, the pattern, the dot and the check of
/// the work file, the growth, the dot and the check of the command file, and the end.
const MOST_BESIDE_EDITS: usize = 9;

impl Host {
    /// Adds `Hcut` for what an edit takes out; nothing if the range is empty.
    #[tactic(auto, unfolding(crate::specs::Host::when))]
    fn tell_cut(&self, frames: &mut Vec<HFrame>, tag: u16, p: u32, q: u32) -> Result<(), HostFault>
        requires count { self.now.taken + 1 < 2 ^ 64 }
        ensures ok { OnOk result (Appends self.now frames.old.items frames.new.items (when (nat_lt p q) (Hmesg.Hcut tag p (q - p) ∷ []))) }
        ensures memory { OnErr result (result ≡ Err HostFault.OutOfMemory) }
    {
        if p < q {
            return self.say(frames, Hmesg::Hcut(tag, p, q - p));
        }
        Ok(())
    }

    /// Adds the frames for one edit of a file: what goes, and then what comes. The text is taken out of the edit.
    #[tactic(auto, using(crate::proofs::FrameLaws::told_both), unfolding(crate::specs::Host::told_edit))]
    fn tell_edit(
        &self,
        frames: &mut Vec<HFrame>,
        tag: u16,
        edit: &mut Edit,
    ) -> Result<(), HostFault>
        requires count { self.now.taken + 1 < 2 ^ 64 }
        requires limit { length edit.old.text ≤ max_runes }
        ensures ok { OnOk result (Appends self.now frames.old.items frames.new.items (told_edit self.now.files tag edit.old)) }
        ensures memory { OnErr result (result ≡ Err HostFault.OutOfMemory) }
    {
        let none = Runes::from_vec(Vec::new(self.alloc));
        let runes = mem::replace(&mut edit.text, none);
        self.tell_cut(frames, tag, edit.p, edit.q)?;
        self.grown_with(frames, tag, edit.p, runes)
    }

    /// Adds the frames for the edits of a file, from the last to the first, so that each place is still true. The texts are taken
    /// out of the edits.
    #[tactic(auto, using(crate::proofs::RunLaws::edits_facts))]
    fn tell_edits(
        &self,
        frames: &mut Vec<HFrame>,
        tag: u16,
        edits: &mut [Edit],
    ) -> Result<(), HostFault>
        requires count { self.now.taken + 1 < 2 ^ 64 }
        requires limit { inserted edits.old ≤ max_runes }
        ensures count { length edits.new ≡ length edits.old }
        ensures ok { OnOk result (Appends self.now frames.old.items frames.new.items (told_edits self.now.files tag edits.old)) }
        ensures memory { OnErr result (result ≡ Err HostFault.OutOfMemory) }
    {
        let mut left = edits.len();
        while left > 0 {
            left -= 1;
            self.tell_edit(frames, tag, &mut edits[left])?;
        }
        Ok(())
    }

    /// Adds `Hmovname` if a line sets a name.
    #[tactic(auto, unfolding(crate::specs::Host::when_given))]
    fn tell_new_name(
        &self,
        frames: &mut Vec<HFrame>,
        tag: u16,
        name: &Option<Runes>,
    ) -> Result<(), HostFault>
        requires count { self.now.taken + 1 < 2 ^ 64 }
        ensures ok { OnOk result (Appends self.now frames.old.items frames.new.items (when_given name.now (Hmesg.Hmovname tag))) }
        ensures memory { OnErr result (result ≡ Err HostFault.OutOfMemory) }
    {
        match name {
            Some(name) => {
                let copy = name.copy(self.alloc)?;
                self.say(frames, Hmesg::Hmovname(tag, copy))
            }
            None => Ok(()),
        }
    }

    /// Adds `Hsetpat` if a line has a pattern.
    #[tactic(auto, unfolding(crate::specs::Host::when_given))]
    fn tell_pattern(
        &self,
        frames: &mut Vec<HFrame>,
        pattern: &Option<Runes>,
    ) -> Result<(), HostFault>
        requires count { self.now.taken + 1 < 2 ^ 64 }
        ensures ok { OnOk result (Appends self.now frames.old.items frames.new.items (when_given pattern.now Hmesg.Hsetpat)) }
        ensures memory { OnErr result (result ≡ Err HostFault.OutOfMemory) }
    {
        match pattern {
            Some(pattern) => {
                let copy = pattern.copy(self.alloc)?;
                self.say(frames, Hmesg::Hsetpat(copy))
            }
            None => Ok(()),
        }
    }

    /// Adds `Hsetdot` if a line sets the dot.
    #[tactic(auto, unfolding(crate::specs::Host::when_given))]
    fn tell_dot(
        &self,
        frames: &mut Vec<HFrame>,
        tag: u16,
        dot: Option<(u32, u32)>,
    ) -> Result<(), HostFault>
        requires count { self.now.taken + 1 < 2 ^ 64 }
        ensures ok { OnOk result (Appends self.now frames.old.items frames.new.items (when_given dot (λ d. Hmesg.Hsetdot tag d.0 d.1))) }
        ensures memory { OnErr result (result ≡ Err HostFault.OutOfMemory) }
    {
        match dot {
            Some((p, q)) => self.say(frames, Hmesg::Hsetdot(tag, p, q)),
            None => Ok(()),
        }
    }

    /// Adds `Hdirty` if there is an edit and the file was clean.
    #[tactic(auto, unfolding(crate::specs::Host::when))]
    fn tell_edited(&self, frames: &mut Vec<HFrame>, tag: u16, edited: bool) -> Result<(), HostFault>
        requires count { self.now.taken + 1 < 2 ^ 64 }
        ensures ok { OnOk result (Appends self.now frames.old.items frames.new.items
            (when (edited && not (file_at self.now.files tag).dirty) (Hmesg.Hdirty tag ∷ []))) }
        ensures memory { OnErr result (result ≡ Err HostFault.OutOfMemory) }
    {
        if !edited || self.files.is_dirty(tag) {
            return Ok(());
        }
        self.say(frames, Hmesg::Hdirty(tag))
    }

    /// Adds `Hcheck` if there is an edit: the terminal is to look for gaps.
    #[tactic(auto, unfolding(crate::specs::Host::when))]
    fn tell_check(&self, frames: &mut Vec<HFrame>, tag: u16, edited: bool) -> Result<(), HostFault>
        requires count { self.now.taken + 1 < 2 ^ 64 }
        ensures ok { OnOk result (Appends self.now frames.old.items frames.new.items (when edited (Hmesg.Hcheck tag ∷ []))) }
        ensures memory { OnErr result (result ≡ Err HostFault.OutOfMemory) }
    {
        if !edited {
            return Ok(());
        }
        self.say(frames, Hmesg::Hcheck(tag))
    }

    /// Adds what a line did to a file: its edits, the mark, the name, the pattern and the dot, in this order, and `Hcheck` last. The texts
    /// of the edits go into the frames.
    fn tell_parts(
        &self,
        frames: &mut Vec<HFrame>,
        tag: u16,
        edits: &mut [Edit],
        name: &Option<Runes>,
        pattern: &Option<Runes>,
        dot: Option<(u32, u32)>,
    ) -> Result<(), HostFault>
        requires count { self.now.taken + 1 < 2 ^ 64 }
        requires limit { inserted edits.old ≤ max_runes }
        ensures count { length edits.new ≡ length edits.old }
        ensures ok { OnOk result (Appends self.now frames.old.items frames.new.items
            (told_outcome (Some tag) self.now.files
            (record nothing { edits = edits.old; name = name.now; pattern = pattern.now; dot = dot }))) }
        ensures memory { OnErr result (result ≡ Err HostFault.OutOfMemory) }
    {
        let edited = !edits.is_empty();
        self.tell_edits(frames, tag, edits)?;
        self.tell_edited(frames, tag, edited)?;
        self.tell_new_name(frames, tag, name)?;
        self.tell_pattern(frames, pattern)?;
        self.tell_dot(frames, tag, dot)?;
        self.tell_check(frames, tag, edited)?;
        Ok(())
    }

    /// Adds what a line did to its file. It hands the parts of the outcome to `tell_parts`; the outcome is left without the texts of its
    /// edits.
    #[tactic(auto, unfolding(crate::specs::Host::told_outcome))]
    fn tell_changed(
        &self,
        frames: &mut Vec<HFrame>,
        tag: u16,
        outcome: &mut Outcome,
    ) -> Result<(), HostFault>
        requires count { self.now.taken + 1 < 2 ^ 64 }
        requires limit { inserted (effect outcome.old).edits ≤ max_runes }
        ensures ok { OnOk result (Appends self.now frames.old.items frames.new.items
            (told_outcome (Some tag) self.now.files (effect outcome.old))) }
        ensures memory { OnErr result (result ≡ Err HostFault.OutOfMemory) }
        ensures same { IsSameButEdits (effect outcome.old) (effect outcome.new) }
    {
        self.tell_parts(
            frames,
            tag,
            outcome.edits.items.as_mut_slice(),
            &outcome.name,
            &outcome.pattern,
            outcome.dot,
        )
    }

    /// Adds what a line did. An outcome that names no file has at most a pattern. The outcome is left without the texts of its edits.
    #[tactic(auto, unfolding(crate::specs::Host::told_outcome))]
    fn tell_outcome(&self, frames: &mut Vec<HFrame>, outcome: &mut Outcome) -> Result<(), HostFault>
        requires count { self.now.taken + 1 < 2 ^ 64 }
        requires limit { inserted (effect outcome.old).edits ≤ max_runes }
        ensures ok { OnOk result (Appends self.now frames.old.items frames.new.items
            (told_outcome outcome.old.file self.now.files (effect outcome.old))) }
        ensures memory { OnErr result (result ≡ Err HostFault.OutOfMemory) }
        ensures same { IsSameButEdits (effect outcome.old) (effect outcome.new) }
    {
        match outcome.file {
            Some(tag) => self.tell_changed(frames, tag, outcome),
            None => self.tell_pattern(frames, &outcome.pattern),
        }
    }

    /// Adds the end of a line: the session is over, or the command lock is free.
    fn tell_end(&self, frames: &mut Vec<HFrame>, quit: bool) -> Result<(), HostFault>
        requires count { self.now.taken + 1 < 2 ^ 64 }
        ensures ok { OnOk result (Appends self.now frames.old.items frames.new.items ((if quit then Hmesg.Hexit else Hmesg.Hunlock) ∷ [])) }
        ensures memory { OnErr result (result ≡ Err HostFault.OutOfMemory) }
    {
        if quit {
            self.say(frames, Hmesg::Hexit)
        } else {
            self.say(frames, Hmesg::Hunlock)
        }
    }

    /// Adds what a line does, what it prints, and its end. The files are still as they were before the typing: `len` is the length of the
    /// command file after it. The texts of the edits go into the frames: the outcome is left without them, and can still be put in.
    #[tactic(auto, using(crate::proofs::FrameLaws::told_both))]
    fn tell_line(
        &self,
        frames: &mut Vec<HFrame>,
        len: u32,
        outcome: &mut Outcome,
    ) -> Result<(), HostFault>
        requires count { self.now.taken + 1 < 2 ^ 64 }
        requires limit { inserted (effect outcome.old).edits ≤ max_runes }
        requires len { len ≤ max_runes }
        ensures ok { OnOk result (Appends self.now frames.old.items frames.new.items (told_line self.now.files len (effect outcome.old))) }
        ensures memory { OnErr result (result ≡ Err HostFault.OutOfMemory) }
        ensures same { IsSameButEdits (effect outcome.old) (effect outcome.new) }
    {
        frames.reserve(2 * outcome.edits.items.len() + MOST_BESIDE_EDITS)?;
        self.tell_outcome(frames, outcome)?;
        self.tell_print_at(frames, len, outcome.printed.as_slice())?;
        self.tell_end(frames, outcome.quit)
    }

    /// Works out what a line, without its newline, does. Nothing is changed. A wrong line is no error: its outcome prints a word.
    fn outcome(&self, line: &[char]) -> Result<Outcome, HostFault>
        ensures value { IfOk result (λ o. effect o ≡ meaning self.now.files line.now) }
        ensures fits { IfOk result (λ o. IsOutcomeOf self.now.files (effect o)) }
        ensures limit { IfOk result (λ o. inserted (effect o).edits ≤ max_runes) }
        ensures memory { OnErr result (result ≡ Err HostFault.OutOfMemory) }
    {
        self.files.facts();
        Ok(self.files.run_line(line)?)
    }

    /// Types `runes` into the command file at `p`, runs `line`, which is the line that they end without its newline, and adds its frames.
    /// All memory is had before the first change. The only error is `OutOfMemory`, and the host is then unchanged.
    #[tactic(auto, using(crate::proofs::RunLaws::same_fits))]
    fn run(
        &mut self,
        frames: &mut Vec<HFrame>,
        p: u32,
        runes: &[char],
        line: &[char],
    ) -> Result<(), HostFault>
        requires count { self.old.taken + 1 < 2 ^ 64 }
        requires place { p ≤ length (file_at self.old.files 0).text }
        requires fits { length (file_at self.old.files 0).text + length runes.now ≤ max_runes }
        ensures host { OnOk result (self.new ≡ (reply_line (typed self.old p runes.now) [] line.now).0) }
        ensures frames { OnOk result (Appends self.old frames.old.items frames.new.items
            (reply_line (typed self.old p runes.now) [] line.now).1) }
        ensures memory { OnErr result (result ≡ Err HostFault.OutOfMemory) }
        ensures unchanged { OnErr result (self.new ≡ self.old) }
    {
        self.files.facts();
        let mut outcome = self.outcome(line)?;
        let len = self.text_len(0) + runes.len() as u32;
        self.tell_line(frames, len, &mut outcome)?;
        make_room(&mut self.files, runes.len(), outcome.printed.len())?;
        self.done = outcome.quit;
        self.files.commit_typed(p, runes, outcome);
        Ok(())
    }

    /// Returns what stands before `p` in its line of the command file, if `start` is 0; else nothing.
    fn line_before(&self, p: u32, start: usize) -> &[char]
        requires { p ≤ length (file_at self.now.files 0).text }
        ensures { result.now ≡ (if start == 0 then line_to (file_at self.now.files 0).text p else []) }
    {
        match self.files.file(0) {
            Some(file) if start == 0 => file.text().slice(file.text().line_start(p), p),
            _ => &[],
        }
    }

    /// Returns the line that the newline at the end of `runes` ends once they are typed into the command file at `p`, without that newline.
    /// It begins in the file if the runes have no other newline. They are not typed yet.
    #[tactic(auto, using(crate::proofs::TypingLaws::line_joined))]
    fn typed_line(&self, p: u32, runes: &[char]) -> Result<Runes, HostFault>
        requires filled { 0 < length runes.now }
        requires place { p ≤ length (file_at self.now.files 0).text }
        ensures ok { IfOk result (λ line. line ≡ typed_line (file_at self.now.files 0).text p runes.now) }
        ensures memory { OnErr result (result ≡ Err HostFault.OutOfMemory) }
    {
        let end = runes.len() - 1;
        let start = start_of_line(runes, end);
        let before = self.line_before(p, start);
        let mut line = Vec::with_capacity(self.alloc, before.len() + (end - start))?;
        line.extend_from_slice(before)?;
        line.extend_from_slice(&runes[start..end])?;
        Ok(Runes::from_vec(line))
    }

    /// Types runes that end in a newline into the command file at `p`, and runs the line that this newline ends.
    fn type_line(&mut self, p: u32, runes: &[char]) -> Result<Vec<HFrame>, HostFault>
        requires count { self.old.taken + 1 < 2 ^ 64 }
        requires filled { 0 < length runes.now }
        requires place { p ≤ length (file_at self.old.files 0).text }
        requires fits { length (file_at self.old.files 0).text + length runes.now ≤ max_runes }
        ensures host { OnOk result (self.new ≡ (reply_typed_line self.old p runes.now).0) }
        ensures frames { IfOk result (λ frames. frames.items ≡ stamped (self.old.taken + 1) (reply_typed_line self.old p runes.now).1) }
        ensures memory { OnErr result (result ≡ Err HostFault.OutOfMemory) }
        ensures count { self.new.taken ≡ self.old.taken }
        ensures unchanged { OnErr result (self.new ≡ self.old) }
    {
        let line = self.typed_line(p, runes)?;
        let mut frames = Vec::new(self.alloc);
        self.run(&mut frames, p, runes, line.as_slice())?;
        Ok(frames)
    }

    /// Answers `Ttype`: puts the runes in at `p`, as the terminal has done already, and so with no frame. If they go into the command
    /// file and end in a newline, the line that this newline ends is run, and its frames are the answer. Errors, in this order: `NoFile`;
    /// `NotOpen`; `BadPosition` if `p` is past the end; `TooLong` if the text would have more than `MAX_RUNES` runes; `OutOfMemory`.
    /// After an error the host is unchanged. The caller counts the message.
    #[tactic(auto, using(crate::proofs::TypingLaws::type_facts))]
    pub(crate) fn type_in(
        &mut self,
        tag: u16,
        p: u32,
        runes: &Runes,
    ) -> Result<Vec<HFrame>, HostFault>
        requires { self.old.taken + 1 < 2 ^ 64 }
        ensures replied { Replies self.old (Tmesg.Ttype tag p runes.now) result self.new }
    {
        self.wants_open(tag)?;
        if tag == 0 && runes.ends_line() {
            self.files.wants_insert(tag, p, runes.len())?;
            return self.type_line(p, runes.as_slice());
        }
        self.files.insert(tag, p, runes.as_slice())?;
        Ok(Vec::new(self.alloc))
    }

    /// Copies what stands in a file from `p` to `q`, with a newline added if it ends in none.
    fn lines_of(&self, tag: u16, p: u32, q: u32) -> Result<Runes, HostFault>
        requires ascending { p ≤ q }
        requires within { q ≤ length (file_at self.now.files tag).text }
        ensures ok { IfOk result (λ r. r ≡ as_lines (part (file_at self.now.files tag).text p q)) }
        ensures memory { OnErr result (result ≡ Err HostFault.OutOfMemory) }
    {
        let runes = self.part(tag, p, q)?;
        if runes.ends_line() {
            return Ok(runes);
        }
        let mut lines = runes.into_vec();
        lines.push('\n')?;
        Ok(Runes::from_vec(lines))
    }

    /// Answers a `Tsend` that sends nothing: the command lock is free.
    fn nothing_sent(&self) -> Result<Vec<HFrame>, HostFault>
        requires { self.now.taken + 1 < 2 ^ 64 }
        ensures ok { IfOk result (λ frames. frames.items ≡ stamped (self.now.taken + 1) (Hmesg.Hunlock ∷ [])) }
        ensures memory { OnErr result (result ≡ Err HostFault.OutOfMemory) }
    {
        let mut frames = Vec::new(self.alloc);
        self.say(&mut frames, Hmesg::Hunlock)?;
        Ok(frames)
    }

    /// Puts lines at the end of the command file, as a print does, and runs the last of them.
    fn send_lines(&mut self, lines: &[char]) -> Result<Vec<HFrame>, HostFault>
        requires count { self.old.taken + 1 < 2 ^ 64 }
        requires filled { 0 < length lines.now }
        requires fits { length (file_at self.old.files 0).text + length lines.now ≤ max_runes }
        ensures host { OnOk result (self.new ≡ (reply_line (sent self.old lines.now) [] (last_line lines.now)).0) }
        ensures frames { IfOk result (λ frames. Appends self.old
            (stamped (self.old.taken + 1) (printed self.old.files lines.now)) frames.items
            (reply_line (sent self.old lines.now) [] (last_line lines.now)).1) }
        ensures memory { OnErr result (result ≡ Err HostFault.OutOfMemory) }
        ensures count { self.new.taken ≡ self.old.taken }
        ensures unchanged { OnErr result (self.new ≡ self.old) }
    {
        let mut frames = Vec::new(self.alloc);
        self.tell_print(&mut frames, lines)?;
        let end = lines.len() - 1;
        let start = start_of_line(lines, end);
        let len = self.text_len(0);
        self.run(&mut frames, len, lines, &lines[start..end])?;
        Ok(frames)
    }

    /// Answers `Tsend`: prints what stands from `p` to `q` at the end of the command file, with a newline added if it ends in none, and
    /// runs the last line of it. If the range is empty, or the command file has no room, nothing changes, and `Hunlock` is the one frame.
    /// Errors, in this order: `NoFile`; `NotOpen`; `BadPosition` if the text has no such range; `OutOfMemory`. After an error the host is
    /// unchanged. The caller counts the message.
    #[tactic(auto, using(crate::proofs::TypingLaws::send_nothing, crate::proofs::TypingLaws::lines_filled))]
    pub(crate) fn send(&mut self, tag: u16, p: u32, q: u32) -> Result<Vec<HFrame>, HostFault>
        requires { self.old.taken + 1 < 2 ^ 64 }
        ensures replied { Replies self.old (Tmesg.Tsend tag p q) result self.new }
    {
        self.wants_range(tag, p, q)?;
        if p == q {
            return self.nothing_sent();
        }
        let lines = self.lines_of(tag, p, q)?;
        if self.files.passes_limit(0, lines.len()) {
            return self.nothing_sent();
        }
        self.send_lines(lines.as_slice())
    }
}

/// Makes room in the command file for `typed` runes, and for as many more as a line prints if they come within the limit of the text. The
/// only error is `OutOfMemory`; no text is changed.
fn make_room(files: &mut Files, typed: usize, printed: usize) -> Result<(), HostFault>
    requires fits { length (file_at files.old.plain 0).text + typed ≤ max_runes }
    ensures plain { files.new.plain ≡ files.old.plain }
    ensures typed { OnOk result (typed ≤ room_at files.new.rooms 0) }
    ensures printed { OnOk result (length (file_at files.old.plain 0).text + typed + printed ≤ max_runes →
        typed + printed ≤ room_at files.new.rooms 0) }
    ensures memory { OnErr result (result ≡ Err HostFault.OutOfMemory) }
{
    files.facts();
    let left = MAX_RUNES as usize - files.text_len(0) - typed;
    let printed = if printed <= left { printed } else { 0 };
    files.reserve(0, (typed + printed) as u32)?;
    Ok(())
}
