//! What the host reads of its files, and the tests of a message's tag and places that several kinds share.

ghost use Rattle.std.specs.Prelude.{◌≡◌, ◌≤◌, ◌∷◌, [], ◌==◌, IfOk, OnOk, OnErr, Err, true, false, length};
ghost use Rattle.sam_host.specs.Host.{unknown, is_command, not_opened, past_end, no_range, IsRefusal};
ghost use Rattle.sam_runes.specs.Texts.{max_runes, part};
ghost use Rattle.sam_runes.specs.Checks.{first_of_checks, unless};
ghost use Rattle.sam_text.specs.Files.{has_file, file_at};

use crate::fault::HostFault;
use crate::host::Host;
use sam_runes::Runes;

impl Host {
    /// Returns how many runes the text of the file has: at most `MAX_RUNES`, and 0 if there is no file.
    pub(crate) fn text_len(&self, tag: u16) -> u32
        ensures len { result ≡ length (file_at self.now.files tag).text }
        ensures limit { length (file_at self.now.files tag).text ≤ max_runes }
    {
        self.files.text_len(tag) as u32
    }

    /// Copies what stands in the file from place `p` to place `q`. The only error is `OutOfMemory`.
    pub(crate) fn part(&self, tag: u16, p: u32, q: u32) -> Result<Runes, HostFault>
        requires ascending { p ≤ q }
        requires within { q ≤ length (file_at self.now.files tag).text }
        ensures ok { IfOk result (λ r. r ≡ part (file_at self.now.files tag).text p q) }
        ensures memory { OnErr result (result ≡ Err HostFault.OutOfMemory) }
    {
        Ok(self.files.copy_part(tag, p, q)?)
    }

    /// Tests that the file is there, and is not the command file. Errors, in this order: `NoFile`; `CommandFile`.
    pub(crate) fn wants_other(&self, tag: u16) -> Result<(), HostFault>
        ensures answer { result ≡ unless (first_of_checks (unknown self.now tag ∷ is_command tag ∷ [])) tt }
        ensures there { OnOk result (has_file self.now.files tag ≡ true) }
        ensures other { OnOk result ((tag == 0) ≡ false) }
    {
        self.files.wants_file(tag)?;
        if tag == 0 {
            return Err(HostFault::CommandFile);
        }
        Ok(())
    }

    /// Tests that the file is there and open. Errors, in this order: `NoFile`; `NotOpen`.
    pub(crate) fn wants_open(&self, tag: u16) -> Result<(), HostFault>
        ensures answer { result ≡ unless (first_of_checks (unknown self.now tag ∷ not_opened self.now tag ∷ [])) tt }
        ensures there { OnOk result (has_file self.now.files tag ≡ true) }
    {
        self.files.wants_file(tag)?;
        if !self.files.is_open(tag) {
            return Err(HostFault::NotOpen);
        }
        Ok(())
    }

    /// Tests that the file is there and open, and has the place `p`. Errors, in this order: `NoFile`; `NotOpen`; `BadPosition` if `p` is
    /// past the end.
    pub(crate) fn wants_place(&self, tag: u16, p: u32) -> Result<(), HostFault>
        ensures answer { result
            ≡ unless (first_of_checks (unknown self.now tag ∷ not_opened self.now tag ∷ past_end self.now tag p ∷ [])) tt }
        ensures there { OnOk result (has_file self.now.files tag ≡ true) }
        ensures within { OnOk result (p ≤ length (file_at self.now.files tag).text) }
    {
        self.wants_open(tag)?;
        self.files.wants_place(tag, p)?;
        Ok(())
    }

    /// Tests that the file is there and open, and has the range from `p` to `q`. Errors, in this order: `NoFile`; `NotOpen`;
    /// `BadPosition` if `q` is below `p` or past the end.
    pub(crate) fn wants_range(&self, tag: u16, p: u32, q: u32) -> Result<(), HostFault>
        ensures answer { result
            ≡ unless (first_of_checks (unknown self.now tag ∷ not_opened self.now tag ∷ no_range self.now tag p q ∷ [])) tt }
        ensures there { OnOk result (has_file self.now.files tag ≡ true) }
        ensures within { OnOk result ((p ≤ q) × (q ≤ length (file_at self.now.files tag).text)) }
        ensures limit { OnOk result (q ≤ max_runes) }
    {
        self.wants_open(tag)?;
        self.files.file_facts(tag);
        self.files.wants_range(tag, p, q)?;
        Ok(())
    }

    /// Returns why a message about the range from `p` to `q` of an open file is refused where memory is refused: `BadPosition` if the text
    /// has no such range, since that comes first; else `OutOfMemory`. Where memory is had, the call of `Files` tests the range.
    pub(crate) fn without_memory(&self, tag: u16, p: u32, q: u32) -> HostFault
        requires there { has_file self.now.files tag ≡ true }
        ensures { IsRefusal (first_of_checks (no_range self.now tag p q ∷ [])) result }
    {
        match self.files.wants_range(tag, p, q) {
            Ok(()) => HostFault::OutOfMemory,
            Err(fault) => fault.into(),
        }
    }
}
