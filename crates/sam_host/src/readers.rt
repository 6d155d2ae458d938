//! What can be read of a host.

ghost use Rattle.std.specs.Prelude.{◌≡◌};
ghost use Rattle.sam_host.specs.Laws.{IsSound};
ghost use Rattle.sam_text.specs.Files.{IsCommandFileClean};

use crate::host::Host;
use sam_text::Files;

impl Host {
    /// Returns how many messages it has taken. The frames of its next answer carry one more.
    pub fn taken(&self) -> u64
        ensures { result ≡ self.now.taken }
    {
        self.taken
    }

    /// Returns whether it is done: a `Texit` or the command line `q` has ended the session, and it answers no frame any more.
    pub fn is_done(&self) -> bool
        ensures { result ≡ self.now.is_done }
    {
        self.done
    }

    /// Returns its files: text, name, dot and marks of each by tag, with the snarf buffer, the pattern and the work file.
    pub fn files(&self) -> &Files
        ensures { result.now.plain ≡ self.now.files }
    {
        &self.files
    }

    /// Returns the version that was agreed on last: 1 or 2, and 1 before the first `Tversion`.
    pub fn version(&self) -> u16
        ensures { result ≡ self.now.version }
    {
        self.version
    }

    /// States what is true of every host: texts and names are within their limits, each dot is a range of its text, and the version is 1 or
    /// 2. It does nothing when the program runs.
    #[tactic(auto, using(crate::proofs::SoundLaws::known_sound))]
    pub fn facts(&self)
        ensures { IsSound self.now }
    {
        self.files.facts();
    }

    /// States that the command file is never dirty, whatever is typed, pasted or printed there. It does nothing when the program runs.
    pub fn command_file_facts(&self)
        ensures { IsCommandFileClean self.now.files }
    {
        self.files.facts();
    }
}
