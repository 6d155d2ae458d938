//! `Tally`: what a stretch of a rasp takes in bytes, code units and newlines.

ghost use Rattle.std.specs.Prelude.{◌≡◌, ◌≤◌, length, map, replicate, Some, None};
ghost use Rattle.sam_runes.specs.Texts.{most_in_message};
ghost use Rattle.sam_rasp.specs.Counting.{count_of, minus, plus, Fits, IsWithin};
ghost use Rattle.sam_rasp.specs.Tallies.{measure, taken, tally_of};

/// What runes are measured in.
#[derive(Clone, Copy, Debug, PartialEq, Eq)]
pub enum Measure {
    /// Bytes of UTF-8: 1 to 4 for each rune.
    Bytes,
    /// Code units of UTF-16: 2 for each rune from U+10000 on, else 1.
    Units,
    /// Newlines, U+000A: 1 for each, and 0 for any other rune.
    Newlines,
}

/// How many gaps a stretch of a rasp has, and what its runes take. A gap takes nothing.
#[derive(Clone, Copy, Debug, PartialEq, Eq)]
pub struct Tally {
    /// How many gaps it has.
    pub gaps: u32,
    /// How many bytes its runes take in UTF-8.
    pub bytes: u32,
    /// How many code units its runes take in UTF-16.
    pub units: u32,
    /// How many of its runes are newlines.
    pub newlines: u32,
}

impl Measure {
    /// Returns what this rune takes.
    pub fn of(self, rune: char) -> u32
        ensures taken { result ≡ taken self rune }
        ensures limit { result ≤ 4 }
    {
        match self {
            Measure::Bytes => rune.len_utf8() as u32,
            Measure::Units => rune.len_utf16() as u32,
            Measure::Newlines => (rune == '\n') as u32,
        }
    }
}

/// Returns how many of these runes, at most `MOST_IN_MESSAGE`, are newlines, and how many are not of ASCII. It is a loop of its own, since
/// most texts want no other, and the compiler makes it look at several runes by one instruction.
#[tactic(auto, using(crate::proofs::Tallies::of_facts))]
fn newlines_and_wide(runes: &[char]) -> (u32, u32)
    requires { length runes.now ≤ most_in_message }
    ensures newlines { result.0 ≡ measure Measure.Newlines runes.now }
    ensures wide { result.1 ≡ 0 → (measure Measure.Bytes runes.now ≡ length runes.now)
        × (measure Measure.Units runes.now ≡ length runes.now) }
{
    let mut newlines = 0;
    let mut wide = 0;
    let mut place = 0;
    while place < runes.len() {
        let rune = runes[place];
        newlines += Measure::Newlines.of(rune);
        wide += (rune >= '\u{80}') as u32;
        place += 1;
    }
    (newlines, wide)
}

impl Tally {
    /// The tally of nothing.
    pub(crate) const NONE: Tally = Tally {
        gaps: 0,
        bytes: 0,
        units: 0,
        newlines: 0,
    };

    /// Returns the tally of so many gaps.
    #[tactic(auto, using(crate::proofs::Tallies::gaps_facts))]
    pub(crate) fn of_gaps(gaps: u32) -> Tally
        ensures { result ≡ tally_of (replicate gaps None) }
    {
        Tally {
            gaps,
            bytes: 0,
            units: 0,
            newlines: 0,
        }
    }

    /// Returns the tally of these runes: at most `MOST_IN_MESSAGE`.
    #[tactic(auto, using(crate::proofs::Tallies::of_facts))]
    pub(crate) fn of(runes: &[char]) -> Tally
        requires { length runes.now ≤ most_in_message }
        ensures { result ≡ tally_of (map Some runes.now) }
    {
        let (newlines, wide) = newlines_and_wide(runes);
        if wide == 0 {
            let len = runes.len() as u32;
            return Tally {
                gaps: 0,
                bytes: len,
                units: len,
                newlines,
            };
        }
        let mut bytes = 0;
        let mut units = 0;
        let mut place = 0;
        while place < runes.len() {
            let rune = runes[place];
            bytes += Measure::Bytes.of(rune);
            units += Measure::Units.of(rune);
            place += 1;
        }
        Tally {
            gaps: 0,
            bytes,
            units,
            newlines,
        }
    }

    /// Returns one of the counts of its runes.
    pub fn count(self, measure: Measure) -> u32
        ensures { result ≡ count_of measure self }
    {
        match measure {
            Measure::Bytes => self.bytes,
            Measure::Units => self.units,
            Measure::Newlines => self.newlines,
        }
    }

    /// Returns the sum of both.
    pub(crate) fn plus(self, more: Tally) -> Tally
        requires { Fits (plus self more) }
        ensures { result ≡ plus self more }
    {
        Tally {
            gaps: self.gaps + more.gaps,
            bytes: self.bytes + more.bytes,
            units: self.units + more.units,
            newlines: self.newlines + more.newlines,
        }
    }

    /// Returns what is left of it without the other one.
    pub(crate) fn minus(self, gone: Tally) -> Tally
        requires { IsWithin gone self }
        ensures { result ≡ minus self gone }
    {
        Tally {
            gaps: self.gaps - gone.gaps,
            bytes: self.bytes - gone.bytes,
            units: self.units - gone.units,
            newlines: self.newlines - gone.newlines,
        }
    }
}
