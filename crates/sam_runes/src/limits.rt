//! The limits of texts and of messages. Each stands here, and once more for contracts in specs/Texts.antt, under the same name in
//! small letters (`LAST_VERSION` as the 2 in `common_version`). docs/reference/PROTOCOL.md lists them.

ghost use Rattle.std.specs.Prelude.{◌≡◌};
ghost use Rattle.sam_runes.specs.Texts.{agreed, common_version, snarf_limit};

/// The most runes that a `Text` may have. A rasp, its gaps counted, and the snarf buffer have the same limit.
pub const MAX_RUNES: u32 = 1_000_000;

/// The most runes in the text of one message, and in one loaded section of a rasp.
pub const MOST_IN_MESSAGE: usize = 512;

/// The most runes in the name of a file.
pub const MOST_IN_NAME: usize = 64;

/// The most runes in a pattern. It has at least one.
pub const MOST_IN_PATTERN: usize = 128;

/// How many tags there are in one session: that of the command file, 0, and those of files.
pub const ALL_TAGS: usize = 65_536;

/// The most files that a session can begin with: each has a tag, and the command file has one of all tags.
pub const MOST_FILES: usize = ALL_TAGS - 1;

/// The last version. There are two, and a session begins in version 1.
pub const LAST_VERSION: u16 = 2;

/// The most bytes of snarfed text in one message of version 1.
pub const FIRST_SNARF_LIMIT: usize = 4_096;

/// The most bytes of snarfed text in one message of version 2, the last one.
pub const LAST_SNARF_LIMIT: usize = 32_000;

/// Returns the most bytes of snarfed text in one message, in UTF-8: `FIRST_SNARF_LIMIT` in version 1, and `LAST_SNARF_LIMIT` in version
/// 2 and any other.
pub fn snarf_limit(version: u16) -> usize
    ensures { result ≡ snarf_limit version }
{
    if version == 1 {
        FIRST_SNARF_LIMIT
    } else {
        LAST_SNARF_LIMIT
    }
}

/// Returns the version that both sides speak where one offers `offered`, which is above 0: that, or `LAST_VERSION` if it is above it.
pub fn common_version(offered: u16) -> u16
    ensures { result ≡ common_version offered }
{
    offered.min(LAST_VERSION)
}

/// Returns the version after an offer, where it was `version` before. There is no version 0, so an offer of 0 leaves it.
pub fn agreed(version: u16, offered: u16) -> u16
    ensures { result ≡ agreed version offered }
{
    if offered == 0 {
        version
    } else {
        common_version(offered)
    }
}
