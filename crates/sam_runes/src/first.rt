//! The rune that begins some bytes, in UTF-8 as RFC 3629 defines it. Overlong forms, whose code fewer bytes could spell, are no
//! runes.

ghost use Rattle.std.specs.Prelude.{◌≡◌, ◌≤◌, ◌<◌, ◌+◌, ◌⊎◌, take, length, slice_index, encode_utf8, MatchOption};
ghost use Rattle.std.specs.Str.{StartsWithNoChar};

/// Returns the six bits of a continuation byte, which is 0x80 to 0xBF, or `None` for any other byte.
#[inline(always)]
fn tail(byte: u8) -> Option<u32>
    ensures { MatchOption result ((byte < 128) ⊎ (192 ≤ byte)) (λ bits. (bits < 64) × (128 + bits ≡ byte)) }
{
    if 0x80 <= byte && byte < 0xC0 {
        Some(byte as u32 - 0x80)
    } else {
        None
    }
}

/// The rune of two bytes that begins the bytes. `None` if the continuation byte is missing or the form is overlong.
#[inline(always)]
fn rune_of_two(bytes: &[u8]) -> Option<char>
    requires least { 192 ≤ slice_index bytes.now 0 }
    requires most { slice_index bytes.now 0 < 224 }
    ensures { MatchOption result (StartsWithNoChar bytes.now) (λ c. (2 ≤ length bytes.now) × (take 2 bytes.now ≡ encode_utf8 c)) }
{
    let [a, b, ..] = bytes else {
        return None;
    };
    let code = (*a as u32 - 0xC0) * 64 + tail(*b)?;
    if code < 0x80 {
        return None;
    }
    char::from_u32(code)
}

/// The rune of three bytes that begins the bytes. `None` if a continuation byte is missing, the form is overlong, or the code is a
/// surrogate.
#[inline(always)]
fn rune_of_three(bytes: &[u8]) -> Option<char>
    requires least { 224 ≤ slice_index bytes.now 0 }
    requires most { slice_index bytes.now 0 < 240 }
    ensures { MatchOption result (StartsWithNoChar bytes.now) (λ c. (3 ≤ length bytes.now) × (take 3 bytes.now ≡ encode_utf8 c)) }
{
    let [a, b, c, ..] = bytes else {
        return None;
    };
    let code = ((*a as u32 - 0xE0) * 64 + tail(*b)?) * 64 + tail(*c)?;
    if code < 0x800 {
        return None;
    }
    char::from_u32(code)
}

/// The rune of four bytes that begins the bytes. `None` if a continuation byte is missing, the form is overlong, or the code is
/// above U+10FFFF.
#[inline(always)]
fn rune_of_four(bytes: &[u8]) -> Option<char>
    requires least { 240 ≤ slice_index bytes.now 0 }
    ensures { MatchOption result (StartsWithNoChar bytes.now) (λ c. (4 ≤ length bytes.now) × (take 4 bytes.now ≡ encode_utf8 c)) }
{
    let [a, b, c, d, ..] = bytes else {
        return None;
    };
    let code = (((*a as u32 - 0xF0) * 64 + tail(*b)?) * 64 + tail(*c)?) * 64 + tail(*d)?;
    if code < 0x1_0000 {
        return None;
    }
    char::from_u32(code)
}

/// Returns the rune that begins the bytes, and how many of them it takes, or `None` if no rune begins them.
#[inline(always)]
pub fn first_rune(bytes: &[u8]) -> Option<(char, usize)>
    ensures { MatchOption result (StartsWithNoChar bytes.now) (λ x. (x.1 ≤ length bytes.now) × (take x.1 bytes.now ≡ encode_utf8 x.0)) }
{
    let [first, ..] = bytes else {
        return None;
    };
    if *first < 0x80 {
        Some((*first as char, 1))
    } else if *first < 0xC0 {
        None
    } else if *first < 0xE0 {
        Some((rune_of_two(bytes)?, 2))
    } else if *first < 0xF0 {
        Some((rune_of_three(bytes)?, 3))
    } else {
        Some((rune_of_four(bytes)?, 4))
    }
}
