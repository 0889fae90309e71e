// Whether bytes are UTF-8, character by character, with blocks for runs of ASCII.
#![tactic(auto)]

ghost use Rattle.std.specs.Prelude.{◌≡◌, Decides, MatchOption};
ghost use Rattle.utf8.specs.Rfc3629.{Tail, Three, Four, Octets};
ghost use Rattle.utf8.specs.Fronts.{Whole, NoCharacter, AsciiFront};
ghost use Rattle.utf8.specs.Str.{SameGrammar};

use std::simd::prelude::*;

// As many bytes as one look at a run of ASCII takes in.
const BLOCK: usize = 32;

/// Whether `bytes` are UTF-8.
pub fn is_utf8(bytes: &[u8]) -> bool
    ensures { Decides result (Octets bytes.now) }
{
    let mut rest = bytes;
    while let Some(width) = front(rest) {
        rest = &rest[width..];
    }
    rest.is_empty()
}

/// `bytes` as text, where they are UTF-8.
pub fn as_text(bytes: &[u8]) -> Option<&str>
    ensures { MatchOption result (Octets bytes.now → ⊥) (λ s. Octets bytes.now × (s.now ≡ bytes.now)) }
{
    is_utf8(bytes).then(|| unsafe { std::str::from_utf8_unchecked(bytes) })
}

/// States that the grammar of RFC 3629 has exactly the texts that a `&str` may hold.
pub fn grammar_is_that_of_str()
    ensures { SameGrammar }
{}

// How many bytes at the front are one character, or a run of ASCII; none where no character stands there.
fn front(bytes: &[u8]) -> Option<usize>
    ensures { MatchOption result (NoCharacter bytes.now) (λ n. Whole bytes.now n) }
{
    let (&first, rest) = bytes.split_first()?;
    match (first, rest) {
        (0x00..=0x7F, _) => Some(1 + ascii_front(rest)),
        (0xC2..=0xDF, [b, ..]) if is_tail(*b) => Some(2),
        (a @ 0xE0..=0xEF, [b, c, ..]) if begins_three(a, *b) && is_tail(*c) => Some(3),
        (a @ 0xF0..=0xF4, [b, c, d, ..]) if begins_four(a, *b) && is_tail(*c) && is_tail(*d) =>
            Some(4),
        _ => None,
    }
}

// Whether `a` and `b` begin a character of three bytes: no shorter form of it, and no surrogate.
fn begins_three(a: u8, b: u8) -> bool
    ensures { Decides result (Three a b) }
{
    match a {
        0xE0 => matches!(b, 0xA0..=0xBF),
        0xED => matches!(b, 0x80..=0x9F),
        0xE1..=0xEF => is_tail(b),
        _ => false,
    }
}

// Whether `a` and `b` begin a character of four bytes: no shorter form of it, and none past U+10FFFF.
fn begins_four(a: u8, b: u8) -> bool
    ensures { Decides result (Four a b) }
{
    match a {
        0xF0 => matches!(b, 0x90..=0xBF),
        0xF1..=0xF3 => is_tail(b),
        0xF4 => matches!(b, 0x80..=0x8F),
        _ => false,
    }
}

// Whether `b` may follow the first two bytes of a character, or the first of two.
fn is_tail(b: u8) -> bool
    ensures { Decides result (Tail b) }
{
    matches!(b, 0x80..=0xBF)
}

// How many bytes at the front are ASCII, as far as whole blocks tell.
fn ascii_front(bytes: &[u8]) -> usize
    ensures { AsciiFront bytes.now result }
{
    let (blocks, _) = bytes.as_chunks();
    match blocks.iter().position(|block| ascii_lanes(block) < BLOCK) {
        Some(n) => n * BLOCK + ascii_lanes(&blocks[n]),
        None => blocks.len() * BLOCK,
    }
}

// How many bytes at the front of a block are ASCII.
fn ascii_lanes(block: &[u8; BLOCK]) -> usize
    ensures { AsciiFront block.now result }
{
    let high = u8x32::from_array(*block)
        .simd_ge(u8x32::splat(0x80))
        .to_bitmask();
    BLOCK.min(high.trailing_zeros() as usize)
}
