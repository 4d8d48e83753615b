//! Texts that are cut at the first byte of a kind.
ghost use Rattle.std.specs.Prelude.{◌≡◌, ◌==◌, ◌≤◌, ◌<◌, IfSome, length, option_map, take};
ghost use Rattle.std.specs.List.{before_first, position_or_len};
ghost use Rattle.text_words.specs.Words.{tail_at, tail_of};

use memchr::memchr;
use std::simd::prelude::*;

/// How many bytes are looked at in one step, before the search of a long text begins: most words and many lines are
/// no longer.
const NEAR: usize = 16;
/// The same for shorter texts, as what follows `mem` in a line of one byte.
const HALF: usize = 8;

/// The first place of a byte, from 0, or the length where the byte isn't in the text: `place_of(b' ', b"give it")` is
/// 4.
pub fn place_of(byte: u8, text: &[u8]) -> usize
    ensures value { result ≡ position_or_len (λ b. b == byte) text.now }
    ensures within { result ≤ length text.now }
{
    if text.len() < NEAR {
        return place_in_short(byte, text);
    }
    let near = place_near(byte, text);
    if near < NEAR {
        near
    } else {
        NEAR + place_in_long(byte, &text[NEAR..])
    }
}

/// The same, for a text of fewer than `NEAR` bytes.
fn place_in_short(byte: u8, text: &[u8]) -> usize
    ensures value { result ≡ position_or_len (λ b. b == byte) text.now }
    ensures within { result ≤ length text.now }
{
    if text.len() < HALF {
        return place_one_by_one(byte, text);
    }
    let near = place_in_half(byte, text);
    if near < HALF {
        near
    } else {
        HALF + place_one_by_one(byte, &text[HALF..])
    }
}

/// The same, byte by byte.
fn place_one_by_one(byte: u8, text: &[u8]) -> usize
    ensures value { result ≡ position_or_len (λ b. b == byte) text.now }
    ensures within { result ≤ length text.now }
{
    for i in 0..text.len() {
        if text[i] == byte {
            return i;
        }
    }
    text.len()
}

/// The first place of a byte among the first `NEAR` bytes, or `NEAR` where none of them is that byte.
#[inline(always)]
fn place_near(byte: u8, text: &[u8]) -> usize
    requires { NEAR ≤ length text.now }
    ensures { result ≡ position_or_len (λ b. b == byte) (take NEAR text.now) }
{
    let found = u8x16::from_slice(text)
        .simd_eq(u8x16::splat(byte))
        .to_bitmask();
    if found == 0 {
        NEAR
    } else {
        found.trailing_zeros() as usize
    }
}

/// The first place of a byte among the first `HALF` bytes, or `HALF` where none of them is that byte.
#[inline(always)]
fn place_in_half(byte: u8, text: &[u8]) -> usize
    requires { HALF ≤ length text.now }
    ensures { result ≡ position_or_len (λ b. b == byte) (take HALF text.now) }
{
    let found = u8x8::from_slice(text)
        .simd_eq(u8x8::splat(byte))
        .to_bitmask();
    if found == 0 {
        HALF
    } else {
        found.trailing_zeros() as usize
    }
}

/// The same as `place_of`, for a text whose length is worth the start of a search by vectors; out of the way of short
/// texts, so that these save and restore no registers for it.
#[inline(never)]
fn place_in_long(byte: u8, text: &[u8]) -> usize
    ensures value { result ≡ position_or_len (λ b. b == byte) text.now }
    ensures within { result ≤ length text.now }
{
    memchr(byte, text).unwrap_or(text.len())
}

/// What stands before the first such byte, and what follows it: `cut_at(b'\n', b"one\ntwo")` is `(b"one",
/// Some(b"two"))`. Where the byte isn't in the text it is the whole text and `None`.
pub fn cut_at(byte: u8, text: &[u8]) -> (&[u8], Option<&[u8]>)
    ensures before { result.0.now ≡ before_first (λ b. b == byte) text.now }
    ensures tail { option_map (λ s. s.now) result.1 ≡ tail_at byte text.now }
    ensures shorter { IfSome result.1 (λ s. length s.now < length text.now) }
{
    let i = place_of(byte, text);
    if i < text.len() {
        (&text[..i], Some(&text[i + 1..]))
    } else {
        (text, None)
    }
}

/// The first word of a line, and what follows the blank behind it: `cut(b"give it")` is `(b"give", Some(b"it"))`.
/// Where the line has no blank it is the whole line and `None`.
pub fn cut(line: &[u8]) -> (&[u8], Option<&[u8]>)
    ensures before { result.0.now ≡ before_first (λ b. b == 32) line.now }
    ensures tail { option_map (λ s. s.now) result.1 ≡ tail_of line.now }
{
    cut_at(b' ', line)
}
