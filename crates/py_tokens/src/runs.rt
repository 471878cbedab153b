//! How many bytes at the front of a text are of one class, read 32 at a time.
ghost use Rattle.std.specs.Prelude.{◌≡◌, ℕ, ◌≤◌, Bool, length, map};
ghost use Rattle.std.specs.List.{prefix_len};
ghost use Rattle.std.specs.Simd.Lanes.{mask_l};
ghost use Rattle.py_tokens.specs.Bytes.{is_name_byte, is_space_byte, is_line_byte};

use std::simd::prelude::*;

// The bytes of one block.
const LANES: usize = 32;

// A class of bytes: its test of one byte, and the same of a block.
trait ByteClass {
    ghost passes: { ℕ → Bool };

    fn passes_byte(byte: u8) -> bool
        ensures { result ≡ passes byte };

    // Bit k is set where the byte of lane k passes.
    fn passing_lanes(block: u8x32) -> u64
        ensures { result ≡ mask_l (map passes block) };
}

struct NameBytes;

impl ByteClass for NameBytes {
    ghost passes = { is_name_byte };

    fn passes_byte(byte: u8) -> bool {
        is_name_byte(byte)
    }

    #[inline(always)]
    fn passing_lanes(block: u8x32) -> u64 {
        // This bit is all that sets a small letter apart from its capital.
        let small = block | u8x32::splat(0x20);
        let letters = small.simd_ge(u8x32::splat(b'a')) & small.simd_le(u8x32::splat(b'z'));
        let digits = block.simd_ge(u8x32::splat(b'0')) & block.simd_le(u8x32::splat(b'9'));
        (letters | digits | block.simd_eq(u8x32::splat(b'_'))).to_bitmask()
    }
}

struct SpaceBytes;

impl ByteClass for SpaceBytes {
    ghost passes = { is_space_byte };

    fn passes_byte(byte: u8) -> bool {
        matches!(byte, b' ' | b'\t' | b'\x0C')
    }

    #[inline(always)]
    fn passing_lanes(block: u8x32) -> u64 {
        let spaces = block.simd_eq(u8x32::splat(b' '));
        let tabs = block.simd_eq(u8x32::splat(b'\t'));
        (spaces | tabs | block.simd_eq(u8x32::splat(b'\x0C'))).to_bitmask()
    }
}

struct LineBytes;

impl ByteClass for LineBytes {
    ghost passes = { is_line_byte };

    fn passes_byte(byte: u8) -> bool {
        byte != b'\n' && byte != b'\r'
    }

    #[inline(always)]
    fn passing_lanes(block: u8x32) -> u64 {
        let others = block.simd_ne(u8x32::splat(b'\n'));
        (others & block.simd_ne(u8x32::splat(b'\r'))).to_bitmask()
    }
}

// The length of the longest run at the front of one block.
#[inline(always)]
#[tactic(auto, using(crate::proofs::Lanes::run_of_mask))]
fn run_in_block<C: ByteClass>(block: u8x32) -> usize
    ensures { result ≡ prefix_len C.passes block }
{
    C::passing_lanes(block).trailing_ones() as usize
}

fn run_of_rest<C: ByteClass>(bytes: &[u8]) -> usize
    ensures exact { result ≡ prefix_len C.passes bytes.now }
    ensures within { result ≤ length bytes.now }
{
    bytes
        .iter()
        .take_while(|byte| C::passes_byte(**byte))
        .count()
}

// The length of the longest run at the front.
#[tactic(auto, using(crate::proofs::Lanes::run_ends, crate::proofs::Lanes::run_goes_on))]
fn run_of<C: ByteClass>(bytes: &[u8]) -> usize
    ensures exact { result ≡ prefix_len C.passes bytes.now }
    ensures within { result ≤ length bytes.now }
{
    let mut at = 0;
    while bytes.len() - at >= LANES {
        let run = run_in_block::<C>(u8x32::from_slice(&bytes[at..]));
        if run < LANES {
            return at + run;
        }
        at += LANES;
    }
    at + run_of_rest::<C>(&bytes[at..])
}

pub(crate) fn is_name_byte(byte: u8) -> bool
    ensures { result ≡ is_name_byte byte }
{
    byte.is_ascii_alphanumeric() || byte == b'_'
}

/// The length of the longest run of ASCII letters, digits and `_` at the front.
pub fn run_of_name(bytes: &[u8]) -> usize
    ensures exact { result ≡ prefix_len is_name_byte bytes.now }
    ensures within { result ≤ length bytes.now }
{
    run_of::<NameBytes>(bytes)
}

/// The length of the longest run of spaces, tabs and form feeds at the front.
pub fn run_of_space(bytes: &[u8]) -> usize
    ensures exact { result ≡ prefix_len is_space_byte bytes.now }
    ensures within { result ≤ length bytes.now }
{
    run_of::<SpaceBytes>(bytes)
}

/// How many bytes stand before the first line feed or carriage return, or the end.
pub fn run_to_line_end(bytes: &[u8]) -> usize
    ensures exact { result ≡ prefix_len is_line_byte bytes.now }
    ensures within { result ≤ length bytes.now }
{
    run_of::<LineBytes>(bytes)
}
