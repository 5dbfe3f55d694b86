//! The place of a byte.

ghost use Rattle.std.specs.Prelude.{◌≡◌, ◌≢◌, ◌<◌, ◌≤◌, All, IfSome, MatchOption, length, slice_index, take};
ghost use Rattle.script_lines.specs.Names.{bytes_at_once};
ghost use Rattle.script_lines.specs.Places.{IsFirstPlace, IsFrontOf, IsPathEnd};

use std::simd::prelude::*;

/// The mark after those of eight bytes.
const BEHIND_EIGHT: u64 = 256;

/// The place of the first byte that is `wanted`, if it is one of the first 32 bytes, which are compared at once: most
/// lines end there.
#[inline(always)]
pub(crate) fn near_place(wanted: u8, text: &[u8]) -> Option<usize>
    ensures { IfSome result (λ place. IsFirstPlace wanted text.now place) }
{
    if text.len() < 32 {
        return None;
    }
    let marks = u8x32::from_slice(text)
        .simd_eq(u8x32::splat(wanted))
        .to_bitmask();
    if marks == 0 {
        return None;
    }
    Some(marks.trailing_zeros() as usize)
}

/// The place of the first byte that is `wanted`, by one byte after the other. It stays a call: inlined, its loop keeps a
/// register for each slice that is cut at the place.
#[inline(never)]
pub fn place_by_one(wanted: u8, text: &[u8]) -> Option<usize>
    ensures { MatchOption result (All (λ b. b ≢ wanted) text.now) (λ place. IsFirstPlace wanted text.now place) }
{
    text.iter().position(|byte| *byte == wanted)
}

/// The place of the first byte that no path has. It is looked for in a wider text, which begins with this one and mostly
/// has 16 bytes.
#[inline(always)]
pub(crate) fn path_end(text: &[u8], wide: &[u8]) -> Option<usize>
    requires { IsFrontOf text.now wide.now }
    ensures { MatchOption result (All (λ b. (32 < b) × (b < 127)) text.now) (λ end. IsPathEnd text.now end) }
{
    if let Some(end) = near_path_end(wide) {
        if end < text.len() {
            return Some(end);
        }
        return None;
    }
    far_path_end(text)
}

// The place of the first byte that no path has, if it is one of the first 16 bytes, which are compared at once. A byte
// from 33 to 126, and no other, is at least 162 with 129 more.
#[inline(always)]
fn near_path_end(text: &[u8]) -> Option<usize>
    ensures { IfSome result (λ end. IsPathEnd text.now end) }
{
    if text.len() < 16 {
        return None;
    }
    let marks = (u8x16::from_slice(text) + u8x16::splat(129))
        .simd_lt(u8x16::splat(162))
        .to_bitmask();
    if marks == 0 {
        return None;
    }
    Some(marks.trailing_zeros() as usize)
}

// The place of the first byte that no path has, by one byte after the other. It stays a call, as `place_by_one` does.
#[inline(never)]
fn far_path_end(text: &[u8]) -> Option<usize>
    ensures { MatchOption result (All (λ b. (32 < b) × (b < 127)) text.now) (λ end. IsPathEnd text.now end) }
{
    text.iter().position(|byte| !byte.is_ascii_graphic())
}

/// The place of the first space in the first eight bytes, which are compared at once; 8 if there is none.
#[inline(always)]
pub(crate) fn near_space(text: &[u8]) -> usize
    requires { bytes_at_once ≤ length text.now }
    ensures low { result ≤ bytes_at_once }
    ensures before { All (λ b. b ≢ 32) (take result text.now) }
    ensures stop { result < bytes_at_once → slice_index text.now result ≡ 32 }
{
    let marks = u8x8::from_slice(text)
        .simd_eq(u8x8::splat(b' '))
        .to_bitmask();
    (marks + BEHIND_EIGHT).trailing_zeros() as usize
}
