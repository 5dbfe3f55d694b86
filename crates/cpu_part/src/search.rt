//! The place of a frame in a list.
ghost use Rattle.std.specs.Prelude.{◌≡◌, ◌<◌, ◌≤◌, false, MatchOption, drop, length, slice_index};
ghost use Rattle.step_rules.specs.State.{times};

use frame_word::Frame;

/// How many frames are compared at once.
const BLOCK: usize = 16;

/// A place of the frame, searched for from the end: first at the end itself.
pub(crate) fn place_of(frames: &[Frame], frame: Frame) -> Option<usize>
    ensures { MatchOption result (times frame frames.now ≡ 0)
        (λ i. (i < length frames.now) × (slice_index frames.now i ≡ frame)) }
{
    let count = frames.len();
    if count > 0 && frames[count - 1] == frame {
        return Some(count - 1);
    }
    seek(frames, frame)
}

// A place of the frame; many frames are skipped at once.
fn seek(frames: &[Frame], frame: Frame) -> Option<usize>
    ensures { MatchOption result (times frame frames.now ≡ 0)
        (λ i. (i < length frames.now) × (slice_index frames.now i ≡ frame)) }
{
    let mut end = skip_blocks_without(frames, frame);
    while end > 0 {
        end -= 1;
        if frames[end] == frame {
            return Some(end);
        }
    }
    None
}

// How many frames are left if, from the end, the blocks without the frame are skipped.
fn skip_blocks_without(frames: &[Frame], frame: Frame) -> usize
    ensures inside { result ≤ length frames.now }
    ensures absent { times frame (drop result frames.now) ≡ 0 }
{
    let mut end = frames.len();
    while end >= BLOCK {
        if holds(&frames[end - BLOCK..end], frame) {
            return end;
        }
        end -= BLOCK;
    }
    end
}

// Whether the frame is one of these. All of them are compared, so that several are compared at once.
fn holds(block: &[Frame], frame: Frame) -> bool
    ensures { result ≡ false → times frame block.now ≡ 0 }
{
    let mut is_there = false;
    for other in block {
        is_there |= *other == frame;
    }
    is_there
}
