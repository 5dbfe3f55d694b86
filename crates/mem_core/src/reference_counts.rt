//! The references of a seat on each frame, with their sum.

ghost use Rattle.std.specs.Prelude.{◌≡◌, ◌*◌, ◌<◌, ◌≤◌, IfOk, length, replicate, slice_set, vec_len};
ghost use Rattle.std.specs.List.{slice_index_or};
ghost use Rattle.zone_blocks.specs.Config.{most_frames};
ghost use Rattle.mem_core.specs.Tables.{sum_of};

use std::alloc::{AllocError, Global};
use std::marker::Model;

/// The references of a seat on each frame, at most 255 on each. A contract sees them as a list.
#[derive(Drop)]
pub struct ReferenceCounts {
    // A byte each: the seats have one for every frame of the zone.
    counts: Vec<u8>,
    sum: u32,
}

impl Model for ReferenceCounts {
    ghost use Rattle.std.specs.Prelude.{ℕ, List};
    ghost use Rattle.mem_core.specs.Tables.{AreSummed};

    ghost Value = { List ℕ };

    ghost view = { λ t. t.counts.items };

    ghost invariant = { AreSummed };
}

/// A count of 0 for each frame.
fn new_counts(alloc: Global, frames: usize) -> Result<Vec<u8>, AllocError>
    ensures items { IfOk result (λ counts. counts.items ≡ replicate frames 0) }
    ensures number { IfOk result (λ counts. vec_len counts ≡ frames) }
{
    vec![in alloc; 0; frames]
}

impl ReferenceCounts {
    /// No references on this many frames.
    pub fn new(alloc: Global, frames: u32) -> Result<ReferenceCounts, AllocError>
        requires { frames ≤ most_frames }
        ensures { IfOk result (λ counts. counts ≡ replicate frames 0) }
    {
        let counts = new_counts(alloc, frames as usize)?;
        Ok(ReferenceCounts { counts, sum: 0 })
    }

    /// The references on a frame; 0 beyond the last.
    #[tactic(auto, using(crate::proofs::Looking::past_default))]
    pub fn get(&self, frame: u32) -> u32
        ensures { result ≡ slice_index_or self.now frame 0 }
    {
        if (frame as usize) < self.counts.len() {
            u32::from(self.counts[frame as usize])
        } else {
            0
        }
    }

    /// Sets the references on a frame.
    pub fn set(&mut self, frame: u32, count: u32)
        requires there { frame < length self.old }
        requires few { count ≤ 255 }
        ensures { self.new ≡ slice_set self.old frame count }
    {
        let was = u32::from(self.counts[frame as usize]);
        self.counts[frame as usize] = count as u8;
        self.sum = self.sum - was + count;
    }

    /// The references on all frames.
    pub fn sum(&self) -> u32
        ensures sum { result ≡ sum_of self.now }
        ensures few { result ≤ 255 * most_frames }
    {
        self.sum
    }
}
