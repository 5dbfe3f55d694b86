//! How much of each group's usage memory.min and memory.low protect from a reclaim: the effective values of the kernel
//! under the mount option `memory_recursiveprot` (cgroup-v2.rst, Memory; `effective_protection` of mm/memcontrol.c).
//!
//! What a group gets depends on the reclaim's target and on its parents: children share what protects their parent.
//!
//! And the shares of a reclaim: what each group gives of the pages wanted, in proportion to what it may give.
#![tactic(auto)]

pub mod laws;
pub mod protecting;
pub mod reclaim_shares;
mod shares;
