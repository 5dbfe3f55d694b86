//! What is done with the boot behind a handle.

ghost use Rattle.std.specs.Prelude.{◌≡◌, ◌↔◌, IsSome, IsSomeAnd, IsTrue, MatchBool, None, Some};
ghost use Rattle.host_memory.specs.{OnHandle};
ghost use Rattle.zone_blocks.specs.Config.{IsValidConfig};
ghost use Rattle.tempolemon_c.specs.HandleCalls.{CallsLive, ChecksPin, IsTypedCall, ShowsFile};
ghost use Rattle.tempolemon_c.specs.Behind.{behind};
ghost use Rattle.tempolemon_c.specs.Asking.{AsksBehind, IsBetween};
ghost use Rattle.tempolemon_c.specs.Calls.{HasFileBehind};
ghost use Rattle.tempolemon_c.specs.Handles.{BootsNew, EndsBoot};

use crate::calls::{Call, CallAnswer, PinCheck};
use crate::handle::Handle;
use crate::raw::{RawBoot, call_raw, check_pin_raw, serve_raw, show_raw};
use crate::requests::{Request, RequestAnswer};
use control_files::file::File;
use control_files::text::ArrayText;
use group_tree::group::GroupId;
use host_memory::report::{Report, report_of};
use load_run::boot_end::BootEnd;
use mem_system::{Boot, SystemEnd};
use std::alloc::Global;
use zone_blocks::config::Config;

impl Handle {
    /// Whether there is a boot behind it.
    pub fn is_live(&self) -> bool
        ensures { IsTrue result ↔ IsSome (behind self.now) }
    {
        self.is_live
    }

    /// Starts this boot, which has these sizes, behind a handle that has none. Returns false if memory ran out: nothing
    /// is left then.
    pub(crate) fn start(&mut self, alloc: Global, boot: Boot, sizes: Config) -> bool
        requires none { behind self.old ≡ None }
        requires sizes { boot.sizes ≡ sizes }
        requires valid { IsValidConfig sizes }
        ensures { MatchBool result (BootsNew sizes (behind self.new)) (behind self.new ≡ None) }
    {
        let raw = std::mem::replace(&mut self.raw, RawBoot::none(alloc));
        let (raw, answer) = serve_raw(raw, Request::Start { alloc, boot, sizes });
        self.raw = raw;
        self.is_live = matches!(answer, RequestAnswer::Done);
        self.is_live
    }

    /// Serves a request that neither starts nor ends a boot.
    pub(crate) fn ask(&mut self, alloc: Global, request: Request) -> RequestAnswer
        requires live { IsSome (behind self.old) }
        requires between { IsBetween request }
        ensures { AsksBehind request (behind self.old) (behind self.new) result }
    {
        let raw = std::mem::replace(&mut self.raw, RawBoot::none(alloc));
        let (raw, answer) = serve_raw(raw, request);
        self.raw = raw;
        answer
    }

    /// Serves a call of the CPU of this number.
    #[inline(always)]
    #[tactic(auto, using(host_memory::proofs::Crossing::crossed, host_memory::proofs::Crossing::some_behind))]
    pub(crate) fn call(&mut self, alloc: Global, cpu: u32, call: &Call<'_>) -> CallAnswer
        requires live { IsSome (behind self.old) }
        requires asked { IsTypedCall call.now }
        ensures { OnHandle (λ frames from to. CallsLive frames cpu call.now from to result)
            (behind self.old) (behind self.new) }
    {
        let raw = std::mem::replace(&mut self.raw, RawBoot::none(alloc));
        let (raw, answer) = call_raw(raw, cpu, call);
        self.raw = raw;
        answer
    }

    /// Whether the CPU of this number may have one more pin, of a block of this order.
    #[tactic(auto, using(host_memory::proofs::Crossing::crossed, host_memory::proofs::Crossing::some_behind))]
    pub(crate) fn check_pin(&mut self, alloc: Global, cpu: u32, order: u32) -> PinCheck
        requires live { IsSome (behind self.old) }
        ensures { OnHandle (λ frames from to. ChecksPin cpu order result from to)
            (behind self.old) (behind self.new) }
    {
        let raw = std::mem::replace(&mut self.raw, RawBoot::none(alloc));
        let (raw, check) = check_pin_raw(raw, cpu, order);
        self.raw = raw;
        check
    }

    /// What a file of a group shows. The group exists, and isn't the root, which has no files.
    #[tactic(auto, using(host_memory::proofs::Crossing::crossed, crate::proofs::Crossing::file_behind))]
    pub(crate) fn show(&mut self, alloc: Global, group: GroupId, file: File) -> ArrayText
        requires there { IsSomeAnd (behind self.old) (HasFileBehind group file) }
        ensures { OnHandle (λ frames from to. ShowsFile group file from to result)
            (behind self.old) (behind self.new) }
    {
        let raw = std::mem::replace(&mut self.raw, RawBoot::none(alloc));
        let (raw, shown) = show_raw(raw, group, file);
        self.raw = raw;
        shown
    }

    /// Ends the boot.
    pub(crate) fn finish(&mut self, alloc: Global) -> Report
        requires live { IsSome (behind self.old) }
        ensures { EndsBoot (behind self.old) (behind self.new) result }
    {
        let raw = std::mem::replace(&mut self.raw, RawBoot::none(alloc));
        let (raw, answer) = serve_raw(raw, Request::End { alloc });
        self.raw = raw;
        self.is_live = false;
        match answer {
            RequestAnswer::Ended(BootEnd { held, audit }) => report_of(SystemEnd { held, audit }),
            _ => unreachable!(),
        }
    }
}
