//! What is done with what a handle leads to.

ghost use Rattle.std.specs.Prelude.{◌≡◌, ◌↔◌, IfNone, IfSome, IsSome, IsSomeAnd, IsTrue, MatchBool, MatchResult, None};
ghost use Rattle.host_memory.specs.{OnHandle, led_of};
ghost use Rattle.mem_system.specs.Boots.{IsSizedAs};
ghost use Rattle.zone_threads.specs.{Calls, AnswersRead, HasNoCpu, ReadsText};
ghost use Rattle.tempolemon_threads.specs.Behind.{part_behind, zone_behind};
ghost use Rattle.tempolemon_threads.specs.Handling.{EndsAs, EntersNone, ForksAs};
ghost use Rattle.tempolemon_threads.specs.Handles.{BootsZone, ReturnsPart, TakesPart};

use crate::handles::{CpuPart, Zone};
use crate::raw::{RawHome, call_raw, fork_raw, read_raw, serve_raw};
use crate::requests::{Forked, Request, RequestAnswer};
use mem_system::Boot;
use std::alloc::Global;
use zone_threads::calls::{Call, CallAnswer, ReadAnswer, ReadCall};
use zone_threads::home::{NotEntered, NotLeft};
use zone_threads::texts::{TextAnswer, TextCall};

impl Zone {
    /// Whether it leads to a zone.
    pub fn is_live(&self) -> bool
        ensures { IsTrue result ↔ IsSome (zone_behind self.now) }
    {
        self.is_live
    }

    /// Starts this boot. Returns false if memory ran out: nothing is left then.
    pub(crate) fn start(&mut self, alloc: Global, boot: Boot) -> bool
        requires none { zone_behind self.old ≡ None }
        requires sized { IsSizedAs boot.sizes boot.table }
        ensures { MatchBool result (BootsZone boot.sizes (zone_behind self.new)) (zone_behind self.new ≡ None) }
    {
        let raw = self.raw.take(alloc);
        let (raw, answer) = serve_raw(raw, Request::Start { alloc, boot });
        self.raw.put(raw);
        self.is_live = matches!(answer, RequestAnswer::Started);
        self.is_live
    }

    /// A second pointer to the zone, for a CPU.
    pub(crate) fn fork(&mut self, alloc: Global) -> (RawHome, Forked)
        requires live { IsSome (zone_behind self.old) }
        ensures stays { zone_behind self.new ≡ zone_behind self.old }
        ensures forked { ForksAs result.1 (zone_behind self.old)
            result.0.frames result.0.home }
    {
        let raw = self.raw.take(alloc);
        let (raw, other, forked) = fork_raw(raw, alloc);
        self.raw.put(raw);
        (other, forked)
    }

    /// Ends the zone, if all its CPUs are returned.
    pub(crate) fn end(&mut self, alloc: Global) -> RequestAnswer
        requires live { IsSome (zone_behind self.old) }
        ensures { EndsAs result (zone_behind self.old) (zone_behind self.new) }
    {
        let raw = self.raw.take(alloc);
        let (raw, answer) = serve_raw(raw, Request::End { alloc });
        self.raw.put(raw);
        self.is_live = matches!(answer, RequestAnswer::Out);
        answer
    }
}

impl CpuPart {
    /// Whether it leads to a CPU.
    pub fn is_live(&self) -> bool
        ensures { IsTrue result ↔ IsSome (part_behind self.now) }
    {
        self.is_live
    }

    /// Takes the CPU of this number, by a pointer to the zone.
    #[tactic(auto, using(crate::proofs::Crossing::refused_gone))]
    pub(crate) fn enter(
        &mut self,
        alloc: Global,
        raw: RawHome,
        number: u32,
    ) -> Result<(), NotEntered>
        requires no_cpu { IsSomeAnd raw.home HasNoCpu }
        requires none { part_behind self.old ≡ None }
        ensures { MatchResult result
            (λ _. TakesPart number (led_of raw.frames raw.home) (part_behind self.new))
            (λ reason. EntersNone number reason raw.frames (part_behind self.new)) }
    {
        let (raw, answer) = serve_raw(raw, Request::Enter { number });
        match answer {
            RequestAnswer::Entered => {
                self.raw.put(raw);
                self.is_live = true;
                Ok(())
            }
            RequestAnswer::NotEntered(reason) => {
                let (none, _left) = serve_raw(raw, Request::Leave { alloc });
                none.forget();
                Err(reason)
            }
            _ => unreachable!(),
        }
    }

    /// Returns the CPU to its zone. Returns false if another thread has the lock: nothing was done then.
    pub(crate) fn leave(&mut self, alloc: Global) -> bool
        requires live { IsSome (part_behind self.old) }
        ensures { MatchBool result
            (ReturnsPart (part_behind self.old) (part_behind self.new))
            (part_behind self.new ≡ part_behind self.old) }
    {
        let raw = self.raw.take(alloc);
        let (raw, answer) = serve_raw(raw, Request::Leave { alloc });
        if let RequestAnswer::NotLeft(reason) = answer {
            let NotLeft::Busy = reason else {
                unreachable!()
            };
            self.raw.put(raw);
            return false;
        }
        let RequestAnswer::Left(_) = answer else {
            unreachable!()
        };
        self.raw.put(raw);
        self.is_live = false;
        true
    }

    /// Serves a call of the CPU.
    #[inline(always)]
    #[tactic(auto, using(host_memory::proofs::Crossing::crossed, crate::proofs::Crossing::cpu_behind))]
    pub(crate) fn call(&mut self, alloc: Global, call: &Call<'_>) -> CallAnswer
        requires live { IsSome (part_behind self.old) }
        ensures { OnHandle (λ frames from to. Calls frames call.now from to result)
            (part_behind self.old) (part_behind self.new) }
    {
        let raw = self.raw.take(alloc);
        let (raw, answer) = call_raw(raw, call);
        self.raw.put(raw);
        answer
    }

    /// Reads a file for the CPU.
    #[tactic(auto, using(host_memory::proofs::Crossing::crossed, crate::proofs::Crossing::cpu_behind))]
    pub(crate) fn read(&mut self, alloc: Global, asked: &ReadCall<'_>) -> ReadAnswer
        requires live { IsSome (part_behind self.old) }
        ensures { OnHandle (λ frames from to. AnswersRead frames asked.now from to result)
            (part_behind self.old) (part_behind self.new) }
    {
        let raw = self.raw.take(alloc);
        let (raw, answer) = read_raw(raw, asked);
        self.raw.put(raw);
        answer
    }

    /// Gets a text of the zone; `None` if another thread has the lock.
    pub(crate) fn text(&mut self, alloc: Global, asked: TextCall) -> Option<TextAnswer>
        requires live { IsSome (part_behind self.old) }
        ensures shown { IfSome result (λ answer.
            OnHandle (λ frames. ReadsText frames asked answer) (part_behind self.old)
            (part_behind self.new)) }
        ensures busy { IfNone result (part_behind self.new ≡ part_behind self.old) }
    {
        let raw = self.raw.take(alloc);
        let (raw, answer) = serve_raw(raw, Request::Text { alloc, asked });
        self.raw.put(raw);
        match answer {
            RequestAnswer::Text(answer) => Some(answer),
            RequestAnswer::Busy => None,
            _ => unreachable!(),
        }
    }
}
