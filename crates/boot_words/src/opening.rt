//! A new table.
ghost use Rattle.std.specs.Prelude.{◌≡◌, ◌≤◌, IfOk};
ghost use Rattle.stock_word.specs.declared.stock.Stock.TheVariants.{NoGroup};
ghost use Rattle.boot_words.specs.Rule.{AllOf};
ghost use Rattle.boot_words.specs.Cpus.{IsAwayCpu};
ghost use Rattle.boot_words.specs.Opening.{cpus_at_first, seat_at_first};
ghost use Rattle.boot_words.specs.Seats.{cpus_pasts, first_alone, rest_of};

use crate::cpu::CpuSeat;
use crate::raw::{BootWords, PastSeat};
use std::alloc::{AllocError, Global};
use std::mem;
use stock_word::Stock;
use zone_blocks::choices::Choices;

impl BootWords {
    /// A table for this many frames, numbered from 0, and the CPUs 1 to `cpus` (1 to 64), with the zone's seat and
    /// those of the CPUs in their order. It keeps the choices of the boot. Each word is 0 and the run has no step: each
    /// frame is free, no visit is open, no stock has a group, and nobody holds the lock. `AllocError` if memory runs
    /// out.
    pub fn new(
        alloc: Global,
        frames: u32,
        cpus: u32,
        choices: Choices,
    ) -> Result<(BootWords, PastSeat, Vec<CpuSeat>), AllocError>
        requires frames { 1 ≤ frames }
        requires cpus { (1 ≤ cpus) × (cpus ≤ 64) }
        ensures sizes { IfOk result (λ r. (r.0.frames ≡ frames) × (r.0.cpus ≡ cpus)) }
        ensures choices { IfOk result (λ r. r.0.choices ≡ choices) }
        ensures zone { IfOk result (λ r. r.1 ≡ seat_at_first r.0.table 0) }
        ensures cpus { IfOk result (λ r. r.2.items ≡ cpus_at_first r.0.table 1 cpus) }
        ensures away { IfOk result (λ r. AllOf (IsAwayCpu r.0) r.2.items) }
    {
        let (words, mut zone) = BootWords::start(alloc, frames, cpus, choices)?;
        let mut rest = words.split_others(&mut zone);
        let seats = words.deal(alloc, &mut rest, cpus);
        drop(rest);
        match seats {
            Ok(seats) => Ok((words, zone, seats)),
            Err(error) => {
                drop(words);
                drop(zone);
                Err(error)
            }
        }
    }

    // The seat of this CPU, which gets the first past.
    fn seated(&self, rest: &mut PastSeat, cpu: u32) -> CpuSeat
        requires table { rest.old.table ≡ self.now.table }
        ensures rest { rest.new ≡ record { table = self.now.table; pasts = rest_of rest.old.pasts } }
        ensures seat { result ≡ record {
          past = record { table = self.now.table; pasts = first_alone rest.old.pasts };
          number = cpu;
          last = NoGroup;
        } }
    {
        let others = self.split_others(rest);
        CpuSeat {
            past: mem::replace(rest, others),
            number: cpu,
            last: Stock::NoGroup,
        }
    }

    // Gives each CPU its seat, from the one that has the pasts of all.
    fn deal(
        &self,
        alloc: Global,
        rest: &mut PastSeat,
        cpus: u32,
    ) -> Result<Vec<CpuSeat>, AllocError>
        requires table { (rest.old.table ≡ self.now.table) × (cpus ≤ 64) }
        requires pasts { rest.old.pasts ≡ cpus_pasts 1 cpus }
        ensures { IfOk result (λ seats. seats.items ≡ cpus_at_first self.now.table 1 cpus) }
    {
        let mut seats = Vec::with_capacity(alloc, cpus as usize)?;
        for cpu in 1..cpus + 1 {
            seats.push_reserved(self.seated(rest, cpu));
        }
        Ok(seats)
    }
}
