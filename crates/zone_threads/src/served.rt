//! What is served with what lies behind the lock.

ghost use Rattle.std.specs.Prelude.{◌≡◌, ◌<◌, IfNone, IfSome, IsTrue, MatchBool};
ghost use Rattle.frame_word.specs.declared.answers.Get.TheVariants.{Held};
ghost use Rattle.group_tree.specs.Groups.{has_group};
ghost use Rattle.mem_system.specs.{IsOfZone, SettlesCaller, ServesText, locked_state};
ghost use Rattle.zone_threads.specs.Calling.{NoGroupBehind, ReadsBehind, ServesAct};
ghost use Rattle.zone_threads.specs.Calling.{AllocatesPinned, HasPinRoom, MayPinBlock, MissesPin, Pins};
ghost use Rattle.zone_threads.specs.Calling.{ReadsPages, SaysPages};
ghost use Rattle.zone_threads.specs.Homes.{ServesBehind};

use crate::behind::Behind;
use crate::calls::{CallAnswer, GroupAct, GroupPages, ReadAnswer, ReadCall};
use control_files::stat::stat_text;
use cpu_part::{BootName, Tables};
use frame_word::Get;
use group_charge::charges::Charges;
use group_tree::fault::Fault;
use group_tree::group::GroupId;
use host_memory::groups::find_group;
use mem_system::{
    Cpu, Locked, LockedCommand, Outcome, Setting, TextCommand, serve_dirty_alloc, serve_outcome,
    serve_settle, serve_text, shown_text,
};

/// Why nothing was allocated under the lock.
#[derive(Clone, Copy, Debug, PartialEq, Eq)]
pub enum Missed {
    /// Another thread has it.
    Busy,
    /// No group has the number.
    NoGroup,
}

impl<N: BootName> Behind<N> {
    /// Serves a command of a CPU, as `mem_system::serve_text` does.
    #[inline(always)]
    pub fn serve(
        &mut self,
        tables: &Tables<N>,
        cpu: &mut Cpu<N>,
        command: &TextCommand<'_>,
    ) -> Outcome
        requires { IsOfZone N.table command.now }
        ensures { ServesBehind N.table (ServesText N.table command.now result) self.old self.new cpu.old cpu.new }
    {
        self.locked.prove_quiet();
        let outcome = serve_text(&mut self.locked, tables, cpu, command);
        self.locked.prove_quiet();
        outcome
    }

    /// Does this for the group of this number; `None` if there is none.
    #[inline(always)]
    pub fn serve_act(
        &mut self,
        tables: &Tables<N>,
        cpu: &mut Cpu<N>,
        group: u32,
        act: GroupAct,
    ) -> Option<Outcome>
        ensures served { IfSome result (λ outcome.
            ServesBehind N.table (ServesAct N.table group act outcome) self.old self.new cpu.old cpu.new) }
        ensures none { IfNone result (NoGroupBehind N.table group self.old self.new cpu.old cpu.new) }
    {
        self.locked.prove_quiet();
        let Some(group) = find_group(self.locked.charges(), group) else {
            self.locked.meet(tables, cpu);
            self.locked.prove_quiet();
            return None;
        };
        let outcome = serve_for(&mut self.locked, tables, cpu, group, act);
        self.locked.prove_quiet();
        Some(outcome)
    }

    /// Allocates a block for the group of this number, and pins it. If the get fails, which only another CPU's get can
    /// cause, the block is released again.
    pub fn alloc_pinned(
        &mut self,
        tables: &Tables<N>,
        cpu: &mut Cpu<N>,
        group: u32,
        order: u32,
    ) -> CallAnswer
        requires { MayPinBlock order cpu.old }
        ensures { AllocatesPinned N.table group order result self.old self.new cpu.old cpu.new }
    {
        self.locked.prove_quiet();
        let Some(group) = find_group(self.locked.charges(), group) else {
            self.locked.meet(tables, cpu);
            self.locked.prove_quiet();
            return CallAnswer::NoGroup;
        };
        let alloc = LockedCommand::Alloc { group, order };
        let outcome = serve_outcome(&mut self.locked, tables, cpu, &alloc);
        self.locked.prove_quiet();
        let Outcome::Frame(frame) = outcome else {
            return CallAnswer::Served(outcome);
        };
        if pin(tables, cpu, frame) {
            return CallAnswer::Served(outcome);
        }
        let release = LockedCommand::Release { frame };
        let _released = serve_outcome(&mut self.locked, tables, cpu, &release);
        self.locked.prove_quiet();
        CallAnswer::Refused(Fault::NotPinned)
    }

    /// Reads a number of pages of the group of this number. The CPU isn't settled.
    pub fn read_pages(
        &mut self,
        tables: &Tables<N>,
        cpu: &mut Cpu<N>,
        group: u32,
        which: GroupPages,
    ) -> CallAnswer
        ensures { ReadsPages N.table group which result self.old self.new cpu.old cpu.new }
    {
        self.locked.prove_quiet();
        let answer = pages_read(self.locked.charges(), group, which);
        self.locked.meet(tables, cpu);
        self.locked.prove_quiet();
        answer
    }

    /// Settles a CPU.
    #[inline(always)]
    pub fn settle(&mut self, tables: &Tables<N>, cpu: &mut Cpu<N>)
        ensures { ServesBehind N.table (SettlesCaller N.table) self.old self.new cpu.old cpu.new }
    {
        self.locked.prove_quiet();
        serve_settle(&mut self.locked, tables, cpu);
        self.locked.prove_quiet();
    }

    /// Reads a file of a group, with its text.
    pub fn read(&mut self, tables: &Tables<N>, cpu: &mut Cpu<N>, asked: &ReadCall<'_>) -> ReadAnswer
        ensures { ReadsBehind N.table asked.now result self.old self.new cpu.old cpu.new }
    {
        let ReadCall { path, file } = *asked;
        self.locked.prove_quiet();
        let outcome = serve_text(
            &mut self.locked,
            tables,
            cpu,
            &TextCommand::Read { path, file },
        );
        self.locked.prove_quiet();
        if let Outcome::Refused(fault) = outcome {
            return ReadAnswer::Refused(fault);
        }
        if let Outcome::Stat(stat) = outcome {
            return ReadAnswer::Text(stat_text(stat));
        }
        let Outcome::Text(group, file) = outcome else {
            unreachable!()
        };
        ReadAnswer::Text(shown_text(self.locked.charges(), group, file))
    }
}

// Does this for the group.
#[inline(always)]
fn serve_for<N: BootName>(
    locked: &mut Locked<N>,
    tables: &Tables<N>,
    cpu: &mut Cpu<N>,
    group: GroupId,
    act: GroupAct,
) -> Outcome
    requires { IsTrue (has_group locked.old.machine.ledger.groups group) }
    ensures served { ServesAct N.table group act result (locked_state locked.old cpu.old)
        (locked_state locked.new cpu.new) }
{
    match act {
        GroupAct::Alloc(order) => {
            serve_outcome(locked, tables, cpu, &LockedCommand::Alloc { group, order })
        }
        GroupAct::AllocDirty(order) => serve_dirty_alloc(locked, tables, cpu, group, order),
        GroupAct::Write(setting) => {
            serve_outcome(
                locked,
                tables,
                cpu,
                &LockedCommand::Write { group, setting },
            )
        }
        GroupAct::Reclaim(Some(pages)) => {
            let setting = Setting::Reclaim(u64::from(pages));
            serve_outcome(
                locked,
                tables,
                cpu,
                &LockedCommand::Write { group, setting },
            )
        }
        GroupAct::Reclaim(None) => {
            serve_settle(locked, tables, cpu);
            if group == GroupId::root() {
                return Outcome::Refused(Fault::NoFile);
            }
            Outcome::Refused(Fault::BadLimit)
        }
    }
}

// Pins the unit that begins at the frame of this number. Returns whether it did.
fn pin<N: BootName>(tables: &Tables<N>, cpu: &mut Cpu<N>, number: u32) -> bool
    requires room { HasPinRoom cpu.old }
    requires frame { number < N.table.frames }
    ensures { MatchBool result (Pins N.table number Held cpu.old cpu.new)
        (MissesPin N.table number cpu.old cpu.new) }
{
    let Some(frame) = tables.words.frame(number) else {
        unreachable!()
    };
    let Ok(got) = cpu.get(tables, frame) else {
        unreachable!()
    };
    matches!(got, Get::Held)
}

// Reads a number of pages of the group of this number.
fn pages_read(charges: &Charges, number: u32, which: GroupPages) -> CallAnswer
    ensures { SaysPages charges.now number which result }
{
    let Some(group) = find_group(charges, number) else {
        return CallAnswer::NoGroup;
    };
    let pages = match which {
        GroupPages::Usage => Some(charges.current(group)),
        GroupPages::Peak => Some(charges.peak(group)),
        GroupPages::Max => charges.max(group),
        GroupPages::High => charges.settings(group).high,
    };
    match pages {
        Some(pages) => CallAnswer::Pages(pages),
        None => CallAnswer::NoLimit,
    }
}
