//! The parts of a boot between calls.

ghost use Rattle.std.specs.Prelude.{◌≡◌, [], IfErr, IfOk, IsTrue, length};
ghost use Rattle.group_tree.specs.Groups.{has_group};
ghost use Rattle.mem_system.specs.declared.outcome.Outcome.TheVariants.{Text};
ghost use Rattle.mem_system.specs.{IsSizedAs, HasItsGroups, shown_text};
ghost use Rattle.script_replay.specs.{system_state, CpuCommandInRange, terms, HasValueAnswer};
ghost use Rattle.load_run.specs.{IsNewBootState, EndsHeld};
ghost use Rattle.tempolemon_c.specs.HandleCalls.{CallsLive, IsCpu, IsTypedCall, ReturnsCommandAnswer};
ghost use Rattle.tempolemon_c.specs.HandleCalls.{IsPinCheck};
ghost use Rattle.tempolemon_c.specs.declared.calls.Call.TheVariants.{Alloc, Script};
ghost use Rattle.tempolemon_c.specs.Commands.{AnswersScript, FailsScript, FailsText, ReplaysText, TakesUnreadAnswer};
ghost use Rattle.tempolemon_c.specs.Commands.{with_unread_answer};

use crate::calls::{Call, CallAnswer, PinCheck, frame_named};
use control_files::file::File;
use control_files::text::ArrayText;
use cpu_part::{BootName, MAX_PINS, Tables};
use group_tree::group::GroupId;
use host_memory::groups::find_group;
use load_run::boot_end::{BootEnd, end_boot};
use mem_system::{Boot, Cpu, Locked, shown_text};
use script_lines::fault::ScriptFault;
use script_lines::line::Command;
use script_lines::script::parse_script;
use script_replay::{Form, alloc_value, replay, serve_value};
use std::alloc::{AllocError, Global};
use std::marker::Model;
use zone_blocks::config::Config;
use zone_blocks::order::Order;

/// A boot between calls: what lies behind the lock, the tables, a part for each CPU in order, the sizes, and an answer
/// that a buffer had no room for. If it is dropped, the boot ends.
pub struct Live<N: BootName> {
    locked: Locked<N>,
    tables: Tables<N>,
    cpus: Vec<Cpu<N>>,
    sizes: Config,
    unread_answer: Vec<u8>,
}

impl<N: BootName> Model for Live<N> {
    ghost use Rattle.std.specs.Prelude.{◌≡◌, length};
    ghost use Rattle.mem_system.specs.Boots.{IsSizedAs};
    ghost use Rattle.script_replay.specs.Lines.{system_state};
    ghost use Rattle.tempolemon_c.specs.Known.{KnownLive};

    ghost Value = { KnownLive };

    ghost view = { λ l. record {
      sizes = l.sizes;
      state = system_state l.locked l.cpus.items;
      unread_answer = l.unread_answer.items;
    } };

    ghost invariant = { λ l. (length l.cpus.items ≡ N.table.cpus) × IsSizedAs l.sizes N.table };
}

impl<N: BootName> Live<N> {
    /// Starts a boot of these sizes under a name of its table. `AllocError` means that memory ran out: nothing is left
    /// then.
    pub fn start(alloc: Global, boot: Boot, sizes: Config) -> Result<Live<N>, AllocError>
        requires frames { boot.table ≡ N.table }
        requires sizes { boot.sizes ≡ sizes }
        ensures first { IfOk result (λ live. IsNewBootState sizes N.table live.state) }
        ensures sizes { IfOk result (λ live. live.sizes ≡ sizes) }
        ensures unread_answer { IfOk result (λ live. live.unread_answer ≡ []) }
    {
        let (locked, tables, cpus) = boot.into_parts::<N>(alloc)?;
        Ok(Live {
            locked,
            tables,
            cpus,
            sizes,
            unread_answer: Vec::new(alloc),
        })
    }

    /// Serves the lines of a script, in order, and returns what `replay` answers to them. A fault of the script is
    /// found before the first line is served.
    pub fn answer_lines(
        &mut self,
        alloc: Global,
        text: &[u8],
        is_explained: bool,
    ) -> Result<Vec<u8>, ScriptFault>
        ensures answered { IfOk result (λ answers.
            AnswersScript N.table text.now is_explained answers.items self.old self.new) }
        ensures fault { IfErr result (FailsScript N.table text.now is_explained self.old self.new) }
    {
        serve_lines(
            alloc,
            &mut self.locked,
            &self.tables,
            &mut self.cpus,
            &self.sizes,
            text,
            is_explained,
        )
    }

    /// Serves a call of the CPU of this number, and returns its answer. If the call names what isn't there,
    /// nothing is done. No memory is taken.
    #[inline(always)]
    pub fn call(&mut self, cpu: u32, call: &Call<'_>) -> CallAnswer
        requires { IsTypedCall call.now }
        ensures { CallsLive N.table cpu call.now self.old self.new result }
    {
        if cpu == 0 || cpu as usize > self.cpus.len() {
            return CallAnswer::NoCpu;
        }
        match call {
            Call::Script(command) => self.serve_command(cpu, command),
            Call::Alloc { group, order } => self.allocate(cpu, *group, *order),
        }
    }

    // Serves a command of a CPU that is there, if the frame that it names is one of the zone.
    #[inline(always)]
    #[tactic(auto, using(crate::proofs::Naming::has_value))]
    fn serve_command(&mut self, cpu: u32, command: &Command<'_>) -> CallAnswer
        requires there { IsCpu (length self.old.state.cpus) cpu }
        requires asked { IsTypedCall (Script command.now) }
        ensures { CallsLive N.table cpu (Script command.now) self.old self.new result }
    {
        match frame_named(command) {
            Some(frame) => {
                if frame >= self.sizes.frames {
                    return CallAnswer::NoFrame;
                }
                self.serve_inlined(cpu, command)
            }
            None => self.serve(cpu, command),
        }
    }

    // Serves a command of a CPU that is there, as is all that the command names. It isn't inlined, so that `call` stays
    // small enough to be.
    #[inline(never)]
    fn serve(&mut self, cpu: u32, command: &Command<'_>) -> CallAnswer
        requires there { CpuCommandInRange N.table.frames (length self.old.state.cpus) cpu command.now }
        requires has_value { HasValueAnswer command.now }
        ensures { ReturnsCommandAnswer N.table cpu command.now self.old self.new result }
    {
        self.serve_inlined(cpu, command)
    }

    // Does the same for a command that names a frame. It is inlined, since a get and a put have few steps.
    #[inline(always)]
    fn serve_inlined(&mut self, cpu: u32, command: &Command<'_>) -> CallAnswer
        requires there { CpuCommandInRange N.table.frames (length self.old.state.cpus) cpu command.now }
        requires has_value { HasValueAnswer command.now }
        ensures { ReturnsCommandAnswer N.table cpu command.now self.old self.new result }
    {
        CallAnswer::Served(serve_value(
            &mut self.locked,
            &self.tables,
            &mut self.cpus,
            cpu,
            command,
        ))
    }

    // Takes a block for the group of this number, at a CPU that is there.
    fn allocate(&mut self, cpu: u32, group: u32, order: u32) -> CallAnswer
        requires there { IsCpu (length self.old.state.cpus) cpu }
        ensures { CallsLive N.table cpu (Alloc group order) self.old self.new result }
    {
        let Some(group) = find_group(self.locked.charges(), group) else {
            return CallAnswer::NoGroup;
        };
        self.take_block(cpu, group, order)
    }

    // Takes a block for an existing group, at a CPU that is there. The group's path is neither copied nor looked up.
    #[inline(always)]
    fn take_block(&mut self, cpu: u32, group: GroupId, order: u32) -> CallAnswer
        requires there { IsCpu (length self.old.state.cpus) cpu }
        requires group { IsTrue (has_group self.old.state.locked.machine.ledger.groups group) }
        ensures { CallsLive N.table cpu (Alloc group order) self.old self.new result }
    {
        let _path = self.locked.charges().tree().path_of(group).as_bytes(); // Called for its contract.
        CallAnswer::Served(alloc_value(
            &mut self.locked,
            &self.tables,
            &mut self.cpus,
            cpu,
            group,
            order,
        ))
    }

    /// Whether the CPU of this number may have one more pin, of a block of this order. The CPU is looked for first, and
    /// then its pins are counted.
    pub fn check_pin(&self, cpu: u32, order: u32) -> PinCheck
        ensures { IsPinCheck cpu order self.now result }
    {
        if cpu < 1 || self.cpus.len() < cpu as usize {
            return PinCheck::NoCpu;
        }
        let part = &self.cpus[(cpu - 1) as usize];
        if part.back_len() + part.pin_count() == MAX_PINS {
            return PinCheck::PinsFull;
        }
        if order == 0 || order > Order::GREATEST {
            return PinCheck::BadOrder;
        }
        PinCheck::May
    }

    /// The text of a file of a group. The group exists, and isn't the root, which has no files.
    pub fn show(&self, group: GroupId, file: File) -> ArrayText
        requires there { HasItsGroups self.now.state.locked.machine.ledger (Text group file) }
        ensures { result ≡ shown_text self.now.state.locked.machine.ledger group file }
    {
        shown_text(self.locked.charges(), group, file)
    }

    /// Stores this text as the unread answer, in place of the one before.
    pub fn store_unread(&mut self, text: Vec<u8>)
        ensures { self.new ≡ with_unread_answer self.old text.items }
    {
        self.unread_answer = text;
    }

    /// Returns the unread answer, and leaves none.
    pub fn take_unread(&mut self, alloc: Global) -> Vec<u8>
        ensures { TakesUnreadAnswer self.old self.new result.items }
    {
        std::mem::replace(&mut self.unread_answer, Vec::new(alloc))
    }

    /// Ends the boot. Pins that are still held are put first.
    pub fn finish(self) -> BootEnd
        ensures ends { EndsHeld N.table self.state result }
    {
        let Live {
            locked,
            tables,
            cpus,
            sizes: _,
            unread_answer: _,
        } = self;
        end_boot(locked, tables, cpus)
    }
}

impl<N: BootName> Drop for Live<N> {
    fn drop(self) {
        let _ended = self.finish();
    }
}

// Serves the lines of a script on the parts of a boot of these sizes.
fn serve_lines<N: BootName>(
    alloc: Global,
    locked: &mut Locked<N>,
    tables: &Tables<N>,
    cpus: &mut [Cpu<N>],
    sizes: &Config,
    text: &[u8],
    is_explained: bool,
) -> Result<Vec<u8>, ScriptFault>
    requires sized { IsSizedAs sizes.now N.table }
    requires count { length cpus.old ≡ N.table.cpus }
    ensures answered { IfOk result (λ answers. ReplaysText (terms N.table is_explained) sizes.now text.now
        (system_state locked.old cpus.old) (system_state locked.new cpus.new) answers.items) }
    ensures fault { IfErr result (FailsText (terms N.table is_explained) sizes.now text.now
        (system_state locked.old cpus.old) (system_state locked.new cpus.new)) }
{
    let form = Form {
        is_explained,
        is_numbered: false,
    };
    match parse_script(alloc, text, sizes) {
        Ok(lines) => match replay(alloc, locked, tables, cpus, &lines, form) {
            Ok(answers) => Ok(answers),
            Err(_) => Err(ScriptFault::NoMemory),
        },
        Err(ScriptFault::BadLine(number)) => Err(ScriptFault::BadLine(number)),
        Err(ScriptFault::NoMemory) => Err(ScriptFault::NoMemory),
    }
}
