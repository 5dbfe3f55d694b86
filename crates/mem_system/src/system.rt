//! The system: the zone's lock, what lies behind it, and the table that all CPUs share.

ghost use Rattle.std.specs.Prelude.{◌≡◌};
ghost use Rattle.std.specs.Sync.Mutex.{mutex_guard_value};
ghost use Rattle.group_tree.specs.Groups.{number_at};
ghost use Rattle.group_charge.specs.Charges.{AreCharges};
ghost use Rattle.mem_machine.specs.Machines.{IsConsistent};
ghost use Rattle.mem_system.specs.Locked.{IsQuiet, SeenBehindLock};
ghost use Rattle.mem_system.specs.TextCommands.{IsOfZone, ServesText};
ghost use Rattle.mem_system.specs.Visits.{IsVisited};

use crate::cpus::Cpu;
use crate::lock::Locked;
use crate::outcome::Outcome;
use crate::text_command::TextCommand;
use crate::visits::serve_text;
use cpu_part::{BootName, Tables};
use group_tree::group::GroupId;
use std::hint::spin_loop;
use std::marker::Model;
use std::sync::{Mutex, MutexGuard, Wait};
use std::thread::yield_now;
use zone_blocks::config::Config;

// How often a thread tries the lock before it may sleep.
const TRIES: u32 = 100;

/// A boot that has started: the machine behind the zone's lock, its table, and its sizes. CPUs share it by `&`.
#[derive(Drop)]
pub struct System<N: BootName> {
    pub(crate) locked: Mutex<Locked<N>>,
    pub(crate) tables: Tables<N>,
    // No clause can look through the lock: those of visits speak of these.
    sizes: Config,
}

impl<N: BootName> Model for System<N> {
    ghost use Rattle.mem_system.specs.Boots.{IsSizedAs, KnownSystem};
    ghost use Rattle.zone_blocks.specs.Config.{IsValidConfig};

    ghost Value = { KnownSystem };

    ghost view = { λ s. record { table = s.tables.words; sizes = s.sizes } };

    ghost invariant = { λ s. IsValidConfig s.sizes × IsSizedAs s.sizes N.table };
}

// Waits after a try of this number, from 0: pauses 1 to 1,024 times, twice as often after each try, and gives up the
// processor from the twelfth try on.
fn pause(tries: u32) {
    if tries >= 11 {
        yield_now();
        return;
    }
    for _ in 0..1u32 << tries {
        spin_loop();
    }
}

impl<N: BootName> System<N> {
    /// The system with this behind its lock and with this table; from now on CPUs share it. Clauses speak only of its
    /// table and sizes, because none can look through the lock.
    pub fn of(locked: Locked<N>, tables: Tables<N>) -> System<N>
        ensures table { result.table ≡ tables.words }
        ensures sizes { result.sizes ≡ locked.sizes }
    {
        let sizes = locked.sizes();
        let locked = Mutex::new(locked);
        System {
            locked,
            tables,
            sizes,
        }
    }

    /// Takes the system apart after all sharing ended: returns what lies behind the lock, as the last visit left it,
    /// and its table. Clauses say only what always holds behind the lock.
    pub fn into_parts(self) -> (Locked<N>, Tables<N>)
        ensures quiet { IsQuiet N.table result.0 }
        ensures consistent { IsConsistent N.table result.0.machine }
        ensures charges { AreCharges result.0.machine.ledger }
        ensures sizes { result.0.sizes ≡ self.sizes }
        ensures table { result.1.words ≡ self.table }
    {
        let System {
            locked,
            tables,
            sizes,
        } = self;
        let mut locked = locked.into_inner();
        locked.set_sizes(sizes);
        locked.prove_quiet();
        (locked, tables)
    }

    /// The table that N names, for the calls that take no lock.
    pub fn tables(&self) -> &Tables<N>
        ensures table { result.now.words ≡ N.table }
    {
        &self.tables
    }

    /// Takes the lock. Until the guard is dropped, the calls that take a `Locked` by reference, such as `serve_outcome`
    /// and `show_text`, are the caller's, and no other call of this system returns. No clause can name what lies behind
    /// the lock. But it has the sizes of the system, and `Locked::prove_quiet` shows what else always holds of it.
    #[inline(always)]
    pub fn lock<R: Wait>(&self, rt: &R) -> MutexGuard<'_, Locked<N>>
        ensures { (mutex_guard_value result).sizes ≡ self.now.sizes }
    {
        let mut guard = match self.locked.try_lock() {
            Some(guard) => guard,
            None => self.wait(rt),
        };
        guard.set_sizes(self.sizes);
        guard
    }

    // Waits for the lock. `Mutex::lock` lets a thread sleep at once if another one sleeps, and a visit takes less time than
    // that. So the lock is tried for a while first, after pauses that double: each try takes the lock's cache line from
    // its holder.
    fn wait<R: Wait>(&self, rt: &R) -> MutexGuard<'_, Locked<N>> {
        for tries in 0..TRIES {
            pause(tries);
            if let Some(guard) = self.locked.try_lock() {
                return guard;
            }
        }
        self.locked.lock(rt)
    }

    /// The group of this path; None if no group has it. It takes the lock and settles nothing. As with `visit`, the
    /// clause says that there was such a value behind the lock. The CPU makes no step, but sees the run that led to that.
    pub fn find<R: Wait>(&self, rt: &R, cpu: &mut Cpu<N>, path: &[u8]) -> Option<GroupId>
        ensures { SeenBehindLock N.table
            (λ found. result ≡ number_at found.machine.ledger.groups path.now) cpu.old cpu.new }
    {
        let mut guard = self.lock(rt);
        let locked = &mut *guard;
        locked.meet(&self.tables, cpu);
        locked.prove_quiet();
        locked.find(path)
    }

    /// Serves one command of the CPU: takes the lock, serves the command, and releases the lock. A frame that the
    /// command names is a frame of the zone. No clause can name what lies behind the lock. So the contract says that
    /// some sound value was there, with the system's sizes, that `serve_text` did its work on it, and that a sound
    /// value was left. Who needs the text of a file or the path of a group takes the lock itself (`lock`), calls
    /// `serve_text`, and gets the bytes from the charges before it releases the lock.
    #[inline(always)]
    pub fn visit<R: Wait>(&self, rt: &R, cpu: &mut Cpu<N>, command: &TextCommand<'_>) -> Outcome
        requires { IsOfZone N.table command.now }
        ensures { IsVisited N.table self.now.sizes (ServesText N.table command.now result) cpu.old cpu.new }
    {
        let mut guard = self.lock(rt);
        let locked = &mut *guard;
        locked.prove_quiet();
        let outcome = serve_text(locked, &self.tables, cpu, command);
        locked.prove_quiet();
        outcome
    }
}
