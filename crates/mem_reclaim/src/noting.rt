//! The notes of a kill.

ghost use Rattle.std.specs.Prelude.{◌≡◌, IsTrue};
ghost use Rattle.group_tree.specs.Groups.{has_group};
ghost use Rattle.mem_machine.specs.Machines.{with_note};
ghost use Rattle.mem_reclaim.specs.Killing.{counts_before_kill, killed_note};
ghost use Rattle.mem_reclaim.specs.KillNotes.{NotesVictim};
ghost use Rattle.mem_reclaim.specs.Sets.{group_kill_note};

use crate::victims::{count_alive, count_candidates, next_after};
use cpu_part::BootName;
use group_charge::note::{Candidate, Note};
use group_tree::group::GroupId;
use lru_lists::record::LruList;
use mem_machine::Machine;

/// What a group has before it is killed.
#[derive(Clone, Copy, Debug)]
pub(crate) struct CountsBeforeKill {
    /// The machine's last puts so far.
    pub last_puts: u64,
    /// The frames charged to the group itself.
    pub frames: u64,
    /// Its kept units.
    pub units: u64,
}

/// What the group has now.
pub(crate) fn count_before_kill<N: BootName>(
    machine: &Machine<N>,
    group: GroupId,
) -> CountsBeforeKill
    ensures { result ≡ counts_before_kill machine.now group }
{
    CountsBeforeKill {
        last_puts: machine.counts().last_puts,
        frames: machine.frames_of(group),
        units: u64::from(machine.list_len(group, LruList::Inactive))
            + u64::from(machine.list_len(group, LruList::Active)),
    }
}

/// Notes who is the victim for the group, among how many candidates, and who is next.
pub(crate) fn note_victim<N: BootName>(machine: &mut Machine<N>, group: GroupId, victim: GroupId)
    requires { IsTrue (has_group machine.old.ledger.groups group) }
    ensures { NotesVictim group victim machine.old machine.new }
{
    let next = next_after(machine, group, victim);
    let note = Note::Victim {
        victim: Candidate {
            group: victim,
            frames: machine.frames_of(victim),
        },
        candidates: count_candidates(machine, group),
        next: Candidate {
            group: next,
            frames: machine.frames_of(next),
        },
    };
    machine.note(note);
}

/// Notes that a group is killed as a whole, and how many groups die.
pub(crate) fn note_subtree<N: BootName>(machine: &mut Machine<N>, killed_root: GroupId)
    requires { IsTrue (has_group machine.old.ledger.groups killed_root) }
    ensures { machine.new ≡ with_note machine.old (group_kill_note machine.old killed_root) }
{
    let note = Note::GroupKill {
        group: killed_root,
        groups: count_alive(machine, killed_root),
    };
    machine.note(note);
}

/// Notes what became of the units of a group that was killed for the group `limited`.
pub(crate) fn note_killed<N: BootName>(
    machine: &mut Machine<N>,
    limited: GroupId,
    killed: GroupId,
    had: CountsBeforeKill,
)
    requires { IsTrue (has_group machine.old.ledger.groups limited) }
    ensures { machine.new ≡ with_note machine.old (killed_note limited killed had machine.old) }
{
    let returned = machine.counts().last_puts.saturating_sub(had.last_puts);
    let left = machine.frames_of(killed);
    let note = Note::Kill {
        group: killed,
        returned,
        pages: had.frames.saturating_sub(left),
        pinned: had.units.saturating_sub(returned),
        left,
        usage: machine.current(limited),
    };
    machine.note(note);
}
