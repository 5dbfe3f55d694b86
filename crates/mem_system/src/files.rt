//! Reading and writing the files of groups.

ghost use Rattle.std.specs.Prelude.{◌≡◌, ◌≢◌, IsTrue};
ghost use Rattle.group_tree.specs.Groups.{has_group};
ghost use Rattle.mem_system.specs.Outcomes.{HasItsGroups};
ghost use Rattle.boot_words.specs.Pasts.{IsHeld};
ghost use Rattle.mem_machine.specs.{Makes, StaysVisited, BySteps};
ghost use Rattle.mem_system.specs.Files.{SetsHigh, SetsLimit, Writes, read_outcome};
ghost use Rattle.mem_system.specs.declared.setting.Setting.TheVariants.{Reclaim};

use crate::outcome::Outcome;
use crate::setting::Setting;
use crate::usage::{keep_to_limit, lower_to_high};
use control_files::file::File;
use control_files::limit::Limit;
use cpu_part::{BootName, Tables};
use group_charge::settings::ReclaimSettings;
use group_tree::fault::Fault;
use group_tree::group::GroupId;
use machine_texts::memory_stat;
use mem_machine::Machine;
use mem_reclaim::reclaim_amount;

// Reads a control file.
pub(crate) fn read_file<N: BootName>(machine: &Machine<N>, group: GroupId, file: File) -> Outcome
    requires there { IsTrue (has_group machine.now.ledger.groups group) }
    requires below_root { group ≢ 0 }
    ensures read { result ≡ read_outcome machine.now group file }
    ensures groups { HasItsGroups machine.now.ledger result }
{
    match file {
        File::Stat => Outcome::Stat(memory_stat(machine, group)),
        File::Reclaim => Outcome::Refused(Fault::WriteOnly),
        _ => Outcome::Text(group, file),
    }
}

// Gives the group the limit. If its usage is above, lowers it to the limit as far as possible.
fn set_limit<N: BootName>(
    machine: &mut Machine<N>,
    tables: &Tables<N>,
    group: GroupId,
    limit: Limit,
)
    requires there { IsTrue (has_group machine.old.ledger.groups group) }
    requires below_root { group ≢ 0 }
    requires held { IsHeld N.table machine.old.run.past }
    ensures sets { BySteps Makes N.table (SetsLimit group limit) machine.old machine.new }
    ensures visit { StaysVisited N.table machine.old machine.new }
{
    machine.set_max(tables, group, limit);
    if let Some(limit) = limit {
        keep_to_limit(machine, tables, group, limit);
    }
}

// Gives the group the memory.high, and lowers its usage to it.
fn set_high<N: BootName>(machine: &mut Machine<N>, tables: &Tables<N>, group: GroupId, high: Limit)
    requires there { IsTrue (has_group machine.old.ledger.groups group) }
    requires held { IsHeld N.table machine.old.run.past }
    ensures sets { BySteps Makes N.table (SetsHigh group high) machine.old machine.new }
    ensures visit { StaysVisited N.table machine.old machine.new }
{
    let settings = machine.charges().settings(group);
    machine.set_settings(group, ReclaimSettings { high, ..settings });
    lower_to_high(machine, tables, group, high);
}

// Reclaims this many pages from the group's subtree. The write is refused if fewer were freed; these stay freed.
fn reclaim_asked<N: BootName>(
    machine: &mut Machine<N>,
    tables: &Tables<N>,
    group: GroupId,
    asked: u64,
) -> Outcome
    requires there { IsTrue (has_group machine.old.ledger.groups group) }
    requires below_root { group ≢ 0 }
    requires held { IsHeld N.table machine.old.run.past }
    ensures written { BySteps Makes N.table (Writes group (Reclaim asked) result) machine.old machine.new }
    ensures groups { HasItsGroups machine.new.ledger result }
    ensures visit { StaysVisited N.table machine.old machine.new }
{
    if reclaim_amount(machine, tables, group, asked) < asked {
        Outcome::Refused(Fault::Again)
    } else {
        Outcome::Done
    }
}

// Makes the setting of the group. The root has none.
pub(crate) fn write_setting<N: BootName>(
    machine: &mut Machine<N>,
    tables: &Tables<N>,
    group: GroupId,
    setting: Setting,
) -> Outcome
    requires there { IsTrue (has_group machine.old.ledger.groups group) }
    requires held { IsHeld N.table machine.old.run.past }
    ensures written { BySteps Makes N.table (Writes group setting result) machine.old machine.new }
    ensures groups { HasItsGroups machine.new.ledger result }
    ensures visit { StaysVisited N.table machine.old machine.new }
{
    if group == GroupId::root() {
        return Outcome::Refused(Fault::NoFile);
    }
    let settings = machine.charges().settings(group);
    match setting {
        Setting::Max(limit) => {
            set_limit(machine, tables, group, limit);
            Outcome::Done
        }
        Setting::High(high) => {
            set_high(machine, tables, group, high);
            Outcome::Done
        }
        Setting::Low(low) => {
            machine.set_settings(group, ReclaimSettings { low, ..settings });
            Outcome::Done
        }
        Setting::Min(min) => {
            machine.set_settings(group, ReclaimSettings { min, ..settings });
            Outcome::Done
        }
        Setting::OomGroup(flag) => {
            machine.set_oom_group(tables, group, flag);
            Outcome::Done
        }
        Setting::Reclaim(asked) => reclaim_asked(machine, tables, group, asked),
    }
}
