//! The calls that boot and end a zone, and take and return its CPUs.

ghost use Rattle.std.specs.Prelude.{◌≡◌, ◌≢◌, ◌↔◌, IsSome, None};
ghost use Rattle.host_memory.specs.{AreSizes, config_of, bad_config, bad_cpu, bad_version, done, header_version, is_live, not_live};
ghost use Rattle.tempolemon_threads.specs.Behind.{part_behind, zone_behind};
ghost use Rattle.tempolemon_threads.specs.Statuses.{IsZoneBootStatus, IsZoneEndStatus, IsReturnStatus, IsTakeStatus};
ghost use Rattle.tempolemon_threads.specs.Statuses.{busy, cpu_out, cpus_out};
ghost use Rattle.tempolemon_threads.specs.Handles.{BootsZone, EndsWith, HasNoSuchCpu, HasSuchCpu, ReturnsPart, TakesPart};

use crate::handles::{CpuPart, Zone};
use crate::requests::{Forked, RequestAnswer};
use crate::status::{BUSY, CPU_OUT, CPUS_OUT, LOST};
use host_memory::report::{Report, report_of};
use host_memory::sizes::Sizes;
use host_memory::status::{BAD_CONFIG, BAD_CPU, BAD_VERSION, DONE, IS_LIVE, NO_MEMORY, NOT_LIVE};
use host_memory::version::HEADER_VERSION;
use mem_system::{BootFault, boot};
use std::alloc::Global;
use zone_threads::home::NotEntered;

/// Boots a zone of these sizes behind a handle that has none, with all its CPUs parked, for a host that was compiled with
/// the headers of this version. Unless the status is 0, nothing of the zone stays.
#[unsafe(no_mangle)]
pub extern "C" fn tempolemon_zone_boot_as(
    alloc: Global,
    version: u32,
    sizes: &Sizes,
    zone: &mut Zone,
) -> u8
    ensures statuses { IsZoneBootStatus result }
    ensures bad_version { (result ≡ bad_version) ↔ (version ≢ header_version) }
    ensures refused_live { (result ≡ is_live) ↔ ((version ≡ header_version) × (zone_behind zone.old ≢ None)) }
    ensures bad_sizes { (result ≡ bad_config)
        ↔ ((version ≡ header_version) × (zone_behind zone.old ≡ None) × (¬ AreSizes sizes.now)) }
    ensures booted { result ≡ done → BootsZone (config_of sizes.now) (zone_behind zone.new) }
    ensures stays { result ≢ done → zone_behind zone.new ≡ zone_behind zone.old }
{
    // (nothing before this: the sizes and the handle of another version may have another form)
    if version != HEADER_VERSION {
        return BAD_VERSION;
    }
    if zone.is_live() {
        return IS_LIVE;
    }
    let Some(config) = sizes.config(version) else {
        return BAD_CONFIG;
    };
    match boot(alloc, config) {
        Ok(boot) => {
            if zone.start(alloc, boot) {
                DONE
            } else {
                NO_MEMORY
            }
        }
        Err(BootFault::BadConfig) => BAD_CONFIG,
        Err(BootFault::NoMemory) => NO_MEMORY,
    }
}

/// Ends the zone and reports what it counted, if all its CPUs are returned. Pins that are still held are put first.
#[unsafe(no_mangle)]
pub extern "C" fn tempolemon_zone_end(alloc: Global, zone: &mut Zone, report: &mut Report) -> u8
    ensures statuses { IsZoneEndStatus result }
    ensures none_live { (result ≡ not_live) ↔ (zone_behind zone.old ≡ None) }
    ensures ended { result ≡ done → EndsWith report.new (zone_behind zone.old) (zone_behind zone.new) }
    ensures cpus_out { result ≡ cpus_out → zone_behind zone.new ≡ zone_behind zone.old }
    ensures none_left { result ≢ cpus_out → zone_behind zone.new ≡ None }
    ensures report_stays { result ≢ done → report.new ≡ report.old }
{
    if !zone.is_live() {
        return NOT_LIVE;
    }
    let ended = match zone.end(alloc) {
        RequestAnswer::Ended(ended) => ended,
        RequestAnswer::Out => return CPUS_OUT,
        RequestAnswer::NoMemory => return NO_MEMORY,
        _ => return LOST,
    };
    *report = report_of(ended);
    DONE
}

/// Takes the CPU of this number, from 1, for a handle that has none. It tries the lock.
#[unsafe(no_mangle)]
pub extern "C" fn tempolemon_try_take(
    alloc: Global,
    zone: &mut Zone,
    cpu: u32,
    part: &mut CpuPart,
) -> u8
    ensures statuses { IsTakeStatus result }
    ensures none_live { (result ≡ not_live) ↔ (zone_behind zone.old ≡ None) }
    ensures has_cpu { (result ≡ is_live) ↔ (IsSome (zone_behind zone.old) × IsSome (part_behind part.old)) }
    ensures no_cpu { result ≡ bad_cpu → HasNoSuchCpu cpu (zone_behind zone.old) }
    ensures out { result ≡ cpu_out → HasSuchCpu cpu (zone_behind zone.old) }
    ensures busy { result ≡ busy → HasSuchCpu cpu (zone_behind zone.old) }
    ensures taken { result ≡ done → TakesPart cpu (zone_behind zone.old) (part_behind part.new) }
    ensures part_stays { result ≢ done → part_behind part.new ≡ part_behind part.old }
    ensures zone_stays { zone_behind zone.new ≡ zone_behind zone.old }
{
    if !zone.is_live() {
        return NOT_LIVE;
    }
    if part.is_live() {
        return IS_LIVE;
    }
    let (raw, forked) = zone.fork(alloc);
    if forked == Forked::NoMemory {
        raw.forget();
        return NO_MEMORY;
    }
    match part.enter(alloc, raw, cpu) {
        Ok(()) => DONE,
        Err(NotEntered::NoCpu) => BAD_CPU,
        Err(NotEntered::Out) => CPU_OUT,
        Err(NotEntered::HasCpu) => unreachable!(),
        Err(NotEntered::Busy) => BUSY,
    }
}

/// Returns the CPU to its zone as it is, with its list, stock and pins: who takes it next goes on with them. It tries the
/// lock.
#[unsafe(no_mangle)]
pub extern "C" fn tempolemon_try_return(alloc: Global, part: &mut CpuPart) -> u8
    ensures statuses { IsReturnStatus result }
    ensures none_live { (result ≡ not_live) ↔ (part_behind part.old ≡ None) }
    ensures returned { result ≡ done → ReturnsPart (part_behind part.old) (part_behind part.new) }
    ensures stays { result ≢ done → part_behind part.new ≡ part_behind part.old }
{
    if !part.is_live() {
        return NOT_LIVE;
    }
    if part.leave(alloc) { DONE } else { BUSY }
}
