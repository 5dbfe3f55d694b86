//! Four CPUs run concurrently, each with random lines. Afterwards the zone's state must add up.

ghost use Rattle.std.specs.Prelude.{◌≡◌, ◌<◌, length};

use crate::gates::CountedLines;
use crate::systems::{add, expect_true, run_script};
use rand_core::{Rng, SeedableRng};
use rand_pcg::Pcg32;
use script_lines::line::{Command, Line};
use script_lines::script::parse_script;
use script_replay::before_go;
use std::process::Abort;
use std::slice::Iter;
use std::str;
use zone_blocks::choices::Choices;
use zone_blocks::config::Config;

// How many lines each CPU has in a storm. A run by hand may use 20,000.
const STORM_LINES: u32 = 500;

const FRAMES: u32 = 64;

const FOUR_PROCESSORS: Config = Config {
    frames: FRAMES,
    cpus: 4,
    batch: 4,
    high: 8,
    stock: 4,
    choices: Choices::NONE,
};

// The numbers of the frames as text. (An array, or formatting, would make the check dearer.)
const NUMBERS: &str = "\
0 1 2 3 4 5 6 7 8 9 10 11 12 13 14 15 16 17 18 19 20 21 22 23 24 25 26 27 28 29 30 31 \
32 33 34 35 36 37 38 39 40 41 42 43 44 45 46 47 48 49 50 51 52 53 54 55 56 57 58 59 60 61 62 63";

// The groups and their limits, parents first. Each limit is below the number of frames, and all together are above.
const STORM_GROUPS: [(&str, &str); 8] = [
    ("/a", "64K"),
    ("/a/b", "32K"),
    ("/a/c", "48K"),
    ("/d", "80K"),
    ("/d/e", "40K"),
    ("/d/e/f", "24K"),
    ("/g", "32K"),
    ("/h", "56K"),
];

// The commands of a storm. A line picks one of the 32 entries, so a command that appears often is frequent. A word in
// capitals is replaced by what the line picks.
const STORM_COMMANDS: [&str; 32] = [
    "alloc PATH 0",
    "alloc PATH 0",
    "alloc PATH 0",
    "alloc PATH 0",
    "alloc PATH 0",
    "alloc PATH ORDER",
    "alloc PATH ORDER",
    "fast GROUP",
    "fast GROUP",
    "fast GROUP",
    "fast GROUP",
    "get FRAME",
    "get FRAME",
    "get FRAME",
    "put FRAME",
    "put FRAME",
    "put FRAME",
    "put FRAME",
    "put FRAME",
    "release FRAME",
    "release FRAME",
    "release FRAME",
    "release FRAME",
    "settle",
    "touch FRAME",
    "touch FRAME",
    "dirty FRAME",
    "clean FRAME",
    "write PATH memory.max 8K",
    "write PATH memory.max LIMIT",
    "rmdir PATH",
    "mkdir PATH",
];

// Adds the lines that make the groups and set their limits.
fn make_storm_groups(rt: &impl Abort, script: &mut String) {
    for (path, limit) in STORM_GROUPS {
        add(rt, script, &["1 mkdir ", path, "\n1 write ", path]);
        add(rt, script, &[" memory.max ", limit, "\n"]);
    }
    add(rt, script, &["go\n"]);
}

fn text_of(number: u32) -> &'static str {
    NUMBERS.split(' ').nth(number as usize).unwrap_or("")
}

// What a line picks for this word of a command, or the word itself.
fn picked(word: &'static str, bits: u32) -> &'static str {
    let (path, limit) = STORM_GROUPS[(bits % 8) as usize];
    match word {
        "PATH" => path,
        "LIMIT" => limit,
        "GROUP" => text_of(bits % 10),
        "FRAME" => text_of((bits >> 8) % 64),
        "ORDER" => text_of((bits >> 16) % 3),
        _ => word,
    }
}

// Adds a line of the CPU with this command; the bits pick its words.
fn add_storm_line(
    rt: &impl Abort,
    script: &mut String,
    cpu: &str,
    command: &'static str,
    bits: u32,
) {
    add(rt, script, &[cpu]);
    for word in command.split(' ') {
        add(rt, script, &[" ", picked(word, bits)]);
    }
    add(rt, script, &["\n"]);
}

// The script of this seed.
fn storm_script(rt: &(impl Abort + AllocGlobal), seed: u64) -> String {
    let mut random = Pcg32::seed_from_u64(seed);
    let mut script = String::new(rt.alloc());
    make_storm_groups(rt, &mut script);
    for _ in 0..STORM_LINES {
        for cpu in ["1", "2", "3", "4"] {
            let kind = (random.next_u32() >> 8) % 32;
            let command = STORM_COMMANDS[kind as usize];
            add_storm_line(rt, &mut script, cpu, command, random.next_u32());
        }
    }
    script
}

// The lines after the storm. All CPUs settle, and the top groups get limit 0, so that their stocks are drained and
// their units reclaimed or killed. Then the lines ask for the blocks, each frame's owner and each usage.
fn ask_after_the_storm(rt: &(impl Abort + AllocGlobal)) -> String {
    let mut script = String::new(rt.alloc());
    add(
        rt,
        &mut script,
        &["1 settle\n2 settle\n3 settle\n4 settle\n"],
    );
    for path in ["/a", "/d", "/g", "/h"] {
        add(rt, &mut script, &["1 write ", path, " memory.max 0\n"]);
    }
    add(rt, &mut script, &["1 blocks\n"]);
    for frame in NUMBERS.split(' ') {
        add(rt, &mut script, &["1 owner ", frame, "\n"]);
    }
    for (path, _) in STORM_GROUPS {
        add(rt, &mut script, &["1 read ", path, " memory.current\n"]);
    }
    script
}

// The references that remain by the CPUs' answers: of each CPU, and on each frame.
#[derive(Drop)]
struct PinsLeft {
    of_cpus: [u64; 4],
    on_frames: [u64; 64],
}

// Adds to the count of pins at this index.
fn add_pins(pins: &mut [u64], place: u32, change: u64) {
    if let Some(count) = pins.get_mut(place as usize) {
        *count = count.wrapping_add(change);
    }
}

impl PinsLeft {
    // Counts the answer to a line of the CPU.
    fn note_answer(&mut self, cpu: u32, command: &Command<'_>, answer: &str) {
        let (frame, change) = match command {
            Command::Get { frame } if answer == "held" => (*frame, 1),
            Command::Put { frame } if answer != "refused 21 NotPinned" => (*frame, u64::MAX),
            _ => return,
        };
        add_pins(&mut self.of_cpus, cpu.wrapping_sub(1), change);
        add_pins(&mut self.on_frames, frame, change);
    }
}

// Computes the remaining references from the threads' answers.
fn read_pins_left(lines: &[Line<'_>], by_threads: &str) -> PinsLeft {
    let mut pins = PinsLeft {
        of_cpus: [0; 4],
        on_frames: [0; 64],
    };
    let mut cpu = 0u32;
    let mut own_lines = lines.iter();
    for answer in by_threads.split('\n') {
        if answer.starts_with("cpu ") {
            cpu = cpu.wrapping_add(1);
            own_lines = lines.iter();
        } else if let Some(command) = next_own_command(&mut own_lines, cpu) {
            pins.note_answer(cpu, command, answer);
        }
    }
    pins
}

fn next_own_command<'a>(lines: &mut Iter<'a, Line<'a>>, cpu: u32) -> Option<&'a Command<'a>> {
    for line in lines {
        match line {
            Line::At {
                cpu: line_cpu,
                command,
                ..
            } if *line_cpu == cpu => return Some(command),
            _ => (),
        }
    }
    None
}

// Whether the frames of this block exist and are free.
fn block_is_free(owners: &[&str], at: u32, size: u32) -> bool {
    let Some(block) = owners.get(at as usize..at.wrapping_add(size) as usize) else {
        return false;
    };
    for owner in block {
        if *owner != "free" {
            return false;
        }
    }
    true
}

// Whether the block of this order at this frame is free, and lies in no greater free block.
fn block_is_maximal(owners: &[&str], order: u32, at: u32) -> bool
    requires { order < 7 }
{
    let greater = order + 1;
    let above = (at >> greater) << greater;
    at % (1 << order) == 0
        && block_is_free(owners, at, 1 << order)
        && !block_is_free(owners, above, 1 << greater)
}

// Appends the free blocks that lie in no greater one, as `blocks` prints them, each after a space.
fn add_maximal_blocks(rt: &impl Abort, owners: &[&str], text: &mut String) {
    for order in 0..7u32 {
        for at in 0..64u32 {
            if block_is_maximal(owners, order, at) {
                add(rt, text, &[" ", text_of(order), ":", text_of(at)]);
            }
        }
    }
}

// The printed blocks are the maximal free blocks of the frames whose owners were printed.
fn blocks_agree_with_owners(rt: &(impl Abort + AllocGlobal), blocks: &str, owners: &[&str]) {
    let mut told = String::new(rt.alloc());
    if blocks != "none" {
        add(rt, &mut told, &[" ", blocks]);
    }
    let mut maximal = String::new(rt.alloc());
    add_maximal_blocks(rt, owners, &mut maximal);
    expect_true(rt, told.as_str() == maximal.as_str());
}

// Each frame on which references remain is kept.
fn pins_agree_with_owners(rt: &impl Abort, owners: &[&str], pins: &PinsLeft) {
    for (owner, left) in owners.iter().zip(pins.on_frames.iter()) {
        expect_true(rt, *left == 0 || owner.starts_with('/'));
    }
}

// Whether the owner is the group or one below it.
fn is_below(owner: &str, path: &str) -> bool {
    match owner.strip_prefix(path) {
        Some(rest) => rest.is_empty() || rest.starts_with('/'),
        None => false,
    }
}

// How many bytes the group and the groups below it keep: 4,096 for each frame.
fn bytes_kept_below(owners: &[&str], path: &str) -> u64 {
    let mut kept = 0u64;
    for owner in owners {
        if is_below(owner, path) {
            kept = kept.wrapping_add(4_096);
        }
    }
    kept
}

// The printed usage is what is kept, or the group no longer exists and keeps nothing.
fn usage_agrees_with_frames(rt: &impl Abort, kept: u64, current: &str) {
    let is_gone = current == "refused 6 NoGroup" && kept == 0;
    expect_true(rt, current.parse::<u64>() == Ok(kept) || is_gone);
}

// The answers after the storm agree with each other, and with the references that remain.
fn answers_add_up(rt: &(impl Abort + AllocGlobal), answers: &[&str], pins: &PinsLeft)
    requires { length answers.now ≡ 82 }
{
    let owners = &answers[9..73];
    blocks_agree_with_owners(rt, answers[8], owners);
    pins_agree_with_owners(rt, owners, pins);
    for ((path, _), current) in STORM_GROUPS.iter().zip(answers[73..81].iter()) {
        usage_agrees_with_frames(rt, bytes_kept_below(owners, path), current);
    }
}

// The references that remain by the threads' answers to the script.
fn pins_after(rt: &(impl Abort + AllocGlobal), script: &str, by_threads: &[u8]) -> PinsLeft {
    let lines = parse_script(rt.alloc(), script.as_bytes(), &FOUR_PROCESSORS);
    let lines = lines.expect(rt, "a script");
    let in_threads = lines.get(before_go(&lines)..).expect(rt, "a `go`");
    let by_threads = str::from_utf8(by_threads).expect(rt, "a text");
    read_pins_left(in_threads, by_threads)
}

// The answers after the storm agree.
fn the_storm_adds_up(rt: &(impl Abort + AllocGlobal), after_threads: &[u8], pins: &PinsLeft) {
    let told = str::from_utf8(after_threads).expect(rt, "a text");
    let answers: Vec<&str> = told.split('\n').collect(rt.alloc()).expect(rt, "memory");
    assert!(rt; answers.len() == 82);
    answers_add_up(rt, &answers, pins);
}

#[test]
fn what_threads_leave_adds_up(rt: HostRuntime) {
    let script = storm_script(&rt, 2_026);
    let asked = ask_after_the_storm(&rt);
    let gate = CountedLines::new();
    let told = run_script(&rt, FOUR_PROCESSORS, script.as_str(), asked.as_str(), &gate);
    let told = told.expect(&rt, "a run");
    let lines = u64::from(4 * STORM_LINES);
    expect_true(&rt, gate.answered() >= lines && !gate.has_cut_a_line());
    let pins = pins_after(&rt, script.as_str(), &told.by_threads);
    expect_true(&rt, told.pins_left == pins.of_cpus);
    the_storm_adds_up(&rt, &told.after_threads, &pins);
    expect_true(&rt, told.audit.frames == FRAMES);
    expect_true(
        &rt,
        told.audit.free.wrapping_add(told.audit.charged) == FRAMES,
    );
}
