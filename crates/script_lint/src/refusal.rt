//! Why a command is refused, whatever groups there are, or is hardly meant.

ghost use Rattle.std.specs.Prelude.{◌≡◌, ◌↔◌, IfErr, IfOk, IsTrue, List, ℕ};
ghost use Rattle.control_files.specs.declared.file.File.{File};
ghost use Rattle.group_tree.specs.Path.{is_root};
ghost use Rattle.script_lint.specs.Refusals.{CantChange, HasFile, IsJudged, IsNoFileName, IsNoPath, IsRefused, LacksFile, RefusesOrder};
ghost use Rattle.script_lint.specs.Refusals.{RefusesRead, RefusesReadOf, NeverTakesValue, RefusesWriteOf};
ghost use Rattle.script_lint.specs.Refusals.{is_unmodelled};
ghost use Rattle.script_lint.specs.Refusals.{LacksAmount, LacksFlag, LacksLimit, is_of_swap, is_statistic};
ghost use Rattle.script_lint.specs.Doubts.{IsDoubtful, IsFewBytes, takes_bytes};
ghost use Rattle.script_lint.specs.Refused.{sentence, verdict};
ghost use Rattle.script_lint.specs.declared.refusal.Refusal.{Refusal};

use control_files::file::{File, file_named};
use control_files::flag::read_flag;
use control_files::limit::{read_amount, read_limit};
use control_files::text::PAGE_BYTES;
use group_tree::fault::Fault;
use group_tree::tree::Tree;
use script_lines::line::Command;
use script_lines::number::number;

// The greatest order of a block.
const MAX_ORDER: u32 = 10;

/// Why a good line is named: its command is refused, whatever groups there are, or is hardly meant.
#[derive(Clone, Copy, PartialEq, Eq)]
pub enum Refusal {
    /// The order of `alloc` is above 10.
    OrderTooGreat,
    /// The path is malformed.
    BadPath,
    /// The path has more than 8 names.
    PathTooDeep,
    /// The path is that of the root, which can be neither made nor removed.
    RootToChange,
    /// No line before makes the group of the path.
    NeverMade,
    /// cgroup v2 has a file of this name, and no group has it here.
    NotModelled,
    /// No group has a file of this name.
    NoFile,
    /// The path is that of the root, which has no files.
    FileOfRoot,
    /// The file can't be read.
    WriteOnly,
    /// The file can't be written.
    ReadOnly,
    /// memory.max, memory.high, memory.low or memory.min doesn't take this value.
    NoLimit,
    /// memory.reclaim doesn't take this value.
    NoAmount,
    /// memory.oom.group doesn't take this value.
    NoFlag,
    /// The amount is above 2^64 - 1 bytes.
    TooGreat,
    /// Not refused, but doubtful: the value is a number of bytes below a page, as if pages were meant.
    LessThanPage,
}

impl Refusal {
    // What it is: a refusal, or a doubt.
    pub(crate) fn verdict(self) -> &'static str
        ensures { result.now ≡ verdict self }
    {
        match self {
            Refusal::LessThanPage => "doubtful",
            _ => "refused",
        }
    }

    // Why, in words.
    pub(crate) fn sentence(self) -> &'static str
        ensures { result.now ≡ sentence self }
    {
        match self {
            Refusal::OrderTooGreat => "orders are 0 to 10: 2^ORDER frames",
            Refusal::BadPath => {
                "a path has a / before each name, as /a/b: names of 1 to 255 bytes, not . or .., \
                512 bytes in all"
            }
            Refusal::PathTooDeep => "a path has at most 8 names",
            Refusal::RootToChange => "/ can't be made or removed",
            Refusal::NeverMade => "no line before makes this group",
            Refusal::NotModelled => {
                "this file isn't modelled; the files are memory.current, memory.max, memory.high, memory.low, \
                memory.min, memory.peak, memory.events, memory.events.local, memory.oom.group, memory.reclaim, \
                memory.stat"
            }
            Refusal::NoFile => {
                "no such file; the files are memory.current, memory.max, memory.high, memory.low, \
                memory.min, memory.peak, memory.events, memory.events.local, memory.oom.group, memory.reclaim, \
                memory.stat"
            }
            Refusal::FileOfRoot => "/ has no files",
            Refusal::WriteOnly => "memory.reclaim can't be read",
            Refusal::ReadOnly => {
                "only memory.max, memory.high, memory.low, memory.min, memory.oom.group and memory.reclaim \
                can be written"
            }
            Refusal::NoLimit => {
                "memory.max, memory.high, memory.low and memory.min take a whole number of bytes, with K M G T \
                P E, or max"
            }
            Refusal::NoAmount => "memory.reclaim takes a whole number of bytes, with K M G T P E",
            Refusal::NoFlag => "memory.oom.group takes 0 or 1",
            Refusal::TooGreat => "a number of bytes is at most 18446744073709551615",
            Refusal::LessThanPage => "the value is in bytes, and is rounded up to a page of 4096",
        }
    }
}

// Why the command is refused, if it is, whatever groups there are. The tree has the root alone: of a path it says what
// holds in every tree.
pub(crate) fn refusal_of(command: &Command<'_>, tree: &Tree) -> Option<Refusal>
    ensures { IsJudged (IsRefused command.now) result }
{
    match command {
        Command::Mkdir { path } | Command::Rmdir { path } => changed_path_refusal(path, tree),
        Command::Units { path } => path_refusal(path, tree),
        Command::Alloc { path, order } => order_refusal(*order).or(path_refusal(path, tree)),
        Command::Read { path, file } => read_refusal(path, file).or(path_refusal(path, tree)),
        Command::Write { path, file, value } => {
            write_refusal(path, file, value).or(path_refusal(path, tree))
        }
        _ => None,
    }
}

// Why the command is hardly meant, if it isn't.
pub(crate) fn doubt_of(command: &Command<'_>) -> Option<Refusal>
    ensures { IsJudged (IsDoubtful command.now) result }
{
    match command {
        Command::Write {
            path: _,
            file,
            value,
        } => { (takes_bytes(file) && is_few_bytes(value)).then_some(Refusal::LessThanPage) }
        _ => None,
    }
}

// Whether a file of this name takes a number of bytes.
fn takes_bytes(name: &[u8]) -> bool
    ensures { result ≡ takes_bytes name.now }
{
    name == b"memory.max".as_slice()
        || name == b"memory.high".as_slice()
        || name == b"memory.low".as_slice()
        || name == b"memory.min".as_slice()
        || name == b"memory.reclaim".as_slice()
}

// Whether the value is a number of bytes below a page, and isn't 0.
fn is_few_bytes(value: &[u8]) -> bool
    ensures { IsTrue result ↔ IsFewBytes value.now }
{
    match number(value) {
        Some(bytes) => 1 <= bytes && u64::from(bytes) < PAGE_BYTES,
        None => false,
    }
}

// Why no group has this path, if none can.
#[tactic(auto, unfolding(group_tree::specs::Groups::make_fault))]
fn path_refusal(path: &[u8], tree: &Tree) -> Option<Refusal>
    ensures { IsJudged (IsNoPath path.now) result }
{
    if is_root(path) {
        return None;
    }
    match tree.make_fault(path) {
        Some(fault) => match fault {
            Fault::BadName => Some(Refusal::BadPath),
            Fault::TooDeep => Some(Refusal::PathTooDeep),
            _ => None,
        },
        None => None,
    }
}

// The same, or that a group of this path can be neither made nor removed.
fn changed_path_refusal(path: &[u8], tree: &Tree) -> Option<Refusal>
    ensures { IsJudged (CantChange path.now) result }
{
    if is_root(path) {
        Some(Refusal::RootToChange)
    } else {
        path_refusal(path, tree)
    }
}

// Whether the path is that of the root.
pub(crate) fn is_root(path: &[u8]) -> bool
    ensures { result ≡ is_root path.now }
{
    path == b"/".as_slice()
}

fn order_refusal(order: u32) -> Option<Refusal>
    ensures { IsJudged (RefusesOrder order) result }
{
    (MAX_ORDER < order).then_some(Refusal::OrderTooGreat)
}

fn read_refusal(path: &[u8], name: &[u8]) -> Option<Refusal>
    ensures { IsJudged (RefusesReadOf path.now name.now) result }
{
    match file_of(path, name) {
        Ok(file) => unread(file),
        Err(why) => Some(why),
    }
}

fn unread(file: File) -> Option<Refusal>
    ensures { IsJudged (RefusesRead file) result }
{
    if file.is_readable() {
        None
    } else {
        Some(Refusal::WriteOnly)
    }
}

fn write_refusal(path: &[u8], name: &[u8], value: &[u8]) -> Option<Refusal>
    ensures { IsJudged (RefusesWriteOf path.now name.now value.now) result }
{
    match file_of(path, name) {
        Ok(file) => value_refusal(file, value),
        Err(why) => Some(why),
    }
}

// The file of this name, or why no group that has the path has one.
fn file_of(path: &[u8], name: &[u8]) -> Result<File, Refusal>
    ensures file { IfOk result (HasFile path.now name.now) }
    ensures none { IfErr result (LacksFile path.now name.now) }
{
    match file_named(name) {
        None => Err(no_file(name)),
        Some(file) => {
            if is_root(path) {
                Err(Refusal::FileOfRoot)
            } else {
                Ok(file)
            }
        }
    }
}

// Why no group has a file of this name.
fn no_file(name: &[u8]) -> Refusal
    requires { IsNoFileName name.now }
    ensures { (path : List ℕ) → LacksFile path name.now result }
{
    if is_unmodelled(name) {
        Refusal::NotModelled
    } else {
        Refusal::NoFile
    }
}

// Whether cgroup v2 has a file of this name that no group has here.
fn is_unmodelled(name: &[u8]) -> bool
    ensures { result ≡ is_unmodelled name.now }
{
    is_statistic(name) || is_of_swap(name)
}

fn is_statistic(name: &[u8]) -> bool
    ensures { result ≡ is_statistic name.now }
{
    name == b"memory.numa_stat".as_slice() || name == b"memory.pressure".as_slice()
}

fn is_of_swap(name: &[u8]) -> bool
    ensures { result ≡ is_of_swap name.now }
{
    name.starts_with(b"memory.swap.") || name.starts_with(b"memory.zswap.")
}

// Why the file doesn't take this value, if it doesn't.
fn value_refusal(file: File, value: &[u8]) -> Option<Refusal>
    ensures { IsJudged (NeverTakesValue file value.now) result }
{
    match file {
        File::Max | File::High | File::Low | File::Min => limit_refusal(value),
        File::Reclaim => amount_refusal(value),
        File::OomGroup => flag_refusal(value),
        File::Current | File::Peak | File::Events | File::EventsLocal | File::Stat => {
            Some(Refusal::ReadOnly)
        }
    }
}

fn limit_refusal(value: &[u8]) -> Option<Refusal>
    ensures { IsJudged (LacksLimit value.now) result }
{
    match read_limit(value) {
        Ok(_) => None,
        Err(fault) => match fault {
            Fault::BadNumber => Some(Refusal::TooGreat),
            _ => Some(Refusal::NoLimit),
        },
    }
}

fn amount_refusal(value: &[u8]) -> Option<Refusal>
    ensures { IsJudged (LacksAmount value.now) result }
{
    match read_amount(value) {
        Ok(_) => None,
        Err(fault) => match fault {
            Fault::BadNumber => Some(Refusal::TooGreat),
            _ => Some(Refusal::NoAmount),
        },
    }
}

fn flag_refusal(value: &[u8]) -> Option<Refusal>
    ensures { IsJudged (LacksFlag value.now) result }
{
    match read_flag(value) {
        Ok(_) => None,
        Err(_) => Some(Refusal::NoFlag),
    }
}
