//! The sentence of a reason.

ghost use Rattle.std.specs.Prelude.{◌≡◌, ◌++◌, IfOk, decimal};
ghost use Rattle.log_check.specs.ReasonTexts.{book_text, lock_text, phase_text, quantity_text, reason_text, room_text};
ghost use Rattle.log_check.specs.ReasonTexts.{head_text, full_limit_text, mkdir_refusal_text, said, said_two, stock_state_text, sum_text};
ghost use Rattle.step_rules.specs.declared.phase.Phase.{Phase};
ghost use Rattle.log_check.specs.declared.reason.Reason.TheVariants as kinds;

use crate::number::push_number;
use crate::reason::Reason;
use group_tree::fault::Fault;
use group_tree::group::GroupId;
use group_tree::path::PathText;
use mem_core::quantity::Quantity;
use std::alloc::AllocError;
use step_rules::phase::{Hold, Phase, Stage, Way};
use zone_blocks::block::Block;
use zone_blocks::order::Order;

/// Appends the sentence of a reason, without a full stop. It fails only if memory runs out.
pub fn write_reason(reason: &Reason, text: &mut Vec<u8>) -> Result<(), AllocError>
    ensures { IfOk result (λ _. text.new.items ≡ text.old.items ++ reason_text reason.now) }
{
    match *reason {
        Reason::NoCpu(seat) => say(b"seat ", seat, b" isn't a CPU's", text),
        Reason::NoZoneSeat(seat) => say(b"seat ", seat, b" isn't the zone's", text),
        Reason::Lock(hold) => write_lock(hold, text),
        Reason::NoFrame(frame) => say(b"frame ", frame, b" isn't the zone's", text),
        Reason::NoGroup(group) => say(b"group ", group.number(), b" doesn't exist", text),
        Reason::Number { what, count } => write_number(what, count, text),
        Reason::Place { frame, phase } => write_place(frame, phase, text),
        Reason::NotFirst { frame, cpu } => write_not_first(frame, cpu, text),
        Reason::Unkilled { frame, group } => write_unkilled(frame, group, text),
        Reason::BadCount => say_text(b"a frame has 1 to 255 references", text),
        Reason::Stock {
            cpu,
            group,
            is_drained,
        } => write_stock(cpu, group, is_drained, text),
        Reason::Book { cpu, group } => write_book(cpu, group, text),
        Reason::Killed(group) => say(b"group ", group.number(), b" is killed", text),
        Reason::Root => say_text(b"group 0 is the root", text),
        Reason::Child(group) => say(b"a group is below group ", group.number(), b"", text),
        Reason::Refused(fault) => write_refusal(&fault, text),
        Reason::MayBeMade => say_text(b"the step may be made", text),
        Reason::OnlyDone => say_text(b"its only answer is done", text),
        Reason::NoRoom {
            path,
            usage,
            pages,
            limit,
        } => write_no_room(&path, usage, pages, limit, text),
        Reason::Room { group, pages } => write_room(group, pages, text),
        Reason::FreeBlock(block) => write_free_block(&block, text),
        Reason::NoFreeBlock(order) => write_no_free_block(order, text),
        Reason::NoBlock(block) => write_no_block(&block, text),
        Reason::OtherOrder(order) => say(b"the order is ", order.exponent(), b"", text),
        Reason::LeastNumber(group) => {
            say(
                b"the least free group number is ",
                group.number(),
                b"",
                text,
            )
        }
    }
}

// Appends a number between two texts.
fn say(before: &[u8], number: u32, after: &[u8], text: &mut Vec<u8>) -> Result<(), AllocError>
    ensures { IfOk result (λ _. text.new.items ≡ text.old.items ++ said before.now number after.now) }
{
    text.extend_from_slice(before)?;
    push_number(number, text)?;
    text.extend_from_slice(after)
}

// Appends two numbers, and texts around them.
fn say_two(
    before: &[u8],
    first: u32,
    between: &[u8],
    second: u32,
    after: &[u8],
    text: &mut Vec<u8>,
) -> Result<(), AllocError>
    ensures { IfOk result (λ _. text.new.items
        ≡ text.old.items ++ said_two before.now first between.now second after.now) }
{
    text.extend_from_slice(before)?;
    push_number(first, text)?;
    say(between, second, after, text)
}

// Appends a text.
fn say_text(words: &[u8], text: &mut Vec<u8>) -> Result<(), AllocError>
    ensures { IfOk result (λ _. text.new.items ≡ text.old.items ++ words.now) }
{
    text.extend_from_slice(words)
}

// Appends a text between two others.
fn say_words(
    before: &[u8],
    words: &[u8],
    after: &[u8],
    text: &mut Vec<u8>,
) -> Result<(), AllocError>
    ensures { IfOk result (λ _. text.new.items ≡ text.old.items ++ (before.now ++ (words.now ++ after.now))) }
{
    text.extend_from_slice(before)?;
    text.extend_from_slice(words)?;
    text.extend_from_slice(after)
}

// Appends a number between two texts, and a name.
fn say_named(
    before: &[u8],
    number: u32,
    between: &[u8],
    name: &[u8],
    text: &mut Vec<u8>,
) -> Result<(), AllocError>
    ensures { IfOk result (λ _. text.new.items
        ≡ text.old.items ++ (said before.now number between.now ++ name.now)) }
{
    say(before, number, between, text)?;
    text.extend_from_slice(name)
}

fn write_not_first(frame: u32, cpu: u32, text: &mut Vec<u8>) -> Result<(), AllocError>
    ensures { IfOk result (λ _. text.new.items ≡ text.old.items ++ reason_text (kinds.NotFirst frame cpu)) }
{
    say_two(
        b"frame ",
        frame,
        b" isn't the first of CPU ",
        cpu,
        b"'s list",
        text,
    )
}

fn write_unkilled(frame: u32, group: GroupId, text: &mut Vec<u8>) -> Result<(), AllocError>
    ensures { IfOk result (λ _. text.new.items ≡ text.old.items ++ reason_text (kinds.Unkilled frame group)) }
{
    say_two(
        b"the unit at frame ",
        frame,
        b" is collected, and group ",
        group.number(),
        b" isn't killed",
        text,
    )
}

fn write_room(group: GroupId, pages: u32, text: &mut Vec<u8>) -> Result<(), AllocError>
    ensures { IfOk result (λ _. text.new.items ≡ text.old.items ++ reason_text (kinds.Room group pages)) }
{
    say_two(
        b"each limit from group ",
        group.number(),
        b" up has room for ",
        pages,
        b" pages",
        text,
    )
}

fn write_free_block(block: &Block, text: &mut Vec<u8>) -> Result<(), AllocError>
    ensures { IfOk result (λ _. text.new.items ≡ text.old.items ++ reason_text (kinds.FreeBlock block.now)) }
{
    say_two(
        b"the block of order ",
        block.order.exponent(),
        b" at frame ",
        block.at,
        b" is free",
        text,
    )
}

fn write_no_free_block(order: Order, text: &mut Vec<u8>) -> Result<(), AllocError>
    ensures { IfOk result (λ _. text.new.items ≡ text.old.items ++ reason_text (kinds.NoFreeBlock order)) }
{
    say(b"no block of order ", order.exponent(), b" is free", text)
}

fn write_no_block(block: &Block, text: &mut Vec<u8>) -> Result<(), AllocError>
    ensures { IfOk result (λ _. text.new.items ≡ text.old.items ++ reason_text (kinds.NoBlock block.now)) }
{
    say_two(
        b"no block of order ",
        block.order.exponent(),
        b" begins at frame ",
        block.at,
        b"",
        text,
    )
}

// Appends which group's unit a frame is in, that isn't its head.
fn write_tail(frame: u32, group: GroupId, text: &mut Vec<u8>) -> Result<(), AllocError>
    ensures { IfOk result (λ _. text.new.items ≡ text.old.items ++ phase_text frame (Phase.Tail group)) }
{
    say_two(
        b"frame ",
        frame,
        b" is in a unit of group ",
        group.number(),
        b", behind its head",
        text,
    )
}

fn write_lock(hold: Hold, text: &mut Vec<u8>) -> Result<(), AllocError>
    ensures { IfOk result (λ _. text.new.items ≡ text.old.items ++ lock_text hold) }
{
    match hold {
        Hold::Unheld => text.extend_from_slice(b"the zone isn't locked"),
        Hold::HeldBy(cpu) => say(
            b"the zone is locked by CPU ",
            cpu,
            b", and no visit is open",
            text,
        ),
        Hold::Visiting(cpu) => say(
            b"the zone is locked by CPU ",
            cpu,
            b", and its visit is open",
            text,
        ),
    }
}

// Appends what a number counts, and the number.
fn write_number(what: Quantity, count: u128, text: &mut Vec<u8>) -> Result<(), AllocError>
    ensures { IfOk result (λ _. text.new.items ≡ text.old.items ++ (quantity_text what ++ decimal count)) }
{
    write_quantity(what, text)?;
    push_number(count, text)
}

// Appends what a number counts, up to the number.
fn write_quantity(what: Quantity, text: &mut Vec<u8>) -> Result<(), AllocError>
    ensures { IfOk result (λ _. text.new.items ≡ text.old.items ++ quantity_text what) }
{
    match what {
        Quantity::Own { seat, frame } => say_two(
            b"the number of references of seat ",
            seat,
            b" on frame ",
            frame,
            b" is ",
            text,
        ),
        Quantity::References(frame) => {
            say(b"the number of references on frame ", frame, b" is ", text)
        }
        Quantity::Pins(cpu) => say(
            b"the number of references and back frames of CPU ",
            cpu,
            b" is ",
            text,
        ),
        Quantity::Listed(cpu) => say(b"the number of frames on CPU ", cpu, b"'s list is ", text),
        Quantity::Fresh(cpu) => say(b"the number of fresh frames of CPU ", cpu, b" is ", text),
        Quantity::Unreported(cpu) => {
            say(
                b"the number of unreported pages of CPU ",
                cpu,
                b" is ",
                text,
            )
        }
        Quantity::Reported(cpu) => say(b"the number of reported pages of CPU ", cpu, b" is ", text),
        Quantity::InStock(cpu) => say(b"the number of pages in CPU ", cpu, b"'s stock is ", text),
        Quantity::Pending(group) => say(
            b"the number of pages pending for group ",
            group.number(),
            b" is ",
            text,
        ),
        Quantity::Usage(group) => say(b"the usage of group ", group.number(), b" is ", text),
    }
}

// Appends what a frame is.
fn write_place(frame: u32, phase: Phase, text: &mut Vec<u8>) -> Result<(), AllocError>
    ensures { IfOk result (λ _. text.new.items ≡ text.old.items ++ phase_text frame phase) }
{
    match phase {
        Phase::InZone => say(b"frame ", frame, b" is free", text),
        Phase::Lent { cpu, way } => match way {
            Way::PassingOut => {
                say_two(b"frame ", frame, b" is in transit to CPU ", cpu, b"", text)
            }
            Way::OnList => say_two(b"frame ", frame, b" is on CPU ", cpu, b"'s list", text),
            Way::PassingBack => {
                say_two(
                    b"frame ",
                    frame,
                    b" is in transit back from CPU ",
                    cpu,
                    b"",
                    text,
                )
            }
        },
        Phase::Head { unit: _, stage } => write_head(frame, stage, text),
        Phase::Tail(group) => write_tail(frame, group, text),
    }
}

// Appends at which stage the unit is that a frame heads.
fn write_head(frame: u32, stage: Stage, text: &mut Vec<u8>) -> Result<(), AllocError>
    ensures { IfOk result (λ _. text.new.items ≡ text.old.items ++ head_text frame stage) }
{
    let head = b"the unit at frame ";
    match stage {
        Stage::FreshAt(cpu) => say_two(head, frame, b" is fresh at CPU ", cpu, b"", text),
        Stage::FreshPassing(cpu) => {
            say_two(
                head,
                frame,
                b" is fresh and in transit from CPU ",
                cpu,
                b"",
                text,
            )
        }
        Stage::Collected => say(head, frame, b" is collected", text),
        Stage::Bare => say(head, frame, b" is bare", text),
        Stage::Live => say(head, frame, b" is in use", text),
        Stage::BackAt(cpu) => say_two(head, frame, b" is back at CPU ", cpu, b"", text),
        Stage::BackPassing(cpu) => {
            say_two(
                head,
                frame,
                b" is back and in transit from CPU ",
                cpu,
                b"",
                text,
            )
        }
        Stage::AwaitsReturn => say(head, frame, b" is ended", text),
    }
}

fn write_stock(
    cpu: u32,
    group: Option<GroupId>,
    is_drained: bool,
    text: &mut Vec<u8>,
) -> Result<(), AllocError>
    ensures { IfOk result (λ _. text.new.items ≡ text.old.items ++ stock_state_text cpu group is_drained) }
{
    match group {
        None => say(b"CPU ", cpu, b"'s stock is of no group", text),
        Some(group) if is_drained => say_two(
            b"CPU ",
            cpu,
            b"'s stock is of group ",
            group.number(),
            b" and was drained",
            text,
        ),
        Some(group) => say_two(
            b"CPU ",
            cpu,
            b"'s stock is of group ",
            group.number(),
            b"",
            text,
        ),
    }
}

fn write_book(cpu: u32, group: Option<GroupId>, text: &mut Vec<u8>) -> Result<(), AllocError>
    ensures { IfOk result (λ _. text.new.items ≡ text.old.items ++ book_text cpu group) }
{
    match group {
        None => say(b"CPU ", cpu, b"'s book has pages of no group", text),
        Some(group) => say_two(
            b"CPU ",
            cpu,
            b"'s book has pages of group ",
            group.number(),
            b"",
            text,
        ),
    }
}

fn write_refusal(fault: &Fault, text: &mut Vec<u8>) -> Result<(), AllocError>
    ensures { IfOk result (λ _. text.new.items ≡ text.old.items ++ mkdir_refusal_text fault.now) }
{
    say_named(
        b"mkdir is refused ",
        fault.number(),
        b" ",
        fault.name().as_bytes(),
        text,
    )
}

fn write_no_room(
    path: &PathText,
    usage: u128,
    pages: u32,
    limit: u32,
    text: &mut Vec<u8>,
) -> Result<(), AllocError>
    ensures { IfOk result (λ _. text.new.items ≡ text.old.items ++ room_text path.now usage pages limit) }
{
    write_limit(path, text)?;
    write_sum(usage, pages, limit, text)
}

// Appends that the limit of the group has no room.
fn write_limit(path: &PathText, text: &mut Vec<u8>) -> Result<(), AllocError>
    ensures { IfOk result (λ _. text.new.items ≡ text.old.items ++ full_limit_text path.now) }
{
    say_words(b"the limit of ", path.as_bytes(), b" has no room: ", text)
}

// Appends how far a limit has no room.
fn write_sum(usage: u128, pages: u32, limit: u32, text: &mut Vec<u8>) -> Result<(), AllocError>
    ensures { IfOk result (λ _. text.new.items ≡ text.old.items ++ sum_text usage pages limit) }
{
    push_number(usage, text)?;
    say_two(b" + ", pages, b" > ", limit, b"", text)
}
