//! Failing streams, the order in which faults are found, and how they are reported.

ghost use Rattle.std.specs.Prelude.{◌≤◌, length};

use crate::streams::{
    AnswerWriter, PLAIN, ProgramRun, ScriptReader, broken_reader, expect_row, expect_true,
    is_refused, reader_in_steps, run_program, run_program_on, script_reader, writer_with_room,
};
use load_run::fault::ProgramFault;
use load_run::fault_lines::report_fault;
use load_run::{ScriptFault, WordsFault};
use std::alloc::AllocError;
use std::io::ErrorKind;
use std::process::Abort;
use std::sync::Wait;
use std::thread::Threads;

const GOOD_SCRIPT: &str = "1 mkdir /a\n1 alloc /a 0\n1 blocks\n1 read /a memory.current\n";

const GOOD_ANSWERS: &str = "group 1\nframe 0\n2:4 3:8\n16384\n";

// A session ends each answer with an empty line.
const SESSION_ANSWERS: &str = "group 1\n\nframe 0\n\n2:4 3:8\n\n16384\n\n";

const GOOD_LOG: &str =
    "zone 16 2\n# a comment\n1 lock > done\n0 open 1 > done\n0 shut 1 > done\n1 unlock > done\n";

const GOOD_VERDICT: &str =
    "legal: 4 steps, the promise holds\nfree: the lock was free after 1 of them\nleft: 0 units without references, 0 pages pending\n";

// The run succeeded, with this output and no fault.
fn is_good(ended: &ProgramRun, output: &str) -> bool {
    ended.status == 0 && ended.output.as_slice() == output.as_bytes() && ended.faults.is_empty()
}

// The run succeeded, with the answers to `GOOD_SCRIPT` and no fault.
fn script_is_answered(ended: &ProgramRun) -> bool {
    is_good(ended, GOOD_ANSWERS)
}

#[test]
fn ends_well_where_nothing_fails(rt: HostRuntime) {
    for bytes_at_once in 1..=80 {
        let script = reader_in_steps(GOOD_SCRIPT.as_bytes(), bytes_at_once);
        let ended = run_program(&rt, &PLAIN, script, 10_000);
        expect_true(&rt, script_is_answered(&ended));
    }
}

// A reader of this input. One of its reads fails, after this many good ones.
fn reader_that_fails(
    input: &'static str,
    good_reads: u32,
    read_fault: ErrorKind,
) -> ScriptReader<'static> {
    ScriptReader {
        good_reads: Some(good_reads),
        read_fault,
        ..script_reader(input.as_bytes())
    }
}

// Lets each read fail in turn, the last one too. Each such run must end with `input failed`. Returns how many runs
// failed.
fn failed_reads(
    rt: &(impl AllocGlobal + Threads + Wait + Abort + Sync),
    read_fault: ErrorKind,
) -> u32 {
    let told = "input failed\n";
    for good in 0..100 {
        let script = reader_that_fails(GOOD_SCRIPT, good, read_fault);
        let ended = run_program(rt, &PLAIN, script, 10_000);
        if ended.status == 0 {
            expect_row(rt, script_is_answered(&ended), told);
            return good;
        }
        expect_row(rt, ended.status == 1, told);
        expect_row(rt, ended.output.is_empty(), told);
        expect_row(rt, ended.faults.as_slice() == told.as_bytes(), told);
    }
    100
}

// Any error of the reader is reported as `input failed`, even one that says that memory ran out or that the input
// ended early.
#[test]
fn tells_that_the_input_failed(rt: HostRuntime) {
    let failed = failed_reads(&rt, ErrorKind::ConnectionReset);
    expect_true(&rt, 10 < failed && failed < 100);
    expect_true(&rt, failed_reads(&rt, ErrorKind::OutOfMemory) == failed);
    expect_true(&rt, failed_reads(&rt, ErrorKind::UnexpectedEof) == failed);
}

// Lets each read of this input be interrupted in turn. Each run with this word must end with this output.
fn reads_on(
    rt: &(impl AllocGlobal + Threads + Wait + Abort + Sync),
    word: &str,
    input: &'static str,
    output: &str,
) {
    for good in 0..30 {
        let reader = reader_that_fails(input, good, ErrorKind::Interrupted);
        let ended = run_program(rt, &[word], reader, 10_000);
        expect_row(rt, is_good(&ended, output), word);
    }
}

#[test]
fn reads_on_after_an_interrupt(rt: HostRuntime) {
    reads_on(&rt, "replay", GOOD_SCRIPT, GOOD_ANSWERS);
    reads_on(&rt, "serve", GOOD_SCRIPT, SESSION_ANSWERS);
    reads_on(&rt, "check", GOOD_LOG, GOOD_VERDICT);
}

// Runs `GOOD_SCRIPT` by this word, with this writer for the answers.
fn run_word_to(
    rt: &(impl AllocGlobal + Threads + Wait + Abort + Sync),
    word: &str,
    output: AnswerWriter,
) -> ProgramRun {
    let mut script = script_reader(GOOD_SCRIPT.as_bytes());
    let faults = writer_with_room(rt, 100);
    run_program_on(rt, &[word], &mut script, output, faults)
}

// Replays `GOOD_SCRIPT` with this writer for the answers.
fn run_to(
    rt: &(impl AllocGlobal + Threads + Wait + Abort + Sync),
    output: AnswerWriter,
) -> ProgramRun {
    run_word_to(rt, "replay", output)
}

// The run reported that its output failed, and wrote these answers before.
fn answers_are_cut_short(ended: &ProgramRun, answers: &[u8]) -> bool {
    ended.status == 1
        && ended.output.as_slice() == answers
        && ended.faults.as_slice() == b"output failed\n".as_slice()
}

// If the writer has room for this many bytes, the answers are cut short there. It takes `bytes_at_once` bytes at a
// time.
fn answers_are_cut_at(
    rt: &(impl AllocGlobal + Threads + Wait + Abort + Sync),
    bytes_at_once: usize,
    answers: &[u8],
    room: usize,
)
    requires { room ≤ length answers.now }
{
    let mut writer = writer_with_room(rt, room);
    writer.bytes_at_once = bytes_at_once;
    let ended = run_to(rt, writer);
    expect_true(rt, answers_are_cut_short(&ended, &answers[..room]));
}

// If the writer has room for all answers, all are written, although the first three writes are interrupted.
fn answers_are_written(
    rt: &(impl AllocGlobal + Threads + Wait + Abort + Sync),
    bytes_at_once: usize,
) {
    let mut writer = writer_with_room(rt, GOOD_ANSWERS.len());
    writer.bytes_at_once = bytes_at_once;
    writer.interrupts = 3;
    let ended = run_to(rt, writer);
    expect_true(rt, script_is_answered(&ended));
}

// The writer takes nothing at its first write, although it would at the next.
#[test]
fn a_writer_that_takes_nothing_is_a_failed_output(rt: HostRuntime) {
    let mut writer = writer_with_room(&rt, GOOD_ANSWERS.len());
    writer.is_idle = true;
    expect_true(&rt, answers_are_cut_short(&run_to(&rt, writer), &[]));
}

#[test]
fn tells_that_the_output_failed(rt: HostRuntime) {
    let answers = GOOD_ANSWERS.as_bytes();
    for bytes_at_once in [1, 3, 100] {
        for room in 0..answers.len() {
            answers_are_cut_at(&rt, bytes_at_once, answers, room);
        }
        answers_are_written(&rt, bytes_at_once);
    }
    expect_true(
        &rt,
        answers_are_cut_short(&run_to(&rt, unflushed(&rt)), answers),
    );
}

// A writer whose flushes fail.
fn unflushed(rt: &(impl Abort + AllocGlobal)) -> AnswerWriter {
    let mut writer = writer_with_room(rt, 100);
    writer.flushes = false;
    writer
}

// A session flushes the answer of a line before it waits for the next one.
#[test]
fn a_session_ends_at_a_flush_that_fails(rt: HostRuntime) {
    let ended = run_word_to(&rt, "serve", unflushed(&rt));
    expect_true(&rt, answers_are_cut_short(&ended, b"group 1\n\n"));
}

// If there is room only for this part of the fault, the run ends with the same status.
fn ends_as_it_would(rt: &(impl AllocGlobal + Threads + Wait + Abort + Sync), told: &[u8]) {
    let mut script = script_reader(b"1 show\n1 sho".as_slice());
    let output = writer_with_room(rt, 100);
    let faults = writer_with_room(rt, told.len());
    let ended = run_program_on(rt, &PLAIN, &mut script, output, faults);
    expect_true(rt, ended.status == 2);
    expect_true(rt, ended.faults.as_slice() == told);
}

#[test]
fn ends_as_it_would_where_a_fault_is_not_told(rt: HostRuntime) {
    let told = b"bad line 2\n".as_slice();
    for room in 0..told.len() {
        ends_as_it_would(&rt, &told[..room]);
    }
}

// The program prints the fault as it is displayed, followed by this end.
fn is_printed_as_displayed(
    rt: &(impl AllocGlobal + Threads + Wait + Abort + Sync),
    fault: &ProgramFault,
    end: &str,
) {
    let displayed = format!(in rt.alloc(); "{fault}{end}").expect(rt, "memory");
    let mut faults = writer_with_room(rt, 1_000);
    let status = report_fault(fault, &mut faults);
    expect_row(rt, status == fault.status(), displayed.as_str());
    let is_printed = faults.text.as_slice() == displayed.as_bytes();
    expect_row(rt, is_printed, displayed.as_str());
}

#[test]
fn each_fault_is_printed_as_it_is_displayed(rt: HostRuntime) {
    let text = String::from_str(rt.alloc(), "error: a text with its line feed\n");
    let words = WordsFault::BadWords(text.expect(&rt, "memory"));
    is_printed_as_displayed(&rt, &ProgramFault::Words(words), "");
    for fault in [
        ProgramFault::Words(WordsFault::NoMemory(AllocError)),
        ProgramFault::Script(ScriptFault::BadLine(65_537)),
        ProgramFault::Script(ScriptFault::NoMemory),
        ProgramFault::BadConfig,
        ProgramFault::IllegalLine(17),
        ProgramFault::Input,
        ProgramFault::Output,
        ProgramFault::NoMemory(AllocError),
    ] {
        is_printed_as_displayed(&rt, &fault, "\n");
    }
}

// The words are judged before the script is read, and the script before the sizes. That a bad script is reported
// first is in `tests/rows`.
#[test]
fn judges_the_words_before_it_reads(rt: HostRuntime) {
    let clap = "error: invalid value '0' for '--frames <N>'";
    is_refused(&rt, "replay --frames=0", broken_reader(), 2, clap);
    let bad_sizes = "replay --batch 4 --high 2";
    is_refused(&rt, bad_sizes, broken_reader(), 1, "input failed\n");
}
