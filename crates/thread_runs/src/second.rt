//! If a run by threads fails because memory is refused, the next run is complete all the same. If a thread is refused,
//! the run itself is complete: its lines are served in turn.

use crate::gates::CountedLines;
use crate::systems::{TWO_CPUS, ThreadAnswers, expect_answers, expect_true, run_script};
use std::process::Abort;
use std::sync::Wait;
use std::test::Fail;
use std::thread::Threads;

// None of its answers depends on the order of the threads.
const SCRIPT: &str =
    "1 mkdir /a\n2 alloc /a 0\n2 settle\ngo\n1 get 0\n1 put 0\n2 settle\n2 read /a memory.current\n";

// The answers of the threads in a whole life, from boot to end; None if memory is refused.
fn life_of_threads(
    rt: &(impl AllocGlobal + Threads + Wait + Abort + Sync),
    gate: &CountedLines,
) -> Option<ThreadAnswers> {
    run_script(rt, TWO_CPUS, SCRIPT, "1 owner 0\n", gate)
}

// `tests/gate/refuse-memory` runs this with each allocation and each thread start refused in turn, until the first run
// completes. The gate isn't called after a line for which memory ran out.
#[test]
fn a_second_run_is_whole_where_the_first_was_refused(rt: HostRuntime) -> Result<(), Fail> {
    let gate = CountedLines::new();
    let mut told = life_of_threads(&rt, &gate);
    if told.is_none() {
        println!(rt; "the first life was refused")?;
        if gate.has_cut_a_line() {
            println!(rt; "a line was cut off")?;
        }
        told = life_of_threads(&rt, &CountedLines::new());
    }
    is_whole(&rt, &told.expect(&rt, "a run"));
    Ok(())
}

// The run is that of the whole script.
fn is_whole(rt: &impl Abort, told: &ThreadAnswers) {
    let answers = "group 1\nframe 0\nsettled\ncpu 1\nheld\nleft 1\ncpu 2\nsettled\n16384\n";
    expect_answers(rt, told, answers, "/a\n");
    expect_true(rt, told.pins_left == [0; 4]);
    expect_true(rt, told.audit.frames == 16);
    expect_true(rt, told.audit.free == 15 && told.audit.charged == 1);
}
