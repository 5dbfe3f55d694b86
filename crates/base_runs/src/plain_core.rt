//! A run of the core on plain lists, and a check of its log. `tests/runs/check-core` has more runs, as logs.

use group_tree::group::GroupId;
use group_tree::path::PathText;
use mem_core::check::check;
use mem_core::run::run;
use mem_core::verdict::Verdict;
use mem_core::{Action, Answer, Config, Step};
use std::alloc::{AllocError, Global};
use std::process::Abort;
use std::test::Fail;
use zone_blocks::block::Block;
use zone_blocks::choices::Choices;
use zone_blocks::order::Order;

const SIXTEEN_FRAMES: Config = Config {
    frames: 16,
    cpus: 1,
    batch: 1,
    high: 1,
    stock: 1,
    choices: Choices::NONE,
};

// A seat, its step, and the required answer.
type CoreRow = (u32, Action, Answer);

// A group is made, and a page is granted and placed for it. The lock can't be released while the page is pending.
fn pending_page(path: PathText, group: GroupId, order: Order) -> [CoreRow; 6] {
    let block = Block { at: 0, order };
    [
        (1, Action::Lock, Answer::Done),
        (0, Action::Make { path }, Answer::Number(group)),
        (0, Action::Grant { group, pages: 1 }, Answer::Granted),
        (1, Action::Unlock, Answer::Illegal),
        (
            0,
            Action::PlaceBlock { group, order },
            Answer::Placed(block),
        ),
        (1, Action::Unlock, Answer::Done),
    ]
}

// The steps of the rows.
fn steps_of(alloc: Global, rows: &[CoreRow]) -> Result<Vec<Step>, AllocError> {
    let mut steps = Vec::new(alloc);
    for (seat, action, _) in rows {
        let step = Step {
            seat: *seat,
            action: *action,
        };
        steps.push(step)?;
    }
    Ok(steps)
}

// The steps with these answers.
fn log_of(
    alloc: Global,
    steps: &[Step],
    answers: &[Answer],
) -> Result<Vec<(Step, Answer)>, AllocError> {
    let mut log = Vec::new(alloc);
    for (step, answer) in steps.iter().zip(answers.iter()) {
        log.push((*step, *answer))?;
    }
    Ok(log)
}

// Each answer is the required one.
fn are_answered(rt: &impl Abort, rows: &[CoreRow], answers: &[Answer]) {
    assert!(rt; answers.len() == rows.len());
    for ((_, _, wanted), answer) in rows.iter().zip(answers.iter()) {
        assert!(rt; *answer == *wanted);
    }
}

#[test]
fn a_run_is_answered_and_its_log_is_legal(rt: HostRuntime) -> Result<(), Fail> {
    let path = PathText::of(b"/a").unwrap();
    let rows = pending_page(path, GroupId::of(1).unwrap(), Order::of(0).unwrap());
    let steps = steps_of(rt.alloc(), &rows)?;
    let answers = run(rt.alloc(), SIXTEEN_FRAMES, steps.as_slice())?;
    are_answered(&rt, &rows, answers.as_slice());
    let log = log_of(rt.alloc(), steps.as_slice(), answers.as_slice())?;
    let verdict = check(rt.alloc(), SIXTEEN_FRAMES, log.as_slice())?;
    assert!(&rt; verdict == Verdict::Legal);
    Ok(())
}
