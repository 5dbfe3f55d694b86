//! Gates that put threads into an order. One holds a thread inside its visit while another is answered its lines. One
//! makes threads take turns, line by line. One lets both begin together. The others hold nobody, and note or count
//! their calls.

use script_replay::Gate;
use std::alloc::{AllocError, Global};
use std::sync::atomic::{AtomicBool, AtomicU64, Ordering};
use std::thread;

// The longest wait of a thread, in turns: a turn is a look and a yield. If no second thread can be started, the lines of
// the CPUs are served in turn: then a wait for the other CPU uses up its turns, and the test fails instead of hanging.
const WAIT_TURNS: u32 = 1_000_000;

/// CPU 1 stays inside its visit until CPU 2 was answered this many lines. CPU 2 begins its first line once CPU 1 is
/// inside.
#[derive(Drop)]
pub struct HeldVisit {
    lines_awaited: u64,
    visit_is_open: AtomicBool,
    lines_answered: AtomicU64,
    thread_is_late: AtomicBool,
}

impl HeldVisit {
    /// Nothing has happened yet.
    pub fn until(lines_awaited: u64) -> HeldVisit {
        HeldVisit {
            lines_awaited,
            visit_is_open: AtomicBool::new(false),
            lines_answered: AtomicU64::new(0),
            thread_is_late: AtomicBool::new(false),
        }
    }

    /// Whether a thread's wait used up all its turns.
    pub fn thread_was_late(&self) -> bool {
        self.thread_is_late.load(Ordering::SeqCst)
    }
}

impl Gate for HeldVisit {
    fn before(&self, cpu: u32, _line: usize) {
        if cpu != 2 {
            return;
        }
        for _ in 0..WAIT_TURNS {
            if self.visit_is_open.load(Ordering::SeqCst) {
                return;
            }
            thread::yield_now();
        }
        self.thread_is_late.store(true, Ordering::SeqCst);
    }

    fn inside(&self, cpu: u32) {
        if cpu != 1 {
            return;
        }
        self.visit_is_open.store(true, Ordering::SeqCst);
        for _ in 0..WAIT_TURNS {
            if self.lines_answered.load(Ordering::SeqCst) >= self.lines_awaited {
                return;
            }
            thread::yield_now();
        }
        self.thread_is_late.store(true, Ordering::SeqCst);
    }

    fn after(&self, cpu: u32, _line: usize) {
        if cpu == 2 {
            self.lines_answered.fetch_add(1, Ordering::SeqCst);
        }
    }
}

/// A CPU begins a line when it is that line's turn.
#[derive(Drop)]
pub struct LineTurns {
    lines_in_order: [usize; 7],
    lines_answered: AtomicU64,
    thread_is_late: AtomicBool,
}

impl LineTurns {
    /// The turns are those of the lines with these numbers, in this order.
    pub fn of(lines_in_order: [usize; 7]) -> LineTurns {
        LineTurns {
            lines_in_order,
            lines_answered: AtomicU64::new(0),
            thread_is_late: AtomicBool::new(false),
        }
    }

    /// Whether a thread's wait used up all its turns.
    pub fn thread_was_late(&self) -> bool {
        self.thread_is_late.load(Ordering::SeqCst)
    }
}

impl Gate for LineTurns {
    fn before(&self, _cpu: u32, line: usize) {
        for _ in 0..WAIT_TURNS {
            let answered = self.lines_answered.load(Ordering::SeqCst);
            if self.lines_in_order.get(answered as usize) == Some(&line) {
                return;
            }
            thread::yield_now();
        }
        self.thread_is_late.store(true, Ordering::SeqCst);
    }

    fn inside(&self, _cpu: u32) {}

    fn after(&self, _cpu: u32, _line: usize) {
        self.lines_answered.fetch_add(1, Ordering::SeqCst);
    }
}

/// The thread that arrives first waits at its first line for the other one.
#[derive(Drop)]
pub struct BothThreads {
    lines_begun: AtomicU64,
    thread_is_late: AtomicBool,
}

impl BothThreads {
    /// No thread has arrived yet.
    pub fn new() -> BothThreads {
        BothThreads {
            lines_begun: AtomicU64::new(0),
            thread_is_late: AtomicBool::new(false),
        }
    }

    /// Whether the first thread's wait used up all its turns.
    pub fn thread_was_late(&self) -> bool {
        self.thread_is_late.load(Ordering::SeqCst)
    }
}

impl Gate for BothThreads {
    fn before(&self, _cpu: u32, _line: usize) {
        if self.lines_begun.fetch_add(1, Ordering::SeqCst) > 0 {
            return;
        }
        for _ in 0..WAIT_TURNS {
            if self.lines_begun.load(Ordering::SeqCst) > 1 {
                return;
            }
            thread::yield_now();
        }
        self.thread_is_late.store(true, Ordering::SeqCst);
    }

    fn inside(&self, _cpu: u32) {}

    fn after(&self, _cpu: u32, _line: usize) {}
}

/// Counts the lines that were begun and those that were answered.
#[derive(Drop)]
pub struct CountedLines {
    lines_begun: AtomicU64,
    lines_answered: AtomicU64,
}

impl CountedLines {
    /// No line was begun yet.
    pub fn new() -> CountedLines {
        CountedLines {
            lines_begun: AtomicU64::new(0),
            lines_answered: AtomicU64::new(0),
        }
    }

    /// How many lines were answered.
    pub fn answered(&self) -> u64 {
        self.lines_answered.load(Ordering::SeqCst)
    }

    /// Whether fewer lines were answered than begun.
    pub fn has_cut_a_line(&self) -> bool {
        self.answered() < self.lines_begun.load(Ordering::SeqCst)
    }
}

impl Gate for CountedLines {
    fn before(&self, _cpu: u32, _line: usize) {
        self.lines_begun.fetch_add(1, Ordering::SeqCst);
    }

    fn inside(&self, _cpu: u32) {}

    fn after(&self, _cpu: u32, _line: usize) {
        self.lines_answered.fetch_add(1, Ordering::SeqCst);
    }
}

/// A call of a gate. `inside` doesn't know its line.
#[derive(Clone, Copy, Debug, PartialEq, Eq)]
pub enum GateCall {
    Before { line: usize },
    Inside,
    After { line: usize },
}

impl GateCall {
    // The call as a number other than 0.
    fn code(self) -> u64 {
        match self {
            GateCall::Before { line } => (line as u64).wrapping_mul(3).wrapping_add(1),
            GateCall::Inside => u64::MAX,
            GateCall::After { line } => (line as u64).wrapping_mul(3).wrapping_add(2),
        }
    }
}

// The calls by one CPU, which are made one after the other.
#[derive(Drop)]
struct CallsOfCpu {
    codes: Vec<AtomicU64>,
    count: AtomicU64,
}

impl CallsOfCpu {
    // Room for 32 calls.
    fn new(alloc: Global) -> Result<CallsOfCpu, AllocError> {
        let mut codes = Vec::new(alloc);
        for _ in 0..32 {
            codes.push(AtomicU64::new(0))?;
        }
        Ok(CallsOfCpu {
            codes,
            count: AtomicU64::new(0),
        })
    }

    fn note(&self, call: GateCall) {
        let place = self.count.fetch_add(1, Ordering::SeqCst);
        if let Some(code) = self.codes.get(place as usize) {
            code.store(call.code(), Ordering::SeqCst);
        }
    }

    // Whether exactly these calls were made.
    fn are(&self, calls: &[GateCall]) -> bool {
        if self.count.load(Ordering::SeqCst) != calls.len() as u64 {
            return false;
        }
        for (code, call) in self.codes.iter().zip(calls.iter()) {
            if code.load(Ordering::SeqCst) != call.code() {
                return false;
            }
        }
        true
    }
}

/// Notes the calls by CPU 1, and separately those by any other CPU.
#[derive(Drop)]
pub struct NotedCalls {
    by_first: CallsOfCpu,
    by_others: CallsOfCpu,
}

impl NotedCalls {
    /// No call was made yet.
    pub fn new(alloc: Global) -> Result<NotedCalls, AllocError> {
        Ok(NotedCalls {
            by_first: CallsOfCpu::new(alloc)?,
            by_others: CallsOfCpu::new(alloc)?,
        })
    }

    // The calls by this CPU.
    fn calls_by(&self, cpu: u32) -> &CallsOfCpu {
        if cpu == 1 {
            &self.by_first
        } else {
            &self.by_others
        }
    }

    /// Whether exactly these calls were made by CPU 1, and these by the others.
    pub fn are(&self, by_first: &[GateCall], by_others: &[GateCall]) -> bool {
        self.by_first.are(by_first) && self.by_others.are(by_others)
    }
}

impl Gate for NotedCalls {
    fn before(&self, cpu: u32, line: usize) {
        self.calls_by(cpu).note(GateCall::Before { line });
    }

    fn inside(&self, cpu: u32) {
        self.calls_by(cpu).note(GateCall::Inside);
    }

    fn after(&self, cpu: u32, line: usize) {
        self.calls_by(cpu).note(GateCall::After { line });
    }
}
