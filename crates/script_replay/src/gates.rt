//! What a caller does around its lines and inside its visits; a test can hold a CPU there.

/// Called around each line of a CPU, and once in each visit for one. It changes nothing of the system.
pub trait Gate {
    /// Before the CPU's line of this number. Visits don't call it, because they know no lines: the caller that serves a
    /// CPU line by line does, right before each.
    fn before(&self, cpu: u32, line: usize);

    /// Inside a visit of the CPU, while the lock is held and before the command is served.
    fn inside(&self, cpu: u32);

    /// After the CPU's line of this number was answered. As with `before`, the caller that serves the lines calls it.
    fn after(&self, cpu: u32, line: usize);
}

/// A gate that is always open: it does nothing.
#[derive(Clone, Copy, Debug)]
pub struct NoGate;

impl Gate for NoGate {
    fn before(&self, _cpu: u32, _line: usize) {}

    fn inside(&self, _cpu: u32) {}

    fn after(&self, _cpu: u32, _line: usize) {}
}
