//! A home may go to another thread.

use crate::home::Home;
use cpu_part::BootName;

fn crosses<T: Send>(value: T) -> T {
    value
}

/// Returns a home that may go to another thread: that its type is `Send` is proved here.
pub fn pass_on<N: BootName + Send + Sync>(home: Home<N>) -> Home<N> {
    crosses(home)
}
