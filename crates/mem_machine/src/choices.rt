//! What the boot chose, as the machine keeps it.

ghost use Rattle.std.specs.Prelude.{◌≡◌};

use cpu_part::{BootName, Tables};

/// Whether the boot chose that a reclaim begins with a pass of shares.
pub(crate) fn is_proportional<N: BootName>(tables: &Tables<N>) -> bool
    ensures { result ≡ N.table.choices.is_proportional }
{
    tables.words.choices().is_proportional
}
