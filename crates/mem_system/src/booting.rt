//! The call that boots a zone. It has its own file, because a file can't have a function and a type whose names differ
//! only in case.

ghost use Rattle.std.specs.Prelude.{◌≡◌, ◌↔◌, IfOk};
ghost use Rattle.mem_system.specs.Boots.{IsSizedAs};
ghost use Rattle.mem_system.specs.declared.boots.BootFault.TheVariants.{BadConfig};
ghost use Rattle.zone_blocks.specs.Config.{IsValidConfig};

use crate::boots::{Boot, BootFault};
use boot_words::BootWords;
use std::alloc::Global;
use zone_blocks::config::Config;

/// Boots a zone of these sizes: makes the table of its words, with all its seats. `BadConfig` is returned exactly if a size
/// is out of its range, else `NoMemory` if memory runs out.
pub fn boot(alloc: Global, sizes: Config) -> Result<Boot, BootFault>
    ensures sizes { IfOk result (λ boot. boot.sizes ≡ sizes) }
    ensures sized { IfOk result (λ boot. IsSizedAs sizes boot.table) }
    ensures bad_config { (result ≡ Err BadConfig) ↔ (¬ IsValidConfig sizes) }
{
    if !sizes.is_valid() {
        return Err(BootFault::BadConfig);
    }
    let (words, zone, cpus) = BootWords::new(alloc, sizes.frames, sizes.cpus, sizes.choices)?;
    Ok(Boot {
        sizes,
        words,
        zone,
        cpus,
    })
}
