//! What a new boot answers to a script.

ghost use Rattle.std.specs.Prelude.{◌≡◌, IfErr, IfOk};
ghost use Rattle.zone_blocks.specs.Config.{IsValidConfig};
ghost use Rattle.tempolemon_c.specs.Replays.{HasReplayCause, IsReplayAnswer};

use crate::fault::ReplayFault;
use load_run::Form;
use load_run::replaying::replay_on_boot;
use mem_system::{Boot, BootFault, boot};
use script_lines::fault::ScriptFault;
use script_lines::script::parse_script;
use std::alloc::Global;
use std::marker::Brand;
use zone_blocks::config::Config;

/// The answers of a new boot of these sizes to the script, with explanations and the report of the end if these are
/// asked for. The sizes are judged before the script. The boot has ended when the call returns.
pub fn answer_script(
    alloc: Global,
    sizes: Config,
    script: &[u8],
    is_explained: bool,
    is_audited: bool,
) -> Result<Vec<u8>, ReplayFault>
    ensures answers { IfOk result (λ text. IsReplayAnswer sizes is_explained is_audited script.now text.items) }
    ensures fault { IfErr result (HasReplayCause sizes script.now) }
{
    match boot(alloc, sizes) {
        Ok(boot) => answer_on_boot(alloc, boot, &sizes, script, is_explained, is_audited),
        Err(BootFault::BadConfig) => Err(ReplayFault::BadConfig),
        Err(BootFault::NoMemory) => Err(ReplayFault::NoMemory),
    }
}

// The answers of this boot to the script.
fn answer_on_boot(
    alloc: Global,
    boot: Boot,
    sizes: &Config,
    script: &[u8],
    is_explained: bool,
    is_audited: bool,
) -> Result<Vec<u8>, ReplayFault>
    requires valid { IsValidConfig sizes.now }
    requires sizes { boot.sizes ≡ sizes.now }
    ensures answers { IfOk result (λ text. IsReplayAnswer sizes.now is_explained is_audited script.now text.items) }
    ensures fault { IfErr result (HasReplayCause sizes.now script.now) }
{
    let form = Form {
        is_explained,
        is_numbered: false,
    };
    match parse_script(alloc, script, sizes) {
        Ok(lines) => match replay_on_boot::<Brand>(alloc, boot, &lines, form, is_audited) {
            Ok(text) => Ok(text),
            Err(_) => Err(ReplayFault::NoMemory),
        },
        Err(ScriptFault::BadLine(number)) => Err(ReplayFault::BadLine(number)),
        Err(ScriptFault::NoMemory) => Err(ReplayFault::NoMemory),
    }
}
