//! The program `memcg`: memory control groups over a zone of page frames, driven by a script.
#![tactic(auto)]

use load_options::command_line::words;
use load_run::fault::ProgramFault;
use load_run::fault_lines::report_fault;
use load_run::program::drive;
use std::process::ExitCode;

fn main(rt: HostRuntime) -> ExitCode {
    let mut faults = rt.stderr();
    let status = match words(&rt) {
        Ok(words) => {
            let mut input = rt.stdin();
            let mut output = rt.stdout();
            drive(
                &rt,
                rt.alloc(),
                &words,
                &mut input,
                &mut output,
                &mut faults,
            )
        }
        Err(fault) => report_fault(&ProgramFault::Words(fault), &mut faults),
    };
    ExitCode::from(status)
}
