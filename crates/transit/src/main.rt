// The program: reads a script that plans, and answers it line by line.
#![tactic(auto)]

use planning::plan;
use std::io;
use std::process::ExitCode;

// Each program has its own: a status says nothing that a function of a library could promise.
fn main(rt: HostRuntime) -> ExitCode {
    match plan(&rt, &mut io::writer(&rt)) {
        Ok(tally) if tally.errors == 0 => ExitCode::SUCCESS,
        Ok(_) => ExitCode::FAILURE,
        Err(error) => {
            let _ = eprintln!(rt; "transit: {error}");
            ExitCode::FAILURE
        }
    }
}
