//! Tries the cases of the files that its input names, one a line, and says how many agree.
#![tactic(auto)]

use gq_trials::{Tally, try_named};
use std::process::ExitCode;

fn main(rt: HostRuntime) -> ExitCode {
    let mut tally = Tally::new();
    if !try_named(&rt, &mut tally) {
        let _ = println!(rt; "the cases could not be tried to their end");
        return ExitCode::FAILURE;
    }
    if println!(rt; "{} cases agree, {} do not", tally.agree, tally.differ).is_err() {
        return ExitCode::FAILURE;
    }
    if tally.differ == 0 {
        ExitCode::SUCCESS
    } else {
        ExitCode::FAILURE
    }
}
