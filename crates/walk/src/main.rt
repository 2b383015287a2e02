//! Walks through a plan in shorthand: each action, and what the check answers, in words.
#![tactic(auto)]

ghost use Rattle.std.specs.Prelude.{◌≡◌, OnOk, OnErr};
ghost use Rattle.std.specs.Process.{exit_status};

mod calls;
mod input;
mod lines;
mod steps;
mod words;

use input::{Stop, plan_of, text_of};
use lines::tell;
use std::process::ExitCode;
use steps::walk_through;

fn walk(rt: &HostRuntime) -> Result<(), Stop> {
    let heap = rt.alloc();
    let text = text_of(rt)?;
    let plan = plan_of(heap, &text)?;
    let walk = walk_through(heap, &plan.rule, &plan.actions)?;
    tell(rt, plan.rule, &walk)?;
    Ok(())
}

/// Status 0 after a walk; where there is none, the reason on standard error, and status 1.
fn ended(rt: &HostRuntime, walked: Result<(), Stop>) -> ExitCode
    ensures ok { OnOk walked (exit_status result ≡ 0) }
    ensures err { OnErr walked (exit_status result ≡ 1) }
{
    match walked {
        Ok(()) => ExitCode::SUCCESS,
        Err(stop) => {
            let _ = eprintln!(rt; "{stop}");
            ExitCode::FAILURE
        }
    }
}

fn main(rt: HostRuntime) -> ExitCode {
    let walked = walk(&rt);
    ended(&rt, walked)
}
