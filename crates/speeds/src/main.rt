// The speed by itself: for each block of standard input a line with the speed bounds of its most and its least favourable ship, or her refusal.
#![tactic(auto)]

use asked_lines::Speed;
use std::process::ExitCode;

fn main(rt: HostRuntime) -> ExitCode {
    program::run::<Speed>(rt).status()
}
