// The desk's program: for each block of standard input a line with the bounds of her index, or her refusal.
#![tactic(auto)]

ghost use Rattle.std.specs.Prelude.{◌≡◌};
ghost use Rattle.lines.specs.Lines.{line_of};

use lines::Index;
use program::{Ending, Program};
use std::process::ExitCode;

// All of this program, whose question is the index.
fn run<P: Program>(rt: HostRuntime) -> Ending
    requires { P.line ≡ line_of }
{
    program::run::<P>(rt)
}

fn main(rt: HostRuntime) -> ExitCode {
    run::<Index>(rt).status()
}
