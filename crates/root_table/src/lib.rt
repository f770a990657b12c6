// A table of 1,024 cube roots.
#![tactic(auto)]

ghost use Rattle.std.specs.Prelude.{◌*◌, ◌^◌, ◌≤◌};
ghost use Rattle.root.specs.Root.{Root};

mod table;

use crate::table::ROOTS;

// Entry i: the greatest whole number whose cube is at most i times 2^30.
pub fn entry(i: u64) -> u64
    requires { i ≤ 1024 }
    ensures { Root 3 (i * 2 ^ 30) result }
{
    ROOTS[i as usize] as u64
}
