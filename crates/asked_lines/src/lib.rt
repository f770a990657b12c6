// The speed as what is asked of each block; and the lines of whatever is asked, with one rule for the room that they want.
#![tactic(auto)]

ghost use Rattle.std.specs.Prelude.{◌≡◌, ◌+◌, ◌*◌, ◌≤◌, ◌<◌, length};
ghost use Rattle.std.proofs.Common.{rules};
ghost use Rattle.decimal.specs.Digits.{Put};
ghost use Rattle.lines.specs.Lines.{lines_within};
ghost use Rattle.asked_lines.specs.Lines.{speed_line_of};

use line::{put_refusal, put_speeds};
use lines::Question;

// The speed of each block, as `speeds` asks.
#[derive(Clone, Copy)]
pub struct Speed;

impl Question for Speed {
    ghost line = { speed_line_of };

    ghost LONGEST = { 126 };

    const LONGEST: usize = 126;

    fn put_line(out: &mut [u8], at: usize, n: u64, block: &[u8]) -> usize {
        match desk::speeds_of_block(block) {
            Ok(v) => put_speeds(
                out,
                at,
                n,
                fields::number_at(block, 4, 4),
                v.most.lo,
                v.most.hi,
                v.least.lo,
                v.least.hi,
            ),
            Err(refusal) => put_refusal(out, at, n, u64::from(ship::number(refusal))),
        }
    }

    ghost fits = { Prim.search rules };
}

// The lines of the blocks in `bytes`, as `lines::put_lines` puts them, where the buffer has the bytes of the longest line of any question, 126,
// for each; otherwise none. (Beside `lines::put_lines`, which asks for the longest line of its own question: here 126 bytes a line are the
// promise, whatever is asked, and docs/PROMISES.md names both.)
pub fn put_lines<Q: Question>(out: &mut [u8], first: u32, bytes: &[u8]) -> usize
    ensures { Put out.old 0 (lines_within 126 out.old Q.line first bytes.now) out.new result }
{
    if out.len() / 126 < bytes.len().div_ceil(512) {
        return 0;
    }
    lines::put_lines::<Q>(out, first, bytes)
}
