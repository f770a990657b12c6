// The lines of a file, whatever is asked of each block; and the index as what is asked: a block's number and the desk's answer.
#![tactic(auto)]

ghost use Rattle.std.specs.Prelude.{◌≡◌, ℕ, ◌+◌, ◌*◌, ◌≤◌, ◌<◌, List, length};
ghost use Rattle.std.proofs.Common.{rules};
ghost use Rattle.decimal.specs.Digits.{Put};
ghost use Rattle.lines.specs.Lines.{line_of, pieces, lines_to, lines_within};

use line::{put_bounds, put_refusal};

// What is asked of each block. Its line depends on its number and its own bytes alone.
pub trait Question {
    ghost line: { ℕ → List ℕ → List ℕ };

    ghost LONGEST: { ℕ };

    // How many bytes the longest line has.
    const LONGEST: usize;

    // The line of block n from `at` on; answers the place behind it.
    fn put_line(out: &mut [u8], at: usize, n: u64, block: &[u8]) -> usize
        requires { at + LONGEST ≤ length out.old }
        ensures put { Put out.old at (line n block.now) out.new result }
        ensures upper_bound { result ≤ at + LONGEST };

    // No line of any question is longer than one with six numbers.
    ghost fits: { (0 < LONGEST) × (LONGEST ≤ 126) };
}

// The index of each block, as `fleet` asks.
#[derive(Clone, Copy)]
pub struct Index;

impl Question for Index {
    ghost line = { line_of };

    ghost LONGEST = { 84 };

    ghost fits = { Prim.search rules };

    const LONGEST: usize = 84;

    fn put_line(out: &mut [u8], at: usize, n: u64, block: &[u8]) -> usize {
        match desk::bounds_of_block(block) {
            Ok(bounds) => put_bounds(
                out,
                at,
                n,
                fields::number_at(block, 4, 4),
                bounds.lower,
                bounds.upper,
            ),
            Err(refusal) => put_refusal(out, at, n, u64::from(ship::number(refusal))),
        }
    }
}

// The lines of all the pieces, one after the other.
fn put_pieces<Q: Question>(out: &mut [u8], first: u32, bytes: &[u8]) -> usize
    requires { pieces bytes.now * Q.LONGEST ≤ length out.old }
    ensures { Put out.old 0 (lines_to Q.line first bytes.now (pieces bytes.now)) out.new result }
{
    let mut end = 0;
    for (i, block) in bytes.chunks(512).enumerate() {
        end = Q::put_line(out, end, u64::from(first) + i as u64, block);
    }
    end
}

// The lines of the blocks in `bytes`, of which the first has the number `first`, at the start of the buffer; answers how many bytes
// they are. A last piece of less than 512 bytes has its line too. A buffer with less room than the longest line takes, for each line, gets none.
pub fn put_lines<Q: Question>(out: &mut [u8], first: u32, bytes: &[u8]) -> usize
    ensures { Put out.old 0 (lines_within Q.LONGEST out.old Q.line first bytes.now) out.new result }
{
    if out.len() / Q::LONGEST < bytes.len().div_ceil(512) {
        return 0;
    }
    put_pieces::<Q>(out, first, bytes)
}
