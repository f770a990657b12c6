// One line of a program, of its numbers. Whoever puts one has 84 bytes for it, or 126 for one of speeds.
#![tactic(auto)]

ghost use Rattle.std.specs.Prelude.{◌+◌, ◌*◌, ◌≤◌, length};
ghost use Rattle.decimal.specs.Digits.{Put};
ghost use Rattle.line.specs.Line.{numbers_line, bounds_line, refusal_line, speeds_line};

use decimal::{put_number, put_text};

// The numbers before the last, a space behind each, and the last with the end of the line; a number takes 21 bytes at most.
fn put_numbers(out: &mut [u8], at: usize, before: &[u64], last: u64) -> usize
    requires { at + 21 * length before.now + 21 ≤ length out.old }
    ensures put { Put out.old at (numbers_line before.now last) out.new result }
    ensures upper_bound { result ≤ at + 21 * length before.now + 21 }
{
    let mut end = at;
    for n in before {
        end = put_number(out, end, *n, b' ');
    }
    put_number(out, end, last, b'\n')
}

// Number, IMO number, lower, upper. The longest line has four numbers of 20 digits, each with a byte behind it: 84 bytes.
pub fn put_bounds(out: &mut [u8], at: usize, n: u64, imo: u64, lower: u64, upper: u64) -> usize
    requires { at + 84 ≤ length out.old }
    ensures put { Put out.old at (bounds_line n imo lower upper) out.new result }
    ensures upper_bound { result ≤ at + 84 }
{
    put_numbers(out, at, &[n, imo, lower], upper)
}

// Number, `refused`, refusal number.
pub fn put_refusal(out: &mut [u8], at: usize, n: u64, refusal: u64) -> usize
    requires { at + 84 ≤ length out.old }
    ensures put { Put out.old at (refusal_line n refusal) out.new result }
    ensures upper_bound { result ≤ at + 84 }
{
    let a = put_number(out, at, n, b' ');
    let b = put_text(out, a, b"refused ");
    put_number(out, b, refusal, b'\n')
}

// Number, IMO number, lower and upper of the most favourable ship, floor and ceiling of the least favourable: six numbers, 126 bytes. They come one
// by one, as for a line of bounds: the structs that hold them belong to crates that know a ship, and a line knows numbers alone.
pub fn put_speeds(
    out: &mut [u8],
    at: usize,
    n: u64,
    imo: u64,
    lower: u64,
    upper: u64,
    floor: u64,
    ceiling: u64,
) -> usize
    requires { at + 126 ≤ length out.old }
    ensures put { Put out.old at (speeds_line n imo lower upper floor ceiling) out.new result }
    ensures upper_bound { result ≤ at + 126 }
{
    put_numbers(out, at, &[n, imo, lower, upper, floor], ceiling)
}
