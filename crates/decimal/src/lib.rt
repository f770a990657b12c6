// Decimal digits, and bytes put one after the other into a lent buffer.

#![tactic(auto)]

ghost use Rattle.std.specs.Prelude.{◌≡◌, [], ◌∷◌, ◌++◌, ◌+◌, ◌≤◌, length};
ghost use Rattle.decimal.specs.Digits.{decimal, Put};

// How many digits n has; 0 has one.
fn width(n: u64) -> usize
    ensures value { result ≡ length (decimal n) }
    ensures upper_bound { result ≤ 20 }
{
    match n.checked_ilog10() {
        Some(log) => log as usize + 1,
        None => 1,
    }
}

// The part becomes the digits of n, which are found from the last to the first. (Two a turn take fewer instructions and no less time: their number
// being odd or even is one more guess.) By index: once the borrow of an `iter_mut` is over, a proof knows the slice's length and not its elements
// (Rattle's NOT_COVERED.md).
fn put_digits(part: &mut [u8], n: u64)
    requires { length part.old ≡ length (decimal n) }
    ensures { part.new ≡ decimal n }
{
    let mut rest = n;
    for i in (0..part.len()).rev() {
        part[i] = b'0' + (rest % 10) as u8;
        rest /= 10;
    }
}

// The digits of n from `at` on, and a byte after them; answers the place behind that. A line has room: `put_lines` tests the buffer.
//
// The buffer and the place stay two parameters, here and in what is built of this. Tried: a struct of both, with methods. They are proved, but then
// each contract and each loop says once more, by the reference's ghost name, that it is the same buffer still. Tried: `write!`. It promises its
// bytes only where it answers Ok, and nothing promises that it does; `put` holds always.
pub fn put_number(out: &mut [u8], at: usize, n: u64, after: u8) -> usize
    requires { at + 21 ≤ length out.old }
    ensures put { Put out.old at (decimal n ++ (after ∷ [])) out.new result }
    ensures upper_bound { result ≤ at + 21 }
{
    let end = at + width(n);
    put_digits(&mut out[at..end], n);
    out[end] = after;
    end + 1
}

// The text from `at` on; answers the place behind it. It has room as a number has.
pub fn put_text(out: &mut [u8], at: usize, text: &[u8]) -> usize
    requires { at + length text.now ≤ length out.old }
    ensures { Put out.old at text.now out.new result }
{
    let end = at + text.len();
    out[at..end].copy_from_slice(text);
    end
}
