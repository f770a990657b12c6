// Bytes of a record: little-endian numbers of any width, runs of them, the two check sums, and zeros.

#![tactic(auto)]

ghost use Rattle.std.specs.Prelude.{◌≡◌, ◌+◌, ◌≤◌, length, ◌==◌};
ghost use Rattle.fields.specs.Numbers.{bytes_of, value_of, number_at};
ghost use Rattle.fields.specs.Runs.{total, widths_of, packed};
ghost use Rattle.fields.specs.Checks.{sums};

#[derive(Drop)]
pub struct Sums {
    pub a: u16,
    pub b: u16,
}

// The two check sums of bytes, each modulo 65,536. A byte stays in the first sum for every step from its own to the last,
// so the second has it that many times; with no step waiting for the one before, many bytes are summed at a time.
pub fn check_sums(bytes: &[u8]) -> Sums
    ensures { result ≡ sums 1 0 bytes.now }
{
    let mut a: u16 = 1;
    let mut b: u16 = (bytes.len() % 65536) as u16;
    for (i, byte) in bytes.iter().enumerate() {
        let times = ((bytes.len() - i) % 65536) as u32;
        a = a.wrapping_add(u16::from(*byte));
        b = b.wrapping_add((times * u32::from(*byte) % 65536) as u16);
    }
    Sums { a, b }
}

// Whether every byte is 0. No early way out: a fold without branches runs many bytes at a time (`all`, tried, takes some 80 times as
// long over a block's zeros).
pub fn all_zero(bytes: &[u8]) -> bool
    ensures { result ≡ (value_of bytes.now == 0) }
{
    bytes.iter().fold(true, |zero, byte| zero & (*byte == 0))
}

// The number in the `width` bytes from `at`, lowest first. A block has 512 bytes wherever a field is read: rule 1.
pub fn number_at(bytes: &[u8], at: usize, width: usize) -> u64
    requires { (width ≤ 8) × (at + width ≤ length bytes.now) }
    ensures { result ≡ number_at bytes.now at width }
{
    let mut n: u64 = 0;
    for byte in bytes[at..at + width].iter().rev() {
        n = n * 256 + u64::from(*byte);
    }
    n
}

// The bytes become the number's, lowest first.
pub fn put(bytes: &mut [u8], number: u64)
    ensures { bytes.new ≡ bytes_of (length bytes.old) number }
{
    let mut rest = number;
    for byte in bytes.iter_mut() {
        *byte = (rest % 256) as u8;
        rest = rest / 256;
    }
}

// The bytes become the fields', each a width and a number, one after the other; the place is counted along, since the widths differ. A part has
// just the length of its fields in the block's table.
pub fn put_run(part: &mut [u8], fields: &[(usize, u64)])
    requires { total (widths_of fields.now) ≡ length part.old }
    ensures { part.new ≡ packed fields.now }
{
    let mut at = 0;
    for (width, number) in fields {
        let end = at + *width;
        put(&mut part[at..end], *number);
        at = end;
    }
}
