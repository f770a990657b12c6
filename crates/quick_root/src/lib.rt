// The whole cube root, quickly: a table has the start, and Newton's rule the rest.
#![tactic(auto)]

ghost use Rattle.root.specs.Root.{Root};
ghost use Rattle.quick_root.specs.Start.{Eighths, Start};

// How often n is divided by 8 to fall below 1,024.
fn eighths(n: u64) -> u64
    ensures { Eighths n result }
{
    56u64.saturating_sub(n.leading_zeros() as u64) / 3
}

// A start that is not below the root, by the entry for the first digits of n.
fn start(n: u64) -> u64
    ensures { Start n result }
{
    let k = eighths(n);
    let entry = root_table::entry((n >> (3 * k)) + 1);
    (((entry + 1) << k) / 1024).min(2642245)
}

// The whole cube root, the same number as `root::cube_root` finds digit after digit.
pub fn cube_root(n: u64) -> u64
    ensures { Root 3 n result }
{
    let mut r = start(n);
    // Until it is the root, and not for so many turns: no `for`.
    while n < r * r * r {
        r = (2 * r + n / (r * r)) / 3;
    }
    r
}
