// A number times a fraction in units of 2^-30, rounded down and up, where the product itself may have more than 64 bits.
ghost use Rattle.std.specs.Prelude.{◌≡◌, ◌*◌, ◌^◌, ◌<◌};
ghost use Rattle.number.specs.Division.{Divided};
ghost use Rattle.number.specs.Product.{scaled_down, scaled_up};

use crate::division::Quotient;

// n * p over 2^30, by the digits of both above and below 2^30: how often it goes, and what is left. The bound on n * p stands in three contracts: a
// struct of two factors would be made for a call and taken apart in it.
fn divide_product(n: u64, p: u64) -> Quotient
    requires { n * p < 2 ^ 93 }
    ensures { Divided (n * p) (2 ^ 30) result.whole result.rest }
{
    let low = p % 1073741824;
    let rest = n % 1073741824 * low;
    Quotient {
        whole: n * (p / 1073741824) + n / 1073741824 * low + rest / 1073741824,
        rest: rest % 1073741824,
    }
}

// n * p / 2^30 rounded down; a function for each way to round, as in `division`. Emissions and the parts of f_j are small enough: their users show it.
pub fn scaled_down(n: u64, p: u64) -> u64
    requires { n * p < 2 ^ 93 }
    ensures { result ≡ scaled_down n p }
{
    divide_product(n, p).whole
}

// n * p / 2^30 rounded up, as far as `scaled_down` goes.
pub fn scaled_up(n: u64, p: u64) -> u64
    requires { n * p < 2 ^ 93 }
    ensures { result ≡ scaled_up n p }
{
    divide_product(n, p).rounded_up()
}
