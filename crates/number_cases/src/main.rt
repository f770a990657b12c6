// Works out the cases that it reads, for the tests from outside: a case is five little-endian words of 8 bytes, what is
// asked and up to four numbers, and its answer is a line of numbers, or `-` where the numbers are outside the function's domain.

#![tactic(auto)]

ghost use Rattle.std.specs.Prelude.{ℕ};
ghost use Rattle.power.specs.Power.{Raisable};

use fields::number_at;
use power::Bounds;
use std::fmt;
use std::io::Read;

// What is asked of a, b, c and d.
#[derive(Clone, Copy)]
enum Question {
    SquareRoot,
    PlainCubeRoot,
    RootOfRatio,
    Millionths,
    Power,
    PlainPower,
    LongQuotient,
    QuickCubeRoot,
}

// A number that stands for no question.
#[derive(Clone, Copy)]
struct UnknownQuestion;

// 1 is the square root of a; 2 its plain cube root; 3 the cube root of a/b; 4 a/b in millionths, rounded down and up;
// 5 the power (a/b)^(c/d); 6 the plain power; 7 a/b in units of 10^-15, rounded down and up; 8 the quick cube root of a.
impl TryFrom<u64> for Question {
    type Error = UnknownQuestion;

    fn try_from(asked: u64) -> Result<Question, UnknownQuestion> {
        match asked {
            1 => Ok(Question::SquareRoot),
            2 => Ok(Question::PlainCubeRoot),
            3 => Ok(Question::RootOfRatio),
            4 => Ok(Question::Millionths),
            5 => Ok(Question::Power),
            6 => Ok(Question::PlainPower),
            7 => Ok(Question::LongQuotient),
            8 => Ok(Question::QuickCubeRoot),
            _ => Err(UnknownQuestion),
        }
    }
}

// What is asked stays a number here: one that stands for no question has its line too, `-`.
#[derive(Clone, Copy)]
struct Case {
    asked: u64,
    a: u64,
    b: u64,
    c: u64,
    d: u64,
}

// The numbers of an answer: a whole root; what encloses a figure; or the units of a root and what encloses it in them.
#[derive(Clone, Copy)]
enum Answer {
    Whole(u64),
    Between(u64, u64),
    InUnits(u64, u64, u64),
}

impl fmt::Display for Answer {
    fn fmt<W: fmt::Write>(&self, f: &mut fmt::Formatter<W>) -> fmt::Result {
        match self {
            Answer::Whole(n) => write!(f, "{n}"),
            Answer::Between(low, high) => write!(f, "{low} {high}"),
            Answer::InUnits(units, low, high) => write!(f, "{units} {low} {high}"),
        }
    }
}

fn root_of_ratio(n: u64, d: u64) -> Option<Answer> {
    if d == 0 || 1099511627776 <= n || 8 * n < d {
        return None;
    }
    let r = number::ratio::cube_root(n, d);
    Some(Answer::InUnits(r.scale, r.low, r.high))
}

fn millionths(n: u64, d: u64) -> Option<Answer> {
    if d == 0 || 1000000000000000000 < d || 8796093022208 <= n {
        return None;
    }
    let q = number::division::both_scaled(n, d, 10, 6);
    Some(Answer::Between(q.down, q.up))
}

// Its quotient fits 63 bits: 9223 * 10^15 is below 2^63.
fn long_quotient(n: u64, d: u64) -> Option<Answer> {
    if d == 0 || 9223372036854775808 <= d || d <= n / 9223 {
        return None;
    }
    let q = number::division::both_scaled(n, d, 100000, 3);
    Some(Answer::Between(q.down, q.up))
}

// (a/b)^(p/q), by either way to a power.
fn raised<F: Fn(u64, u64, u64, u64) -> Bounds>(
    power: F,
    a: u64,
    b: u64,
    p: u64,
    q: u64,
) -> Option<Answer>
    requires { (a b p q : ℕ) → Raisable a b p q → F.pre power a b p q }
{
    if b == 0 || a < b || 4294967296 <= a || b * 1048576 < a || q <= p || 16777216 <= q {
        return None;
    }
    let r = power(a, b, p, q);
    Some(Answer::Between(r.lo, r.hi))
}

// The answer, or none where no question has that number or the numbers are outside its domain.
fn answer_to(k: Case) -> Option<Answer> {
    match Question::try_from(k.asked).ok()? {
        Question::SquareRoot => Some(Answer::Whole(root::square_root(k.a))),
        Question::PlainCubeRoot => Some(Answer::Whole(root::cube_root(k.a))),
        Question::RootOfRatio => root_of_ratio(k.a, k.b),
        Question::Millionths => millionths(k.a, k.b),
        Question::Power => raised(power::power, k.a, k.b, k.c, k.d),
        Question::PlainPower => raised(plain_power::power, k.a, k.b, k.c, k.d),
        Question::LongQuotient => long_quotient(k.a, k.b),
        Question::QuickCubeRoot => Some(Answer::Whole(quick_root::cube_root(k.a))),
    }
}

// The next case, or none where less than a case is left.
fn next_case<R: Read>(input: &mut R) -> Option<Case> {
    let mut b = [0u8; 40];
    input.read_exact(&mut b).ok()?;
    Some(Case {
        asked: number_at(&b, 0, 8),
        a: number_at(&b, 8, 8),
        b: number_at(&b, 16, 8),
        c: number_at(&b, 24, 8),
        d: number_at(&b, 32, 8),
    })
}

fn put(rt: &impl Print, answer: Option<Answer>) {
    let _ = match answer {
        Some(numbers) => println!(rt; "{numbers}"),
        None => println!(rt; "-"),
    };
}

// At most a million cases; a piece shorter than a case ends the run.
fn main(rt: HostRuntime) {
    let mut input = rt.stdin();
    for _ in 0..1000000 {
        let Some(case) = next_case(&mut input) else {
            return;
        };
        put(&rt, answer_to(case));
    }
}
