// What a yard's design program calls from C, by the exports of `hull_c`; c/yagmurzol.h says it in C's words.
#![tactic(auto)]

ghost use Rattle.std.specs.Prelude.{◌≡◌, ◌<◌, ◌^◌};
ghost use Rattle.desk.specs.Answers.{answer_of_block, number_in, lower_in, upper_in};
ghost use Rattle.desk.specs.Steps.{speeds_answer_of_block, index_answer_of_block};
ghost use Rattle.hull.specs.Yard.{found_of, found_in};
ghost use Rattle.hull.specs.Settled.{knots_of, found_speeds_in, bounds_of, handed};

use desk::Answer;
use index::SpeedBounds;
use power::Bounds;

// The two bounds as doubles, each a whole number of millionths.
#[repr(C)]
#[derive(Clone, Copy)]
pub struct Pair {
    pub lower: f64,
    pub upper: f64,
}

// The refusal's number, 0 for none; the two bounds in millionths, both 0 with a refusal; and the same as doubles. Plain numbers and no Result, here, in
// `Knots` and in `FoundSpeeds`, and types of their own beside `power::Bounds`: C has their layout and names (c/yagmurzol.h).
#[repr(C)]
#[derive(Clone, Copy)]
pub struct Found {
    pub refusal: u8,
    pub lower: u64,
    pub upper: u64,
    pub pair: Pair,
}

// A double has every whole number up to 2^53.
#[tactic(auto, unfolding(crate::specs::Yard::as_double))]
fn all_of(refusal: u8, lower: u64, upper: u64) -> Found
    requires { (lower < 2 ^ 53) × (upper < 2 ^ 53) }
    ensures { result ≡ found_of refusal lower upper }
{
    Found {
        refusal,
        lower,
        upper,
        pair: Pair {
            lower: lower as f64,
            upper: upper as f64,
        },
    }
}

// One of the desk's answers to a block, whose bounds are below 2^53.
fn told(answer: Answer) -> Found
    requires { (lower_in answer < 2 ^ 53) × (upper_in answer < 2 ^ 53) }
    ensures { result ≡ found_in answer }
{
    match answer {
        Ok(bounds) => all_of(0, bounds.lower, bounds.upper),
        Err(refusal) => all_of(ship::number(refusal), 0, 0),
    }
}

// All of the answer, from one reading of the block.
pub fn yagmurzol_ask(block: &[u8]) -> Found
    ensures { result ≡ found_in (answer_of_block block.now) }
{
    told(desk::bounds_of_block(block))
}

pub fn yagmurzol_refusal(block: &[u8]) -> u8
    ensures { result ≡ number_in (answer_of_block block.now) }
{
    yagmurzol_ask(block).refusal
}

pub fn yagmurzol_lower(block: &[u8]) -> u64
    ensures { result ≡ lower_in (answer_of_block block.now) }
{
    yagmurzol_ask(block).lower
}

pub fn yagmurzol_upper(block: &[u8]) -> u64
    ensures { result ≡ upper_in (answer_of_block block.now) }
{
    yagmurzol_ask(block).upper
}

pub fn yagmurzol_doubles(block: &[u8]) -> Pair
    ensures { result ≡ (found_in (answer_of_block block.now)).pair }
{
    yagmurzol_ask(block).pair
}

// ── In two steps ────────────────────────────────────────────────────────────────────────────────

// A speed's two bounds, in millionths of a knot.
#[repr(C)]
#[derive(Clone, Copy)]
pub struct Knots {
    pub lower: u64,
    pub upper: u64,
}

// The refusal's number, 0 for none; the speed's bounds of the most and of the least favourable ship, all 0 with a refusal.
#[repr(C)]
#[derive(Clone, Copy)]
pub struct FoundSpeeds {
    pub refusal: u8,
    pub most: Knots,
    pub least: Knots,
}

impl From<Bounds> for Knots {
    ghost from_gives = { λ v r. r ≡ knots_of v };

    fn from(v: Bounds) -> Knots {
        Knots {
            lower: v.lo,
            upper: v.hi,
        }
    }
}

impl From<Knots> for Bounds {
    ghost from_gives = { λ v r. r ≡ bounds_of v };

    fn from(v: Knots) -> Bounds {
        Bounds {
            lo: v.lower,
            hi: v.upper,
        }
    }
}

// The speed by itself.
pub fn yagmurzol_speeds(block: &[u8]) -> FoundSpeeds
    ensures { result ≡ found_speeds_in (speeds_answer_of_block block.now) }
{
    match desk::speeds_of_block(block) {
        Ok(v) => FoundSpeeds {
            refusal: 0,
            most: Knots::from(v.most),
            least: Knots::from(v.least),
        },
        Err(refusal) => FoundSpeeds {
            refusal: ship::number(refusal),
            most: Knots { lower: 0, upper: 0 },
            least: Knots { lower: 0, upper: 0 },
        },
    }
}

// The index from a block and speed bounds.
pub fn yagmurzol_index(block: &[u8], most: Knots, least: Knots) -> Found
    ensures { result ≡ found_in (index_answer_of_block block.now (handed most least)) }
{
    let v = SpeedBounds {
        most: Bounds::from(most),
        least: Bounds::from(least),
    };
    told(desk::index_from_block(block, v))
}
