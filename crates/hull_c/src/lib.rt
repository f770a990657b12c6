// The library that C links: each call of `hull` under its name in C. c/yagmurzol.h says it in C's words. There a slice is a pointer and a length.
#![tactic(auto)]

ghost use Rattle.std.specs.Prelude.{◌≡◌};
ghost use Rattle.desk.specs.Answers.{answer_of_block, number_in, lower_in, upper_in};
ghost use Rattle.desk.specs.Steps.{speeds_answer_of_block, index_answer_of_block};
ghost use Rattle.hull.specs.Yard.{found_in};
ghost use Rattle.hull.specs.Settled.{found_speeds_in, handed};

use hull::{Found, FoundSpeeds, Knots, Pair};

#[unsafe(no_mangle)]
pub extern "C" fn yagmurzol_ask(block: &[u8]) -> Found
    ensures { result ≡ found_in (answer_of_block block.now) }
{
    hull::yagmurzol_ask(block)
}

#[unsafe(no_mangle)]
pub extern "C" fn yagmurzol_refusal(block: &[u8]) -> u8
    ensures { result ≡ number_in (answer_of_block block.now) }
{
    hull::yagmurzol_refusal(block)
}

#[unsafe(no_mangle)]
pub extern "C" fn yagmurzol_lower(block: &[u8]) -> u64
    ensures { result ≡ lower_in (answer_of_block block.now) }
{
    hull::yagmurzol_lower(block)
}

#[unsafe(no_mangle)]
pub extern "C" fn yagmurzol_upper(block: &[u8]) -> u64
    ensures { result ≡ upper_in (answer_of_block block.now) }
{
    hull::yagmurzol_upper(block)
}

#[unsafe(no_mangle)]
pub extern "C" fn yagmurzol_doubles(block: &[u8]) -> Pair
    ensures { result ≡ (found_in (answer_of_block block.now)).pair }
{
    hull::yagmurzol_doubles(block)
}

#[unsafe(no_mangle)]
pub extern "C" fn yagmurzol_speeds(block: &[u8]) -> FoundSpeeds
    ensures { result ≡ found_speeds_in (speeds_answer_of_block block.now) }
{
    hull::yagmurzol_speeds(block)
}

#[unsafe(no_mangle)]
pub extern "C" fn yagmurzol_index(block: &[u8], most: Knots, least: Knots) -> Found
    ensures { result ≡ found_in (index_answer_of_block block.now (handed most least)) }
{
    hull::yagmurzol_index(block, most, least)
}
