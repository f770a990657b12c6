// The tests of 512 bytes, and the first rule that they and their record break.
ghost use Rattle.std.specs.Prelude.{◌≡◌, ◌-◌, ◌≤◌, length, None};
ghost use Rattle.fields.specs.Numbers.{number_at};
ghost use Rattle.ship.specs.Refusals.{first_of, verdict};
ghost use Rattle.ship.specs.Rules.{nonzero};
ghost use Rattle.layout.specs.Layout.{numbers_in};
ghost use Rattle.block.specs.Answers.{check_refused, rest_refused, zeros_refused, block_tests};

use fields::{all_zero, check_sums, number_at};
use rules::check_with;
use ship::{Refusal, Ship, refuse_if};

// Whether a check differs.
#[tactic(auto, unfolding(crate::specs::Answers::check_refused))]
fn check_broken(block: &[u8; 512]) -> bool
    ensures { result ≡ check_refused block.now }
{
    let sums = check_sums(&block[0..508]);
    let a = number_at(block, 508, 2);
    let b = number_at(block, 510, 2);
    (a != u64::from(sums.a)) | (b != u64::from(sums.b))
}

// Whether one of the bytes from `at` up to `end` isn't zero.
#[tactic(auto, unfolding(fields::specs::Numbers::number_at))]
fn not_zero(block: &[u8], at: usize, end: usize) -> bool
    requires { (at ≤ end) × (end ≤ length block.now) }
    ensures { result ≡ nonzero (number_at block.now at (end - at)) }
{
    !all_zero(&block[at..end])
}

// Whether one of the bytes from 132 on that no field has isn't zero.
fn rest_broken(block: &[u8; 512]) -> bool
    ensures { result ≡ rest_refused (numbers_in block.now) }
{
    not_zero(block, 142, 144) | not_zero(block, 188, 508)
}

// Whether a byte that must be zero isn't.
fn zeros_broken(block: &[u8; 512]) -> bool
    ensures { result ≡ zeros_refused block.now }
{
    not_zero(block, 49, 52)
        | not_zero(block, 70, 72)
        | not_zero(block, 90, 92)
        | not_zero(block, 110, 112)
        | not_zero(block, 130, 132)
        | rest_broken(block)
}

// The first rule that a block and the record that stands in it break, the checks before all others.
#[tactic(auto, unfolding(crate::specs::Answers::block_tests, ship::specs::Refusals::first_of))]
pub(crate) fn check_block(block: &[u8; 512], ship: Ship) -> Result<(), Refusal>
    ensures { result ≡ verdict (first_of (block_tests block.now ship) None) }
{
    refuse_if(check_broken(block), Refusal::Check)?;
    check_with(zeros_broken(block), ship)
}
