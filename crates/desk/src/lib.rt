// The face of the desk: one answer for every record and for every slice of bytes. Nothing has to be checked beforehand.
#![tactic(auto)]

ghost use Rattle.std.specs.Prelude.{◌≡◌, None};
ghost use Rattle.ship.specs.Figures.{figures};
ghost use Rattle.ship.specs.Rules.{refusal_of};
ghost use Rattle.index.specs.Attained.{index_of};
ghost use Rattle.desk.specs.Answers.{answer_of, answer_of_block};
ghost use Rattle.desk.specs.Steps.{speeds_answer, speeds_answer_of_block, index_by, index_answer, index_answer_of_block};

use index::{Index, SpeedBounds};
use ship::accepted::Accepted;
use ship::{Refusal, Ship};

// The two bounds of the index in millionths, or the first rule broken.
pub type Answer = Result<Index, Refusal>;

// The speed bounds of the most and of the least favourable ship in millionths of a knot, or the first rule broken.
pub type SpeedAnswer = Result<SpeedBounds, Refusal>;

// The index of a record that no rule refuses.
fn attained(ship: Ship) -> Index
    requires { refusal_of ship ≡ None }
    ensures { result ≡ index_of (figures ship) }
{
    let accepted = Accepted::new(ship);
    index::attained(&accepted, index::speeds(&accepted))
}

// The index from speed bounds that are handed in. Whether they are the record's own is known only by working its speed out again.
fn attained_from(ship: &Accepted, handed: SpeedBounds) -> Answer
    ensures { result ≡ index_by None ship.now.ship handed }
{
    let own = index::speeds(ship);
    if handed == own {
        return Ok(index::attained(ship, own));
    }
    Err(Refusal::Speed)
}

// ── What a customer calls ───────────────────────────────────────────────────────────────────────

// The answer for a record. (The two lines before `Accepted` are one each for a record and a block: a function for them would be as long as they are.)
pub fn bounds(s: Ship) -> Answer
    ensures { result ≡ answer_of s }
{
    rules::check(s)?;
    Ok(attained(s))
}

// The answer for a block, or for any other slice of bytes.
pub fn bounds_of_block(block: &[u8]) -> Answer
    ensures { result ≡ answer_of_block block.now }
{
    let read = block::read(block)?;
    Ok(attained(read))
}

// The first of two steps, the speed by itself: of a record.
pub fn speeds(s: Ship) -> SpeedAnswer
    ensures { result ≡ speeds_answer s }
{
    rules::check(s)?;
    Ok(index::speeds(&Accepted::new(s)))
}

// Of a block, or of any other slice of bytes.
pub fn speeds_of_block(block: &[u8]) -> SpeedAnswer
    ensures { result ≡ speeds_answer_of_block block.now }
{
    let read = block::read(block)?;
    Ok(index::speeds(&Accepted::new(read)))
}

// The second step, the index from a record and its speed bounds.
pub fn index_from(ship: Ship, handed: SpeedBounds) -> Answer
    ensures { result ≡ index_answer ship handed }
{
    rules::check(ship)?;
    attained_from(&Accepted::new(ship), handed)
}

// From a block, or any other slice of bytes, and speed bounds.
pub fn index_from_block(block: &[u8], handed: SpeedBounds) -> Answer
    ensures { result ≡ index_answer_of_block block.now handed }
{
    let read = block::read(block)?;
    attained_from(&Accepted::new(read), handed)
}
