// The block of 512 bytes: a ship's record, read and written.

#![tactic(auto)]

mod reading;

ghost use Rattle.std.specs.Prelude.{◌≡◌};
ghost use Rattle.ship.specs.Refusals.{verdict};
ghost use Rattle.block.specs.Answers.{read_of, write_refusal, write_of};

use ship::{Refusal, Ship};

// A block's record, or its first refusal.
pub fn read(block: &[u8]) -> Result<Ship, Refusal>
    ensures { result ≡ read_of block.now }
{
    let Ok(block) = <&[u8; 512]>::try_from(block) else {
        return Err(Refusal::Length);
    };
    let ship = layout::ship_in(block);
    reading::check_block(block, ship)?;
    Ok(ship)
}

// The ship as block `number` of the file; or the record's own refusal, or that the file has no such block, and nothing is written.
pub fn write(file: &mut [u8], number: u64, ship: Ship) -> Result<(), Refusal>
    ensures value { result ≡ verdict (write_refusal file.old number ship) }
    ensures file_after { file.new ≡ write_of file.old number ship }
{
    rules::check(ship)?;
    let n = number as usize;
    if file.len() / 512 <= n {
        return Err(Refusal::NoBlock);
    }
    let at = n * 512;
    let end = at + 512;
    layout::write_block(&mut file[at..end], ship);
    Ok(())
}
