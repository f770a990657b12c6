// Reads the ship of a block and writes it into a file, for each case of standard input. Prints what reading answers, what writing
// answers, each the refusal's number or 0, and the two check sums of the file's bytes as they then are.
// A case is the lengths of the piece that is read and of the file in two bytes each, a block number in eight, and the bytes of
// both. For a piece that is refused the ship is the empty record.
// tests/blocks.py makes the cases and what is to be printed.

#![tactic(auto)]

ghost use Rattle.std.specs.Prelude.{◌≤◌, length, IfOk};

use fields::{check_sums, number_at};
use std::io;
use std::io::Read;

// Reads until the buffer is full or the input ends, and answers how many bytes it put at the buffer's start. A `while`, since each read takes as
// many bytes as there are, and std has no call that says how many came before the input ended.
fn read_full<R: Read>(input: &mut R, buf: &mut [u8]) -> io::Result<usize>
    ensures { IfOk result (λ n. n ≤ length buf.new) }
{
    let mut done = 0;
    while done < buf.len() {
        let n = input.read(&mut buf[done..])?;
        if n == 0 {
            break;
        }
        done += n;
    }
    Ok(done)
}

// What stands before a case's bytes, or none where the input has no whole one more.
fn next_head<R: Read>(input: &mut R) -> io::Result<Option<[u8; 12]>> {
    let mut head = [0u8; 12];
    if read_full(input, &mut head)? != 12 {
        return Ok(None);
    }
    Ok(Some(head))
}

// The bytes that follow, as far as there is room.
fn answer_next<R: Read>(rt: &impl Print, input: &mut R, head: &[u8; 12]) -> io::Result<()> {
    let length = number_at(head, 0, 2) as usize;
    let size = number_at(head, 2, 2) as usize;
    let number = number_at(head, 4, 8);
    let mut piece = [0u8; 1024];
    let mut file = [0u8; 2048];
    if piece.len() < length || file.len() < size {
        return Ok(());
    }
    read_full(input, &mut piece[..length])?;
    read_full(input, &mut file[..size])?;
    answer(rt, &piece[..length], &mut file[..size], number)
}

fn answer(rt: &impl Print, piece: &[u8], file: &mut [u8], number: u64) -> io::Result<()> {
    let (read, ship) = match block::read(piece) {
        Ok(ship) => (0, ship),
        Err(refusal) => (ship::number(refusal), layout::empty()),
    };
    let written = match block::write(file, number, ship) {
        Ok(()) => 0,
        Err(refusal) => ship::number(refusal),
    };
    let sums = check_sums(file);
    println!(rt; "{read} {written} {} {}", sums.a, sums.b)
}

fn main(rt: HostRuntime) -> io::Result<()> {
    let mut input = rt.reader();
    for _ in 0..65536 {
        let Some(head) = next_head(&mut input)? else {
            break;
        };
        answer_next(&rt, &mut input, &head)?;
    }
    Ok(())
}
