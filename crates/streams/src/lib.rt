// Standard input and output: how much was read and why no more came, whether all was written, and what is said where one of them fails.
#![tactic(auto)]

ghost use Rattle.std.specs.Prelude.{◌≡◌, ◌+◌, ◌≤◌, ◌<◌, ◌^◌, ◌++◌, length, IfOk};
ghost use Rattle.decimal.specs.Digits.{Put};
ghost use Rattle.streams.specs.Streams.{nothing_yet, got_after, is_going, ReadOn, Filled, answered_of, unsent, sent_after, Written, complaint};

use decimal::put_text;
use std::io;
use std::io::{Error, Print, Read, Stdin, Stdout};

// errno where nobody reads a pipe any more.
const EPIPE: i32 = 32;

// What is known of the input behind what was read: more may come, it ended, or a read failed.
#[derive(Clone, Copy, Debug, PartialEq, Eq)]
enum Rest {
    More,
    End,
    Failure,
}

// What has come of reading: so many bytes, and what is known of the rest. Only reading makes one.
#[derive(Clone, Copy, Debug)]
pub struct Got {
    count: usize,
    rest: Rest,
}

// Why not all was written: nobody reads it any more, or another fault.
#[derive(Clone, Copy, Debug, PartialEq, Eq)]
pub enum Unsent {
    Closed,
    Failed,
}

impl Got {
    fn nothing() -> Got
        ensures { result ≡ nothing_yet }
    {
        Got {
            count: 0,
            rest: Rest::More,
        }
    }

    // After one read more, which gave this answer: 0 is the end of the input.
    fn after(self, answer: io::Result<usize>) -> Got
        requires { IfOk answer (λ count. self.count + count < 2 ^ 64) }
        ensures { result ≡ got_after self answer }
    {
        match answer {
            Ok(0) => Got {
                rest: Rest::End,
                ..self
            },
            Ok(count) => Got {
                count: self.count + count,
                rest: Rest::More,
            },
            Err(_) => Got {
                rest: Rest::Failure,
                ..self
            },
        }
    }

    // One read, behind what is there already.
    fn read_on(self, mut input: Stdin, blocks: &mut [u8]) -> Got
        requires { self.count ≤ length blocks.old }
        ensures { ReadOn (length blocks.new) self result }
    {
        let answer = input.read(&mut blocks[self.count..]);
        self.after(answer)
    }

    // Whether more may come.
    pub fn is_going(self) -> bool
        ensures { result ≡ is_going self }
    {
        self.rest == Rest::More
    }

    // How many of the bytes that were read are to be answered.
    #[tactic(auto, unfolding(crate::specs::Streams::answered_of))]
    pub fn answered(self) -> usize
        ensures { result ≡ answered_of self }
    {
        match self.rest {
            Rest::Failure => self.count / 512 * 512,
            _ => self.count,
        }
    }
}

// Reads standard input until the buffer is full, the input ends or a read fails. A `while`: each read takes as many bytes as there are, and
// `read_exact` doesn't tell how many came before the input ended.
pub fn fill(input: Stdin, blocks: &mut [u8]) -> Got
    ensures { Filled (length blocks.new) result }
{
    let mut got = Got::nothing();
    while got.count < blocks.len() && got.is_going() {
        got = got.read_on(input, blocks);
    }
    got
}

impl From<Error> for Unsent {
    ghost from_gives = { λ error result. result ≡ unsent error };

    // A pipe that nobody reads any more is told from other faults by errno alone.
    fn from(error: Error) -> Unsent {
        match error.raw_os_error() {
            Some(EPIPE) => Unsent::Closed,
            _ => Unsent::Failed,
        }
    }
}

// What a write's answer tells of it.
fn sent_after(written: io::Result<()>) -> Result<(), Unsent>
    ensures { result ≡ sent_after written }
{
    Ok(written?)
}

// Writes the text to standard output.
pub fn send(output: Stdout, text: &[u8]) -> Result<(), Unsent>
    ensures { Written result }
{
    sent_after(output.write_all(text))
}

// The words behind the name, at the start of the buffer; answers how many bytes that is.
fn put_line(out: &mut [u8], name: &[u8], words: &[u8]) -> usize
    requires { length name.now + length words.now ≤ length out.old }
    ensures { Put out.old 0 (name.now ++ words.now) out.new result }
{
    let at = put_text(out, 0, name);
    put_text(out, at, words)
}

// What is to be said on standard error, under the program's name, at the start of the buffer; answers how many bytes it is. The longest
// words have 31 bytes, for which `program` has room beside the six of the longest name. It is no `Display`: that promises its text only where it
// answers Ok, and nothing promises that it does; these bytes stand in any case.
#[tactic(auto, using(decimal::proofs::Putting::put_none), unfolding(crate::specs::Streams::complaint))]
pub fn put_complaint(out: &mut [u8], name: &[u8], got: Got, sent: Result<(), Unsent>) -> usize
    requires { length name.now + 31 ≤ length out.old }
    ensures { Put out.old 0 (complaint name.now got sent) out.new result }
{
    match sent {
        Ok(()) => match got.rest {
            Rest::Failure => put_line(out, name, b": cannot read standard input\n"),
            Rest::More | Rest::End => 0,
        },
        Err(Unsent::Failed) => put_line(out, name, b": cannot write standard output\n"),
        Err(Unsent::Closed) => 0,
    }
}
