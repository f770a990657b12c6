// A program's work, whatever it asks: a line for each block of standard input, 128 blocks at a time.
#![tactic(auto)]

ghost use Rattle.std.specs.Prelude.{◌≡◌, ◌≤◌, List, ℕ, length, take};
ghost use Rattle.std.specs.Process.{exit_status};
ghost use Rattle.std.proofs.Common.{rules};
ghost use Rattle.streams.specs.Streams.{Filled, answered_of, complaint};
ghost use Rattle.decimal.specs.Digits.{Put};
ghost use Rattle.lines.specs.Lines.{lines_of};
ghost use Rattle.program.specs.Names.{fleet_name, speeds_name};
ghost use Rattle.program.specs.Endings.{status_of, first_in, coming_of, HasEnded, Steps};

use asked_lines::Speed;
use batches::Batch;
use lines::{Index, Question};
use std::io::Print;
use std::ops::ControlFlow;
use std::process::ExitCode;
use streams::{Got, Unsent};

// A program: what it asks of each block, and the name under which it speaks on standard error.
pub trait Program: Question {
    ghost name: { List ℕ };

    fn name() -> &'static [u8]
        ensures { result.now ≡ name };

    ghost short: { length name ≤ 6 };
}

impl Program for Index {
    ghost name = { fleet_name };

    fn name() -> &'static [u8] {
        b"fleet"
    }

    ghost short = { Prim.search rules };
}

impl Program for Speed {
    ghost name = { speeds_name };

    fn name() -> &'static [u8] {
        b"speeds"
    }

    ghost short = { Prim.search rules };
}

// How a program ended, with the block that the batch after its last would begin with: it has answered what it could read, and has said what
// failed, or nobody reads its lines any more. (No Result: an input that couldn't be read ends in Done too, so neither is the error of the other.)
#[derive(Clone, Copy, Debug, PartialEq, Eq)]
pub enum Ending {
    Done(u32),
    Unread(u32),
}

impl Ending {
    // Where nobody reads the lines any more the status is what a shell tells of a program that the signal of a closed pipe has ended.
    pub fn status(self) -> ExitCode
        ensures { exit_status result ≡ status_of self }
    {
        match self {
            Ending::Done(_) => ExitCode::SUCCESS,
            Ending::Unread(_) => ExitCode::from(141),
        }
    }
}

// The lines of a batch, of what was read of its blocks, at the start of the text; answers how many bytes they are. No input or output is done
// here, so the contract says all of it: no byte counts that wasn't read. 126 bytes are the longest line, so there is room for 128.
fn put_batch<Q: Question>(text: &mut [u8], batch: Batch, blocks: &[u8], got: Got) -> usize
    requires text_len { length text.old ≡ 16128 }
    requires blocks_len { (length blocks.now ≡ 65536) × Filled 65536 got }
    ensures end_in_bounds { (result ≤ length text.new) × (result ≡ length (take result text.new)) }
    ensures text_after { take result text.new ≡ lines_of Q.line batch.first (take (answered_of got) blocks.now) }
{
    let answered = got.answered();
    asked_lines::put_lines::<Q>(text, batch.first, &blocks[..answered])
}

// What is to be said on standard error, under the program's name.
fn put_said<P: Program>(out: &mut [u8], got: Got, sent: Result<(), Unsent>) -> usize
    requires { length out.old ≡ 37 }
    ensures { Put out.old 0 (complaint P.name got sent) out.new result }
{
    streams::put_complaint(out, P::name(), got, sent)
}

// What comes after a batch, by what was read of it and how its lines were sent: no batch where a side failed. No input or output is done here, so
// the contract says all of it.
fn coming(batch: Batch, got: Got, sent: Result<(), Unsent>) -> ControlFlow<Ending, Batch>
    ensures { first_in result ≡ coming_of batch.first got sent }
{
    if sent == Err(Unsent::Closed) {
        return ControlFlow::Break(Ending::Unread(batch.end()));
    }
    match batches::go_on(batch.after(got.is_going()), sent.is_ok()) {
        Some(next) => ControlFlow::Continue(next),
        None => ControlFlow::Break(Ending::Done(batch.end())),
    }
}

// Reads a batch, writes its lines in one write and says what failed; answers what comes after it.
// The buffers are arrays with a length beside, since a program has no memory but the stack.
fn step<P: Program>(rt: HostRuntime, batch: Batch) -> ControlFlow<Ending, Batch>
    ensures { Steps batch.first result }
{
    let mut blocks = [0u8; 65536];
    let got = streams::fill(rt.stdin(), &mut blocks);
    let mut text = [0u8; 16128];
    let end = put_batch::<P>(&mut text, batch, &blocks, got);
    let sent = streams::send(rt.stdout(), &text[..end]);
    let mut said = [0u8; 37];
    let words = put_said::<P>(&mut said, got, sent);
    let _said = rt.stderr().write_all(&said[..words]);
    coming(batch, got, sent)
}

// All of a program: 512 batches at most, so that no byte beyond 65,536 blocks is asked for. The loop is no `for` over (0..65536).step_by(128),
// since where a batch begins is the promise of `Batch::start` and `Batch::after`, which batches_join and failed_last speak of; the head of a
// loop has no contract.
pub fn run<P: Program>(rt: HostRuntime) -> Ending
    ensures { HasEnded result }
{
    let mut batch = Batch::start();
    loop {
        match step::<P>(rt, batch) {
            ControlFlow::Continue(next) => batch = next,
            ControlFlow::Break(ending) => return ending,
        }
    }
}
