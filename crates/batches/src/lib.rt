// The batches of a program, of 128 blocks each: with which block one begins, and whether there is another.
#![tactic(auto)]

ghost use Rattle.std.specs.Prelude.{◌≡◌, ◌+◌};
ghost use Rattle.std.specs.Option.{option_map};
ghost use Rattle.batches.specs.Batches.{first_batch, batch_after, batch_if, Begun, Ended};

// How many blocks a whole batch has.
const BLOCKS: u32 = 128;

// One of the 512 batches: up to 128 blocks, of which the first has the number `first`.
#[derive(Clone, Copy)]
pub struct Batch {
    pub first: u32,
    ghost begun: { Begun first },
}

impl Batch {
    pub fn start() -> Batch
        ensures { result.first ≡ first_batch }
    {
        Batch { first: 0 }
    }

    // With which block a batch after this one would begin.
    pub fn end(self) -> u32
        ensures value { result ≡ self.first + 128 }
        ensures ended { Ended result }
    {
        self.first + BLOCKS
    }

    // The batch after this one; `going` is whether more may be read.
    #[tactic(auto, unfolding(crate::specs::Batches::batch_after))]
    pub fn after(self, going: bool) -> Option<Batch>
        ensures { option_map (λ (b : Batch). b.first) result ≡ batch_after self.first going }
    {
        let first = self.end();
        if going && first < 65536 {
            Some(Batch { first })
        } else {
            None
        }
    }
}

// Nothing comes after lines that could not be written.
pub fn go_on<B: Drop>(next: Option<B>, written: bool) -> Option<B>
    ensures { result ≡ batch_if next written }
{
    next.filter(|_| written)
}
