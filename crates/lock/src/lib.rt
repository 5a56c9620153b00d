// The lock: fed with every byte written to BCxx.

#![tactic(auto)]

ghost use Rattle.std.specs.Prelude.{◌≡◌};
ghost use Rattle.lock.specs.Machine.{begins, next_stage, Fresh, Fed};

// The bytes that the stages from 2 on wait for.
const KEY: [u8; 14] = *b"\xff\x77\xb3\x51\xa8\xd4\x62\x39\x9c\x46\x2b\x15\x8a\xcd";

// The lock: whether the chip is unlocked, and how much of the sequence the last bytes are. Stage 0: no byte has come, or
// the last is a zero after a zero or after none; 1: it isn't zero; 2: a zero after one that isn't; from 3 to 16: that,
// and one more byte of the sequence for each stage. The stages stay numbers: C sees this struct.
#[repr(C)]
#[derive(Clone, Copy)]
pub struct Lock {
    pub unlocked: bool,
    pub stage: u8,
}

// The stage after a byte that doesn't go on: how much of the next attempt it begins.
fn begin(stage: u8, byte: u8) -> u8
    ensures { result ≡ begins stage byte }
{
    match (stage, byte) {
        (0 | 2, 0) => 0,
        (_, 0) => 2,
        _ => 1,
    }
}

// The stage after one more byte.
#[tactic(auto, unfolding(crate::specs::Machine::next_stage))]
fn next_stage(stage: u8, byte: u8) -> u8
    ensures { result ≡ next_stage stage byte }
{
    match stage {
        2..=15 if byte == KEY[(stage - 2) as usize] => stage + 1,
        _ => begin(stage, byte),
    }
}

impl Lock {
    // The lock after reset: no byte has come.
    #[tactic(auto, using(crate::proofs::Steps::fresh))]
    pub fn new() -> Lock
        ensures { Fresh result }
    {
        Lock {
            unlocked: false,
            stage: 0,
        }
    }

    // The lock fed with one more byte.
    pub fn feed(self, byte: u8) -> Lock
        ensures { Fed self byte result }
    {
        let unlocked = match self.stage {
            16 => true,
            15 if byte != 0xcd => false,
            _ => self.unlocked,
        };
        Lock {
            unlocked,
            stage: next_stage(self.stage, byte),
        }
    }
}
