// Why a step stops: document 01's table of stops, a case a reason; a word that reads as no instruction has three. Which
// number a case has, and what it carries, is `state` Numbers.
ghost use Rattle.std.specs.Prelude.{◌≡◌};
ghost use Rattle.state.specs.Numbers.{stop_number};

use isa::Unread;

// 11 to 19.
#[derive(Clone, Copy, Debug, PartialEq, Eq)]
pub enum Stop {
    NoWord,
    Unread(Unread),
    BranchInSlot,
    SwitchedOff,
    // the first address that is missing
    NoWindow(u64),
    // the first address of the store
    ReadOnly(u64),
    // the bits of the value that arm it
    Trap(u32),
}

impl From<Stop> for u8 {
    ghost from_gives = { λ s n. n ≡ stop_number s };

    fn from(s: Stop) -> u8 {
        match s {
            Stop::NoWord => 11,
            Stop::Unread(u) => u8::from(u),
            Stop::BranchInSlot => 15,
            Stop::SwitchedOff => 16,
            Stop::NoWindow(_) => 17,
            Stop::ReadOnly(_) => 18,
            Stop::Trap(_) => 19,
        }
    }
}
