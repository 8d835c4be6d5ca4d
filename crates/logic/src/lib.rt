// AND, OR, NOR, XOR, BMNZ, BMZ and BSEL on all 128 bits. ANDI.B and the other I8 forms are the same with the immediate in every byte of t.
#![tactic(auto)]

ghost use Rattle.std.specs.Prelude.{◌≡◌};
ghost use Rattle.memory.specs.Value.{value, register};
ghost use Rattle.vectors.specs.Register.{build, element, together};
ghost use Rattle.logic.specs.Logic.{logic_bit};

use isa::Logic;
use memory::Register;
use vectors::words::by_three_words;

const ONES: u64 = 0xFFFF_FFFF_FFFF_FFFF;

pub fn logic_word(op: Logic, d: u64, s: u64, t: u64) -> u64
    ensures { result ≡ build 1 (λ i. logic_bit op (element 1 d i) (element 1 s i) (element 1 t i)) 64 }
{
    match op {
        Logic::And => s & t,
        Logic::Or => s | t,
        Logic::Nor => (s | t) ^ ONES,
        Logic::Xor => s ^ t,
        Logic::Bmnz => (s & t) | (d & (t ^ ONES)),
        Logic::Bmz => (s & (t ^ ONES)) | (d & t),
        Logic::Bsel => (s & (d ^ ONES)) | (t & d),
    }
}

// d is the old destination, which the last three read.
pub fn logic(op: Logic, d: Register, s: Register, t: Register) -> Register
    ensures { result ≡ register (together 1 (logic_bit op) (value d) (value s) (value t)) }
{
    by_three_words(d, s, t, |d, s, t| logic_word(op, d, s, t))
}
