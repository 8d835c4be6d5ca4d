// The codes from 8 to 55, which kernels use most: the bitwise forms and 3R up to ASUB_U. s and t are the values of the
// source and the third operand; the old destination is read where an operation needs it, and nowhere else.
ghost use Rattle.std.specs.Prelude.{◌≡◌, ◌<◌, ◌≤◌, length};
ghost use Rattle.isa.specs.Widths.{bits};
ghost use Rattle.memory.specs.File.{register_at};
ghost use Rattle.memory.specs.Value.{value, register};
ghost use Rattle.entries.specs.Cut.{code_of, width_of, dest_of};
ghost use Rattle.acts.specs.Act.{vector_of, vreg};

use crate::both::by_words;
use crate::operands::dest;
use element::Reading::{Signed, Unsigned};
use entries::parts::{code_of, width_of};
use isa::Logic;
use logic::logic_word;
use memory::Register;
use parallel::{clipped, compares, means, wrapping};
use parallel_bits::{places, shifting};
use permute::vshf;

pub fn quick(e: u64, s: Register, t: Register, vectors: &[u8; 512]) -> Register
    requires { (8 ≤ code_of e) × (code_of e < 56) }
    ensures { result ≡ register (vector_of (code_of e) (bits (width_of e))
        (register_at vectors.now (vreg (dest_of e))) (value s) (value t)) }
{
    let w = width_of(e);
    match code_of(e) {
        8 => by_words!(s, t => logic_word(Logic::And, s, s, t)),
        9 => by_words!(s, t => logic_word(Logic::Or, s, s, t)),
        10 => by_words!(s, t => logic_word(Logic::Nor, s, s, t)),
        11 => by_words!(s, t => logic_word(Logic::Xor, s, s, t)),
        12 => {
            let d = dest(e, vectors);
            by_words!(d, s, t => logic_word(Logic::Bmnz, d, s, t))
        },
        13 => {
            let d = dest(e, vectors);
            by_words!(d, s, t => logic_word(Logic::Bmz, d, s, t))
        },
        14 => {
            let d = dest(e, vectors);
            by_words!(d, s, t => logic_word(Logic::Bsel, d, s, t))
        },
        16 => by_words!(s, t => shifting::left(w, s, t)),
        17 => by_words!(s, t => shifting::shift_right(w, Signed, s, t)),
        18 => by_words!(s, t => shifting::shift_right(w, Unsigned, s, t)),
        19 => by_words!(s, t => places::bclr(w, s, t)),
        20 => by_words!(s, t => places::bset(w, s, t)),
        21 => by_words!(s, t => places::bneg(w, s, t)),
        22 => {
            let d = dest(e, vectors);
            by_words!(d, s, t => places::binsl(w, d, s, t))
        },
        23 => {
            let d = dest(e, vectors);
            by_words!(d, s, t => places::binsr(w, d, s, t))
        },
        24 => by_words!(s, t => wrapping::sum(w, s, t)),
        25 => by_words!(s, t => wrapping::difference(w, s, t)),
        26 => by_words!(s, t => compares::larger(w, Signed, s, t)),
        27 => by_words!(s, t => compares::larger(w, Unsigned, s, t)),
        28 => by_words!(s, t => compares::smaller(w, Signed, s, t)),
        29 => by_words!(s, t => compares::smaller(w, Unsigned, s, t)),
        30 => by_words!(s, t => clipped::max_a(w, s, t)),
        31 => by_words!(s, t => clipped::min_a(w, s, t)),
        32 => by_words!(s, t => compares::equal(w, s, t)),
        34 => by_words!(s, t => compares::less(w, Signed, s, t)),
        35 => by_words!(s, t => compares::less(w, Unsigned, s, t)),
        36 => by_words!(s, t => compares::not_more(w, Signed, s, t)),
        37 => by_words!(s, t => compares::not_more(w, Unsigned, s, t)),
        40 => by_words!(s, t => clipped::add_a(w, s, t)),
        41 => by_words!(s, t => clipped::adds_a(w, s, t)),
        42 => by_words!(s, t => clipped::adds_s(w, s, t)),
        43 => by_words!(s, t => clipped::adds_u(w, s, t)),
        44 => by_words!(s, t => means::average(w, Signed, s, t)),
        45 => by_words!(s, t => means::average(w, Unsigned, s, t)),
        46 => by_words!(s, t => means::average_up(w, Signed, s, t)),
        47 => by_words!(s, t => means::average_up(w, Unsigned, s, t)),
        48 => by_words!(s, t => clipped::subs_s(w, s, t)),
        49 => by_words!(s, t => clipped::subs_u(w, s, t)),
        50 => by_words!(s, t => clipped::subsus_u(w, s, t)),
        51 => by_words!(s, t => clipped::subsuu_s(w, s, t)),
        52 => by_words!(s, t => clipped::asub(w, Signed, s, t)),
        53 => by_words!(s, t => clipped::asub(w, Unsigned, s, t)),
        _ => vshf(w, dest(e, vectors), s, t),
    }
}
