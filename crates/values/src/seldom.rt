// The codes from 56 to 87: products, quotients, dot products, permutes, rounded shifts and sums of halves, which cost
// more themselves than the way to them. d is the old destination.
ghost use Rattle.std.specs.Prelude.{true, ◌≡◌, ◌+◌, ◌<◌, ◌≤◌};
ghost use Rattle.isa.specs.declared.Three.TheVariants as three;
ghost use Rattle.isa.specs.Widths.{bits};
ghost use Rattle.memory.specs.Value.{value, register};
ghost use Rattle.ops.specs.Meaning.{three_at};
ghost use Rattle.forms.specs.Forms.{three_of};
ghost use Rattle.entries.specs.Cut.{code_of, width_of};
ghost use Rattle.acts.specs.Act.{vector_of};
ghost use Rattle.values.specs.Permuted.{permutes};

use crate::both::by_words;
use element::Reading::{Signed, Unsigned};
use entries::parts::{code_of, width_of};
use isa::{Pack, Width};
use memory::Register;
use parallel_bits::shifting;
use parallel_halves::{hadd, hsub};
use parallel_products::{division, dot, product};
use permute::{pack, vshf};

fn pack_at(c: u64) -> Pack
    requires { (74 ≤ c) × (c < 80) }
    ensures { three.Pack result ≡ three_at (c + 88) }
{
    match c {
        74 => Pack::Pckev,
        75 => Pack::Pckod,
        76 => Pack::Ilvl,
        77 => Pack::Ilvr,
        78 => Pack::Ilvev,
        _ => Pack::Ilvod,
    }
}

// The elements moved. `pack` has this one caller, and so it is a part of it.
fn permuted(c: u64, w: Width, d: Register, s: Register, t: Register) -> Register
    requires { permutes c ≡ true }
    ensures { result ≡ register (three_of (three_at (c + 88)) (bits w) (value d) (value s) (value t)) }
{
    match c {
        74..=79 => pack(pack_at(c), w, s, t),
        _ => vshf(w, d, s, t),
    }
}

pub fn seldom(e: u64, d: Register, s: Register, t: Register) -> Register
    requires { (56 ≤ code_of e) × (code_of e < 88) }
    ensures { result ≡ register
        (vector_of (code_of e) (bits (width_of e)) (value d) (value s) (value t)) }
{
    let w = width_of(e);
    let k = code_of(e);
    match k {
        56 => by_words!(s, t => product::mulv(w, s, t)),
        57 => by_words!(d, s, t => product::maddv(w, d, s, t)),
        58 => by_words!(d, s, t => product::msubv(w, d, s, t)),
        60 => by_words!(s, t => division::quotients(w, Signed, s, t)),
        61 => by_words!(s, t => division::quotients(w, Unsigned, s, t)),
        62 => by_words!(s, t => division::remainders(w, Signed, s, t)),
        63 => by_words!(s, t => division::remainders(w, Unsigned, s, t)),
        64 => by_words!(s, t => dot::dotp(w, Signed, s, t)),
        65 => by_words!(s, t => dot::dotp(w, Unsigned, s, t)),
        66 => by_words!(d, s, t => dot::dpadd(w, Signed, d, s, t)),
        67 => by_words!(d, s, t => dot::dpadd(w, Unsigned, d, s, t)),
        68 => by_words!(d, s, t => dot::dpsub(w, Signed, d, s, t)),
        69 => by_words!(d, s, t => dot::dpsub(w, Unsigned, d, s, t)),
        81 => by_words!(s, t => shifting::shift_rounded(w, Signed, s, t)),
        82 => by_words!(s, t => shifting::shift_rounded(w, Unsigned, s, t)),
        84 => by_words!(s, t => hadd(w, Signed, s, t)),
        85 => by_words!(s, t => hadd(w, Unsigned, s, t)),
        86 => by_words!(s, t => hsub(w, Signed, s, t)),
        87 => by_words!(s, t => hsub(w, Unsigned, s, t)),
        _ => permuted(k, w, d, s, t),
    }
}
