// The codes from 88 to 104: the moves, saturation, counts and the fixed-point multiplies. An arm reads the registers
// that its operation needs, and no other.
ghost use Rattle.std.specs.Prelude.{List, ◌≡◌, ℕ, ◌≤◌, length};
ghost use Rattle.isa.specs.Widths.{bits};
ghost use Rattle.memory.specs.File.{register_at};
ghost use Rattle.memory.specs.Value.{value, register};
ghost use Rattle.state.specs.declared.control.Control.{Control};
ghost use Rattle.state.specs.Machine.{machine};
ghost use Rattle.entries.specs.Cut.{dest_of, source_of, third_of};
ghost use Rattle.forms.specs.Forms.{count_of, fixed_of};
ghost use Rattle.acts.specs.Act.{narrow_of, value_of, vreg};

use crate::both::by_words;
use crate::operands::{dest, inserted, last, scalar, source, spread};
use entries::parts::{code_of, imm_of, source_of, third_of, width_of};
use isa::{Count, Fixed, Width};
use memory::Register;
use parallel_bits::places;
use parallel_counts::count_word;
use parallel_products::fixed_point::fixed;
use permute::moves::splat;
use permute::{insert, shf, slide};

fn counted(op: Count, w: Width, s: Register) -> Register
    ensures { result ≡ register (count_of op (bits w) (value s)) }
{
    by_words!(s => count_word(op, w, s))
}

// The fixed-point multiplies have H and W alone.
fn narrow(e: u64) -> Width
    ensures { (result ≡ narrow_of e) × (bits result ≤ 32) }
{
    if e / 256 % 4 == 1 { Width::H } else { Width::W }
}

fn multiplied(op: Fixed, e: u64, vectors: &[u8; 512]) -> Register
    ensures { let file = vectors.now in
        result ≡ register (fixed_of op (bits (narrow_of e)) (register_at file (vreg (dest_of e)))
        (register_at file (vreg (source_of e))) (register_at file (vreg (third_of e)))) }
{
    let d = dest(e, vectors);
    let s = source(e, vectors);
    let t = last(e, vectors);
    let v = narrow(e);
    by_words!(d, s, t => fixed(op, v, d, s, t))
}

pub fn other(e: u64, vectors: &[u8; 512], generals: &[u8; 256]) -> Register
    ensures { (work : List ℕ) (c : Control) → result ≡ register
        (value_of (machine vectors.now generals.now work c) e) }
{
    let w = width_of(e);
    match code_of(e) {
        88 => slide(
            w,
            dest(e, vectors),
            source(e, vectors),
            scalar(e, third_of(e), generals),
        ),
        89 => splat(w, source(e, vectors), scalar(e, third_of(e), generals)),
        90 => {
            let s = source(e, vectors);
            let t = spread(w, imm_of(e));
            by_words!(s, t => places::sat_s(w, s, t))
        }
        91 => {
            let s = source(e, vectors);
            let t = spread(w, imm_of(e));
            by_words!(s, t => places::sat_u(w, s, t))
        }
        92 => spread(w, scalar(e, source_of(e), generals)),
        93 => shf(w, source(e, vectors), (imm_of(e) % 256) as u8),
        94 => {
            let s = source(e, vectors);
            insert(w, dest(e, vectors), imm_of(e), inserted(e, s, generals))
        }
        95 => source(e, vectors),
        96 => counted(Count::Pcnt, w, source(e, vectors)),
        97 => counted(Count::Nloc, w, source(e, vectors)),
        98 => counted(Count::Nlzc, w, source(e, vectors)),
        99 => multiplied(Fixed::MulQ, e, vectors),
        100 => multiplied(Fixed::MaddQ, e, vectors),
        101 => multiplied(Fixed::MsubQ, e, vectors),
        102 => multiplied(Fixed::MulrQ, e, vectors),
        103 => multiplied(Fixed::MaddrQ, e, vectors),
        _ => multiplied(Fixed::MsubrQ, e, vectors),
    }
}
