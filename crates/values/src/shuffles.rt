// VSHF, code 80. Its elements are chosen from the file itself, wt and ws being read for nothing else; but for an entry
// that has an immediate in the place of wt, as no word reads.
ghost use Rattle.std.specs.Prelude.{◌≡◌, cond, length};
ghost use Rattle.isa.specs.Widths.{bits};
ghost use Rattle.memory.specs.File.{register_at};
ghost use Rattle.memory.specs.Value.{register};
ghost use Rattle.permute.specs.Permute.{chosen_by_control};
ghost use Rattle.vectors.specs.Register.{filled, whole};
ghost use Rattle.entries.specs.Cut.{width_of, flag_of, dest_of, source_of, third_of, extended_of};
ghost use Rattle.acts.specs.Act.{vreg};

use crate::both::by_words;
use crate::operands::{dest, source, third};
use entries::parts::{flag_of, source_of, third_of, width_of};
use isa::Vreg;
use memory::Register;
use permute::filed::chosen_in;
use permute::vshf;

pub fn shuffled(e: u64, vectors: &[u8; 512]) -> Register
    ensures { let file = vectors.now in let n = bits (width_of e) in
        result ≡ register (whole n (chosen_by_control n (register_at file (vreg (dest_of e)))
        (register_at file (vreg (source_of e)))
        (cond (flag_of e) (filled n (extended_of e)) (register_at file (vreg (third_of e)))))) }
{
    let w = width_of(e);
    let d = dest(e, vectors);
    if flag_of(e) {
        return vshf(w, d, source(e, vectors), third(e, vectors));
    }
    let s = Vreg(source_of(e));
    let t = Vreg(third_of(e));
    by_words!(d => chosen_in(w, d, vectors, s, t))
}
