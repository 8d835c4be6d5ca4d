// VSHF: an element's control chooses it from wt and ws side by side.
ghost use Rattle.std.specs.Prelude.{◌≡◌, ◌-◌, ◌/◌, ◌^◌, ◌<◌};
ghost use Rattle.isa.specs.Widths.{bits};
ghost use Rattle.memory.specs.Value.{value};
ghost use Rattle.vectors.specs.Register.{build};
ghost use Rattle.permute.specs.Permute as permute;

use isa::Width;
use memory::Register;

// Word q of wt and ws side by side, wt first.
pub fn word_of(s: Register, t: Register, q: u64) -> u64
    requires { q < 4 }
    ensures { result ≡ permute.both 64 (value s) (value t) q }
{
    if q < 2 {
        return if q == 0 { t.low } else { t.high };
    }
    if q == 2 { s.low } else { s.high }
}

// The word that a word of controls chooses, from the lowest element up. What depends on the width comes as numbers,
// which are literals at each call: the compiler unrolls the loop for each width. The four words are an array.
fn picked(w: Width, n: u64, mask: u64, last: u64, d: u64, s: Register, t: Register) -> u64
    requires { (n ≡ bits w) × ((mask ≡ 2 ^ bits w - 1) × (last ≡ 256 / bits w - 1)) }
    ensures { result ≡ build (bits w) (permute.chosen_by_control (bits w) d (value s) (value t)) (64 / bits w) }
{
    let words = [t.low, t.high, s.low, s.high];
    let mut out = 0;
    for i in 0..64 / n {
        let p = n * i;
        let c = d >> p;
        if c / 64 % 4 == 0 {
            let a = n * (c & last);
            let x = (words[(a / 64) as usize] >> (a % 64)) & mask;
            out += x << p;
        }
    }
    out
}

pub fn chosen(w: Width, d: u64, s: Register, t: Register) -> u64
    ensures { result ≡ build (bits w) (permute.chosen_by_control (bits w) d (value s) (value t)) (64 / bits w) }
{
    match w {
        Width::B => picked(Width::B, 8, 0xFF, 31, d, s, t),
        Width::H => picked(Width::H, 16, 0xFFFF, 15, d, s, t),
        Width::W => picked(Width::W, 32, 0xFFFF_FFFF, 7, d, s, t),
        Width::D => picked(Width::D, 64, 0xFFFF_FFFF_FFFF_FFFF, 3, d, s, t),
    }
}
