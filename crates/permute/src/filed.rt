// VSHF of registers in their file: an element's control chooses it straight from the lent bytes of wt and ws. For an
// engine that reads these two for nothing else.
ghost use Rattle.std.specs.Prelude.{◌≡◌, ◌+◌, ◌/◌, ◌≤◌, ◌<◌, length};
ghost use Rattle.isa.specs.Widths.{bits, bytes};
ghost use Rattle.memory.specs.Bytes.{number, part};
ghost use Rattle.memory.specs.File.{register_at};
ghost use Rattle.vectors.specs.Register.{build};
ghost use Rattle.permute.specs.Permute.{chosen_by_control};

use isa::{Vreg, Width};
use memory::{eight, four, two};

// The element whose bytes begin at at.
fn item(w: Width, s: &[u8], at: usize) -> u64
    requires { at + bytes w ≤ length s.now }
    ensures { result ≡ number (part s.now at (bytes w)) }
{
    match w {
        Width::B => u64::from(s[at]),
        Width::H => u64::from(two(s, at)),
        Width::W => u64::from(four(s, at)),
        Width::D => eight(s, at),
    }
}

// The word that a word of controls chooses, from the lowest element up. What depends on the width comes as numbers,
// which are literals at each call, so that the compiler unrolls the loop for each width: the bits n and the bytes b of
// an element, and the elements m of a register.
fn picked(w: Width, n: u64, b: u64, m: u64, d: u64, file: &[u8], s: u8, t: u8) -> u64
    requires { (n ≡ bits w) × (b ≡ bytes w) × (m ≡ 128 / bits w) × (length file.now ≡ 512) × (s < 32)
        × (t < 32) }
    ensures { result ≡ build (bits w) (chosen_by_control (bits w) d
        (register_at file.now (record { 0 = s })) (register_at file.now (record { 0 = t })))
        (64 / bits w) }
{
    let mut out = 0;
    for i in 0..64 / n {
        let p = n * i;
        let c = d >> p;
        if c / 64 % 4 == 0 {
            let r = if c / m % 2 == 0 { t } else { s };
            let at = 16 * u64::from(r) + b * (c % m);
            out += item(w, file, at as usize) << p;
        }
    }
    out
}

pub fn chosen_in(w: Width, d: u64, file: &[u8], s: Vreg, t: Vreg) -> u64
    requires { (length file.now ≡ 512) × (s.0 < 32) × (t.0 < 32) }
    ensures { result ≡ build (bits w) (chosen_by_control (bits w) d
        (register_at file.now s) (register_at file.now t)) (64 / bits w) }
{
    match w {
        Width::B => picked(Width::B, 8, 1, 16, d, file, s.0, t.0),
        Width::H => picked(Width::H, 16, 2, 8, d, file, s.0, t.0),
        Width::W => picked(Width::W, 32, 4, 4, d, file, s.0, t.0),
        Width::D => picked(Width::D, 64, 8, 2, d, file, s.0, t.0),
    }
}
