// Sums and differences that wrap at the element's width, by std's wrapping operations at the four widths.
// An arm for each width: a trait of the four number types, with its laws, would be longer and say no more.
ghost use Rattle.std.specs.Prelude.{◌≡◌, ◌%◌, ◌^◌};
ghost use Rattle.isa.specs.Widths.{bits};
ghost use Rattle.element.specs.Elements.{Elements};
ghost use Rattle.linear.specs.Sums as sums;

use element::magnitude;
use isa::Width;

// The low bits of x.
fn byte(x: u64) -> u8
    ensures { result ≡ x % 2 ^ 8 }
{
    (x % 0x100) as u8
}

fn halfword(x: u64) -> u16
    ensures { result ≡ x % 2 ^ 16 }
{
    (x % 0x1_0000) as u16
}

fn word(x: u64) -> u32
    ensures { result ≡ x % 2 ^ 32 }
{
    (x % 0x1_0000_0000) as u32
}

pub fn addv(w: Width, s: u64, t: u64) -> u64
    ensures { result ≡ sums.addv (bits w) s t }
{
    match w {
        Width::B => byte(s).wrapping_add(byte(t)) as u64,
        Width::H => halfword(s).wrapping_add(halfword(t)) as u64,
        Width::W => word(s).wrapping_add(word(t)) as u64,
        Width::D => s.wrapping_add(t),
    }
}

pub fn subv(w: Width, s: u64, t: u64) -> u64
    ensures { result ≡ sums.subv (bits w) s t }
{
    match w {
        Width::B => byte(s).wrapping_sub(byte(t)) as u64,
        Width::H => halfword(s).wrapping_sub(halfword(t)) as u64,
        Width::W => word(s).wrapping_sub(word(t)) as u64,
        Width::D => s.wrapping_sub(t),
    }
}

pub fn add_a(w: Width, s: u64, t: u64) -> u64
    requires { Elements (bits w) s t }
    ensures { result ≡ sums.add_a (bits w) s t }
{
    addv(w, magnitude(w, s), magnitude(w, t))
}
