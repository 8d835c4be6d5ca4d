// The operands of a word, by the register file that they name and the place where they stand. A name for each field of
// the figures: each is one expression, which one function over the place would not make plainer.
ghost use Rattle.std.specs.Prelude.{◌≡◌};
ghost use Rattle.fields.specs.Fields.{bits};
ghost use Rattle.reading.specs.Reading as reading;

use isa::widths::{hw_at, width_at};
use isa::*;

pub fn df(w: u32) -> Width
    ensures { result ≡ reading.df w }
{
    width_at(w / 2097152 % 4)
}

pub fn hw(w: u32) -> Width
    ensures { result ≡ reading.hw w }
{
    hw_at(w / 2097152 % 2)
}

pub fn vt(w: u32) -> Vreg
    ensures { result ≡ reading.vt w }
{
    Vreg((w / 65536 % 32) as u8)
}

pub fn vs(w: u32) -> Vreg
    ensures { result ≡ reading.vs w }
{
    Vreg((w / 2048 % 32) as u8)
}

pub fn vd(w: u32) -> Vreg
    ensures { result ≡ reading.vd w }
{
    Vreg((w / 64 % 32) as u8)
}

pub fn ga(w: u32) -> Greg
    ensures { result ≡ reading.ga w }
{
    Greg((w / 2097152 % 32) as u8)
}

pub fn gt(w: u32) -> Greg
    ensures { result ≡ reading.gt w }
{
    Greg((w / 65536 % 32) as u8)
}

pub fn gs(w: u32) -> Greg
    ensures { result ≡ reading.gs w }
{
    Greg((w / 2048 % 32) as u8)
}

pub fn gd(w: u32) -> Greg
    ensures { result ≡ reading.gd w }
{
    Greg((w / 64 % 32) as u8)
}

pub fn cs(w: u32) -> Creg
    ensures { result ≡ reading.cs w }
{
    Creg((w / 2048 % 32) as u8)
}

pub fn cd(w: u32) -> Creg
    ensures { result ≡ reading.cd w }
{
    Creg((w / 64 % 32) as u8)
}

// The immediates and offsets.
pub fn imm5(w: u32) -> u8
    ensures { result ≡ bits w 20 16 }
{
    (w / 65536 % 32) as u8
}

pub fn imm8(w: u32) -> u8
    ensures { result ≡ bits w 23 16 }
{
    (w / 65536 % 256) as u8
}

pub fn offset(w: u32) -> u16
    ensures { result ≡ bits w 15 0 }
{
    (w % 65536) as u16
}
