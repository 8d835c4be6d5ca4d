// A format with an index in it, Tables 3.13 and 3.14, as a number: df/n of ELM and df/m of BIT.
ghost use Rattle.std.specs.Prelude.{◌≡◌};
ghost use Rattle.isa.specs.Widths as format;
ghost use Rattle.writing.specs.Writing as writing;

use isa::Width;

pub fn bit_size(df: Width) -> u8
    ensures { result ≡ format.bits df }
{
    match df {
        Width::B => 8,
        Width::H => 16,
        Width::W => 32,
        Width::D => 64,
    }
}

pub fn bit_code(df: Width, m: u8) -> u32
    ensures { result ≡ writing.bit_code df m }
{
    let m = m as u32;
    match df {
        Width::B => 112 + m,
        Width::H => 96 + m,
        Width::W => 64 + m,
        Width::D => m,
    }
}

pub fn element_count(df: Width) -> u8
    ensures { result ≡ format.elements df }
{
    match df {
        Width::B => 16,
        Width::H => 8,
        Width::W => 4,
        Width::D => 2,
    }
}

pub fn element_code(df: Width, n: u8) -> u32
    ensures { result ≡ writing.element_code df n }
{
    let n = n as u32;
    match df {
        Width::B => n,
        Width::H => 32 + n,
        Width::W => 48 + n,
        Width::D => 56 + n,
    }
}
