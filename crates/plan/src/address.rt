// Addresses and targets: sums modulo 2^64 of a number and a signed field, scaled.
ghost use Rattle.std.specs.Prelude.{◌≡◌, ◌<◌};
ghost use Rattle.isa.specs.Widths.{bytes};
ghost use Rattle.plan.specs.Numbers as numbers;

use isa::Width;
use linear::wrapping::addv;
use permute::moves::extend;
use products::product::mulv;

fn bytes_of(df: Width) -> u64
    ensures { result ≡ bytes df }
{
    match df {
        Width::B => 1,
        Width::H => 2,
        Width::W => 4,
        Width::D => 8,
    }
}

pub fn address(df: Width, offset: u16, x: u64) -> u64
    requires { offset < 1024 }
    ensures { result ≡ numbers.address df offset x }
{
    let step = mulv(Width::D, extend(10, offset as u64), bytes_of(df));
    addv(Width::D, x, step)
}

pub fn target_of(pc: u64, offset: u16) -> u64
    ensures { result ≡ numbers.target pc offset }
{
    let step = mulv(Width::D, extend(16, offset as u64), 4);
    addv(Width::D, addv(Width::D, pc, 4), step)
}
