// LSA and DLSA: the one group that needs no vector unit.
ghost use Rattle.std.specs.Prelude.{◌≡◌, ◌+◌, ◌^◌, ◌<◌};
ghost use Rattle.plan.specs.Numbers.{lsa, dlsa, scaled_of};

use crate::Plan;
use isa::{Greg, Scaled, Width};
use linear::wrapping::addv;
use permute::moves::extend;
use products::product::mulv;

// Two to the sa + 1.
fn factor(sa: u8) -> u64
    requires { sa < 4 }
    ensures { result ≡ 2 ^ (sa + 1) }
{
    match sa {
        0 => 2,
        1 => 4,
        2 => 8,
        _ => 16,
    }
}

fn lsa_of(x: u64, y: u64, sa: u8) -> u64
    requires { sa < 4 }
    ensures { result ≡ lsa x y sa }
{
    let product = mulv(Width::W, x % 4294967296, factor(sa));
    extend(32, addv(Width::W, product, y % 4294967296))
}

fn dlsa_of(x: u64, y: u64, sa: u8) -> u64
    requires { sa < 4 }
    ensures { result ≡ dlsa x y sa }
{
    addv(Width::D, mulv(Width::D, x, factor(sa)), y)
}

pub fn scaled_of(op: Scaled, x: u64, y: u64, sa: u8) -> u64
    requires { sa < 4 }
    ensures { result ≡ scaled_of op x y sa }
{
    match op {
        Scaled::Lsa => lsa_of(x, y, sa),
        Scaled::Dlsa => dlsa_of(x, y, sa),
    }
}

pub fn scaled(op: Scaled, rd: Greg, x: u64, y: u64, sa: u8) -> Plan
    requires { sa < 4 }
    ensures { result ≡ Plan.General rd (scaled_of op x y sa) }
{
    Plan::General(rd, scaled_of(op, x, y, sa))
}
