// A sum of three, held to a range without a number of more than 64 bits on the way.
ghost use Rattle.std.specs.Prelude.{◌≡◌, ◌+◌, ◌-◌, ◌^◌, ◌<◌, min};
ghost use Rattle.isa.specs.Widths.{bits};

use element::ones;
use isa::Width;

// u + plus - minus, held to the numbers of the width.
pub fn clip(w: Width, u: u64, plus: u64, minus: u64) -> u64
    requires { u < 2 ^ bits w }
    ensures { result ≡ min (u + plus - minus) (2 ^ bits w - 1) }
{
    if plus < minus {
        let down = minus - plus;
        return if u < down { 0 } else { u - down };
    }
    let up = plus - minus;
    let most = ones(w);
    if most - u < up { most } else { u + up }
}
