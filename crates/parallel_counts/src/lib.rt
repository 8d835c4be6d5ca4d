// The counts of Table 4.2 on all elements of a word at once: neighbours' ones are added until an element has its own,
// and leading zeros are the ones of what is left when ones fill an element from its highest one down. The leading zeros
// of one or two large elements, and the ones of one, are counted element by element, which takes fewer steps.
#![tactic(auto)]

ghost use Rattle.std.specs.Prelude.{◌≡◌, ◌+◌, ◌-◌, ◌*◌, ◌/◌, ◌%◌, ◌^◌, ◌<◌};
ghost use Rattle.std.specs.Int.Bits.{bit_or};
ghost use Rattle.std.specs.Int.Count as count;
ghost use Rattle.std.specs.Int.Count.{count_leading_zeros};
ghost use Rattle.isa.specs.Widths.{bits};
ghost use Rattle.bits.specs.Bits.{count_of};
ghost use Rattle.parallel.specs.Lanes.{Each1, Lanes};
ghost use Rattle.parallel_counts.specs.Runs.{Runs};

use bits::counts;
use isa::{Count, Width};
use parallel::inverse;
use parallel_bits::shr;

// The sum of both halves, of n bits each, of every element of twice as many bits. m has ones in every low half.
fn paired(n: u64, m: u64, x: u64) -> u64
    requires { ((n + n) * (64 / (n + n)) ≡ 64) × Lanes (n + n) m (λ _. 2 ^ n - 1) }
    ensures { Each1 (n + n) result (λ a. a % 2 ^ n + a / 2 ^ n) x }
{
    (x & m) + ((x >> n) & m)
}

// A function each for bytes, halfwords and words: the last is made of the one before it.
fn pcnt_b(s: u64) -> u64
    ensures { Each1 8 result count.ones s }
{
    let pairs = paired(1, 0x5555_5555_5555_5555, s);
    let fours = paired(2, 0x3333_3333_3333_3333, pairs);
    paired(4, 0x0F0F_0F0F_0F0F_0F0F, fours)
}

fn pcnt_h(s: u64) -> u64
    ensures { Each1 16 result count.ones s }
{
    paired(8, 0x00FF_00FF_00FF_00FF, pcnt_b(s))
}

fn pcnt_w(s: u64) -> u64
    ensures { Each1 32 result count.ones s }
{
    paired(16, 0x0000_FFFF_0000_FFFF, pcnt_h(s))
}

fn pcnt(w: Width, s: u64) -> u64
    ensures { Each1 (bits w) result count.ones s }
{
    match w {
        Width::B => pcnt_b(s),
        Width::H => pcnt_h(s),
        Width::W => pcnt_w(s),
        Width::D => counts::pcnt(s),
    }
}

// Every element with its ones put k places lower too.
fn lowered(w: Width, x: u64, k: u64) -> u64
    requires { k < bits w }
    ensures { Each1 (bits w) result (λ a. bit_or a (a / 2 ^ k)) x }
{
    x | shr(w, x, k)
}

// In every element 8 ones from its highest one down, or as many as there is room for.
fn run_8(w: Width, s: u64) -> u64
    ensures { Runs (bits w) 8 result s }
{
    lowered(w, lowered(w, lowered(w, s, 1), 2), 4)
}

fn nlzc_w(s: u64) -> u64
    ensures { Each1 32 result (count_leading_zeros 32) s }
{
    let low = counts::nlzc(Width::W, s % 0x1_0000_0000);
    let high = counts::nlzc(Width::W, s >> 32);
    low + (high << 32)
}

fn nlzc(w: Width, s: u64) -> u64
    ensures { Each1 (bits w) result (count_leading_zeros (bits w)) s }
{
    match w {
        Width::B => pcnt_b(inverse(w, run_8(w, s))),
        Width::H => pcnt_h(inverse(w, lowered(w, run_8(w, s), 8))),
        Width::W => nlzc_w(s),
        Width::D => counts::nlzc(w, s),
    }
}

pub fn count_word(op: Count, w: Width, s: u64) -> u64
    ensures { Each1 (bits w) result (count_of op (bits w)) s }
{
    match op {
        Count::Pcnt => pcnt(w, s),
        Count::Nloc => nlzc(w, inverse(w, s)),
        Count::Nlzc => nlzc(w, s),
    }
}
