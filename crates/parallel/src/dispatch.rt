// Every operation by its name, on all elements of a word.
ghost use Rattle.isa.specs.Widths.{bits};
ghost use Rattle.linear.specs.Operations.{basic_of, absolute_of, compare_of, addition_of, subtraction_of};
ghost use Rattle.parallel.specs.Lanes.{Each2};

use super::{clipped, compares, means, wrapping};
use element::Reading;
use isa::{Absolute, Addition, Basic, Compare, Subtraction, Width};

pub fn basic(op: Basic, w: Width, s: u64, t: u64) -> u64
    ensures { Each2 (bits w) result (basic_of op (bits w)) s t }
{
    match op {
        Basic::Addv => wrapping::addv(w, s, t),
        Basic::Subv => wrapping::subv(w, s, t),
        Basic::MaxS => compares::larger(w, Reading::Signed, s, t),
        Basic::MaxU => compares::larger(w, Reading::Unsigned, s, t),
        Basic::MinS => compares::smaller(w, Reading::Signed, s, t),
        Basic::MinU => compares::smaller(w, Reading::Unsigned, s, t),
    }
}

pub fn absolute(op: Absolute, w: Width, s: u64, t: u64) -> u64
    ensures { Each2 (bits w) result (absolute_of op (bits w)) s t }
{
    match op {
        Absolute::MaxA => clipped::max_a(w, s, t),
        Absolute::MinA => clipped::min_a(w, s, t),
    }
}

pub fn compare(op: Compare, w: Width, s: u64, t: u64) -> u64
    ensures { Each2 (bits w) result (compare_of op (bits w)) s t }
{
    match op {
        Compare::Ceq => compares::equal(w, s, t),
        Compare::CltS => compares::less(w, Reading::Signed, s, t),
        Compare::CltU => compares::less(w, Reading::Unsigned, s, t),
        Compare::CleS => compares::not_more(w, Reading::Signed, s, t),
        Compare::CleU => compares::not_more(w, Reading::Unsigned, s, t),
    }
}

pub fn addition(op: Addition, w: Width, s: u64, t: u64) -> u64
    ensures { Each2 (bits w) result (addition_of op (bits w)) s t }
{
    match op {
        Addition::AddA => clipped::add_a(w, s, t),
        Addition::AddsA => clipped::adds_a(w, s, t),
        Addition::AddsS => clipped::adds_s(w, s, t),
        Addition::AddsU => clipped::adds_u(w, s, t),
        Addition::AveS => means::average(w, Reading::Signed, s, t),
        Addition::AveU => means::average(w, Reading::Unsigned, s, t),
        Addition::AverS => means::average_up(w, Reading::Signed, s, t),
        Addition::AverU => means::average_up(w, Reading::Unsigned, s, t),
    }
}

pub fn subtraction(op: Subtraction, w: Width, s: u64, t: u64) -> u64
    ensures { Each2 (bits w) result (subtraction_of op (bits w)) s t }
{
    match op {
        Subtraction::SubsS => clipped::subs_s(w, s, t),
        Subtraction::SubsU => clipped::subs_u(w, s, t),
        Subtraction::SubsusU => clipped::subsus_u(w, s, t),
        Subtraction::SubsuuS => clipped::subsuu_s(w, s, t),
        Subtraction::AsubS => clipped::asub(w, Reading::Signed, s, t),
        Subtraction::AsubU => clipped::asub(w, Reading::Unsigned, s, t),
    }
}
