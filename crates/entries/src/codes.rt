// The code of what a word asks for, a definition of specs/Entry.antt a function. An enum that holds others has a
// function for each of them, so that no match has more than eight arms. Codes are numbers: C lends the list as such.
ghost use Rattle.std.specs.Prelude.{◌≡◌, ◌<◌};
ghost use Rattle.isa.specs.declared.Arith.TheVariants as arith;
ghost use Rattle.isa.specs.declared.BitOp.TheVariants as bit;
ghost use Rattle.entries.specs.Entry.{memory_code, scaled_code, zero_code, logic_code, three_code, arith_code, bit_code};
ghost use Rattle.entries.specs.Entry.{indexed_code, count_code, fixed_code, copied_code, unread_code};

use isa::*;

// The codes of the classes that have one operation. FILL is LDI's too, and INSERT is INSVE's.
pub const FILL: u64 = 92;

pub const SHF: u64 = 93;

pub const INSERT: u64 = 94;

pub const MOVE: u64 = 95;

pub const CFCMSA: u64 = 107;

pub const CTCMSA: u64 = 108;

pub fn memory_code(o: Memory) -> u64
    ensures { result ≡ memory_code o }
{
    match o {
        Memory::Ld => 0,
        Memory::St => 1,
    }
}

pub fn scaled_code(o: Scaled) -> u64
    ensures { result ≡ scaled_code o }
{
    match o {
        Scaled::Lsa => 2,
        Scaled::Dlsa => 3,
    }
}

pub fn zero_code(o: Zero) -> u64
    ensures { (result ≡ zero_code o) × (result < 6) }
{
    match o {
        Zero::Bz => 4,
        Zero::Bnz => 5,
    }
}

pub fn logic_code(o: Logic) -> u64
    ensures { result ≡ logic_code o }
{
    match o {
        Logic::And => 8,
        Logic::Or => 9,
        Logic::Nor => 10,
        Logic::Xor => 11,
        Logic::Bmnz => 12,
        Logic::Bmz => 13,
        Logic::Bsel => 14,
    }
}

// 3R, by the place of its operation.
pub fn three_code(k: u16) -> u64
    ensures { result ≡ three_code k }
{
    if k < 88 {
        return 0;
    }
    (k - 88) as u64
}

fn basic_code(o: Basic) -> u64
    ensures { result ≡ arith_code (arith.Basic o) }
{
    match o {
        Basic::Addv => 24,
        Basic::Subv => 25,
        Basic::MaxS => 26,
        Basic::MaxU => 27,
        Basic::MinS => 28,
        Basic::MinU => 29,
    }
}

fn absolute_code(o: Absolute) -> u64
    ensures { result ≡ arith_code (arith.Absolute o) }
{
    match o {
        Absolute::MaxA => 30,
        Absolute::MinA => 31,
    }
}

fn compare_code(o: Compare) -> u64
    ensures { result ≡ arith_code (arith.Compare o) }
{
    match o {
        Compare::Ceq => 32,
        Compare::CltS => 34,
        Compare::CltU => 35,
        Compare::CleS => 36,
        Compare::CleU => 37,
    }
}

fn addition_code(o: Addition) -> u64
    ensures { result ≡ arith_code (arith.Addition o) }
{
    match o {
        Addition::AddA => 40,
        Addition::AddsA => 41,
        Addition::AddsS => 42,
        Addition::AddsU => 43,
        Addition::AveS => 44,
        Addition::AveU => 45,
        Addition::AverS => 46,
        Addition::AverU => 47,
    }
}

fn subtraction_code(o: Subtraction) -> u64
    ensures { result ≡ arith_code (arith.Subtraction o) }
{
    match o {
        Subtraction::SubsS => 48,
        Subtraction::SubsU => 49,
        Subtraction::SubsusU => 50,
        Subtraction::SubsuuS => 51,
        Subtraction::AsubS => 52,
        Subtraction::AsubU => 53,
    }
}

fn product_code(o: Product) -> u64
    ensures { result ≡ arith_code (arith.Product o) }
{
    match o {
        Product::Mulv => 56,
        Product::Maddv => 57,
        Product::Msubv => 58,
        Product::DivS => 60,
        Product::DivU => 61,
        Product::ModS => 62,
        Product::ModU => 63,
    }
}

fn dot_code(o: Dot) -> u64
    ensures { result ≡ arith_code (arith.Dot o) }
{
    match o {
        Dot::DotpS => 64,
        Dot::DotpU => 65,
        Dot::DpaddS => 66,
        Dot::DpaddU => 67,
        Dot::DpsubS => 68,
        Dot::DpsubU => 69,
    }
}

fn across_code(o: Across) -> u64
    ensures { result ≡ arith_code (arith.Across o) }
{
    match o {
        Across::HaddS => 84,
        Across::HaddU => 85,
        Across::HsubS => 86,
        Across::HsubU => 87,
    }
}

pub fn arith_code(o: Arith) -> u64
    ensures { result ≡ arith_code o }
{
    match o {
        Arith::Basic(a) => basic_code(a),
        Arith::Absolute(a) => absolute_code(a),
        Arith::Compare(a) => compare_code(a),
        Arith::Addition(a) => addition_code(a),
        Arith::Subtraction(a) => subtraction_code(a),
        Arith::Product(a) => product_code(a),
        Arith::Dot(a) => dot_code(a),
        Arith::Across(a) => across_code(a),
    }
}

fn bitwise_code(o: Bitwise) -> u64
    ensures { result ≡ bit_code (bit.Bitwise o) }
{
    match o {
        Bitwise::Sll => 16,
        Bitwise::Sra => 17,
        Bitwise::Srl => 18,
        Bitwise::Bclr => 19,
        Bitwise::Bset => 20,
        Bitwise::Bneg => 21,
        Bitwise::Binsl => 22,
        Bitwise::Binsr => 23,
    }
}

fn saturate_code(o: Saturate) -> u64
    ensures { result ≡ bit_code (bit.Saturate o) }
{
    match o {
        Saturate::SatS => 90,
        Saturate::SatU => 91,
    }
}

fn rounding_code(o: Rounding) -> u64
    ensures { result ≡ bit_code (bit.Rounding o) }
{
    match o {
        Rounding::Srar => 81,
        Rounding::Srlr => 82,
    }
}

pub fn bit_code(o: BitOp) -> u64
    ensures { result ≡ bit_code o }
{
    match o {
        BitOp::Bitwise(a) => bitwise_code(a),
        BitOp::Saturate(a) => saturate_code(a),
        BitOp::Rounding(a) => rounding_code(a),
    }
}

pub fn indexed_code(o: Indexed) -> u64
    ensures { result ≡ indexed_code o }
{
    match o {
        Indexed::Sld => 88,
        Indexed::Splat => 89,
    }
}

pub fn count_code(o: Count) -> u64
    ensures { result ≡ count_code o }
{
    match o {
        Count::Pcnt => 96,
        Count::Nloc => 97,
        Count::Nlzc => 98,
    }
}

pub fn fixed_code(o: Fixed) -> u64
    ensures { result ≡ fixed_code o }
{
    match o {
        Fixed::MulQ => 99,
        Fixed::MaddQ => 100,
        Fixed::MsubQ => 101,
        Fixed::MulrQ => 102,
        Fixed::MaddrQ => 103,
        Fixed::MsubrQ => 104,
    }
}

pub fn copied_code(o: Copied) -> u64
    ensures { result ≡ copied_code o }
{
    match o {
        Copied::CopyS => 105,
        Copied::CopyU => 106,
    }
}

pub fn unread_code(o: Unread) -> u64
    ensures { result ≡ unread_code o }
{
    match o {
        Unread::Unassigned => 109,
        Unread::LeftOut => 110,
        Unread::Other => 111,
    }
}
