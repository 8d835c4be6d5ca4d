// What the operation at a place of the table does, at the border between the decoded instruction and its meaning: an
// arm a line of ops/specs/Table.antt, in the order of its lines. The last arm is for the places that are no operation
// of the class.
#![tactic(auto)]

ghost use Rattle.std.specs.Prelude.{◌≡◌};
ghost use Rattle.ops.specs.Meaning.{three_at, indexed_at, imm5_at, bit_at, logic_at};
ghost use Rattle.ops.specs.Meaning.{copied_at, count_at, memory_at, zero_at, scaled_at, fixed_at};

use isa::{
    Absolute, Across, Addition, Arith, Basic, BitOp, Bitwise, Compare, Copied, Count, Dot, Fixed,
    Indexed, Logic, Memory, Op, Pack, Product, Rounding, Saturate, Scaled, Subtraction, Three,
    Zero,
};

// What an operation of 3R does with three vector registers.
#[tactic(auto, unfolding(ops::specs::Meaning::three_at))]
pub fn three_at(op: Op) -> Three
    ensures { result ≡ three_at op.0 }
{
    match op.0 {
        104 => Three::Bitwise(Bitwise::Sll),
        105 => Three::Bitwise(Bitwise::Sra),
        106 => Three::Bitwise(Bitwise::Srl),
        107 => Three::Bitwise(Bitwise::Bclr),
        108 => Three::Bitwise(Bitwise::Bset),
        109 => Three::Bitwise(Bitwise::Bneg),
        110 => Three::Bitwise(Bitwise::Binsl),
        111 => Three::Bitwise(Bitwise::Binsr),
        112 => Three::Arith(Arith::Basic(Basic::Addv)),
        113 => Three::Arith(Arith::Basic(Basic::Subv)),
        114 => Three::Arith(Arith::Basic(Basic::MaxS)),
        115 => Three::Arith(Arith::Basic(Basic::MaxU)),
        116 => Three::Arith(Arith::Basic(Basic::MinS)),
        117 => Three::Arith(Arith::Basic(Basic::MinU)),
        118 => Three::Arith(Arith::Absolute(Absolute::MaxA)),
        119 => Three::Arith(Arith::Absolute(Absolute::MinA)),
        120 => Three::Arith(Arith::Compare(Compare::Ceq)),
        122 => Three::Arith(Arith::Compare(Compare::CltS)),
        123 => Three::Arith(Arith::Compare(Compare::CltU)),
        124 => Three::Arith(Arith::Compare(Compare::CleS)),
        125 => Three::Arith(Arith::Compare(Compare::CleU)),
        128 => Three::Arith(Arith::Addition(Addition::AddA)),
        129 => Three::Arith(Arith::Addition(Addition::AddsA)),
        130 => Three::Arith(Arith::Addition(Addition::AddsS)),
        131 => Three::Arith(Arith::Addition(Addition::AddsU)),
        132 => Three::Arith(Arith::Addition(Addition::AveS)),
        133 => Three::Arith(Arith::Addition(Addition::AveU)),
        134 => Three::Arith(Arith::Addition(Addition::AverS)),
        135 => Three::Arith(Arith::Addition(Addition::AverU)),
        136 => Three::Arith(Arith::Subtraction(Subtraction::SubsS)),
        137 => Three::Arith(Arith::Subtraction(Subtraction::SubsU)),
        138 => Three::Arith(Arith::Subtraction(Subtraction::SubsusU)),
        139 => Three::Arith(Arith::Subtraction(Subtraction::SubsuuS)),
        140 => Three::Arith(Arith::Subtraction(Subtraction::AsubS)),
        141 => Three::Arith(Arith::Subtraction(Subtraction::AsubU)),
        144 => Three::Arith(Arith::Product(Product::Mulv)),
        145 => Three::Arith(Arith::Product(Product::Maddv)),
        146 => Three::Arith(Arith::Product(Product::Msubv)),
        148 => Three::Arith(Arith::Product(Product::DivS)),
        149 => Three::Arith(Arith::Product(Product::DivU)),
        150 => Three::Arith(Arith::Product(Product::ModS)),
        151 => Three::Arith(Arith::Product(Product::ModU)),
        152 => Three::Arith(Arith::Dot(Dot::DotpS)),
        153 => Three::Arith(Arith::Dot(Dot::DotpU)),
        154 => Three::Arith(Arith::Dot(Dot::DpaddS)),
        155 => Three::Arith(Arith::Dot(Dot::DpaddU)),
        156 => Three::Arith(Arith::Dot(Dot::DpsubS)),
        157 => Three::Arith(Arith::Dot(Dot::DpsubU)),
        162 => Three::Pack(Pack::Pckev),
        163 => Three::Pack(Pack::Pckod),
        164 => Three::Pack(Pack::Ilvl),
        165 => Three::Pack(Pack::Ilvr),
        166 => Three::Pack(Pack::Ilvev),
        167 => Three::Pack(Pack::Ilvod),
        168 => Three::Vshf,
        169 => Three::Rounding(Rounding::Srar),
        170 => Three::Rounding(Rounding::Srlr),
        172 => Three::Arith(Arith::Across(Across::HaddS)),
        173 => Three::Arith(Arith::Across(Across::HaddU)),
        174 => Three::Arith(Arith::Across(Across::HsubS)),
        175 => Three::Arith(Arith::Across(Across::HsubU)),
        _ => Three::Vshf,
    }
}

// What an operation does by an index: a general register of 3R, or the index of ELM.
#[tactic(auto, unfolding(ops::specs::Meaning::indexed_at))]
pub fn indexed_at(op: Op) -> Indexed
    ensures { result ≡ indexed_at op.0 }
{
    match op.0 {
        160 => Indexed::Sld,
        161 => Indexed::Splat,
        320 => Indexed::Sld,
        321 => Indexed::Splat,
        _ => Indexed::Splat,
    }
}

// What an operation of I5 does.
#[tactic(auto, unfolding(ops::specs::Meaning::imm5_at))]
pub fn imm5_at(op: Op) -> Arith
    ensures { result ≡ imm5_at op.0 }
{
    match op.0 {
        48 => Arith::Basic(Basic::Addv),
        49 => Arith::Basic(Basic::Subv),
        51 => Arith::Basic(Basic::MaxU),
        53 => Arith::Basic(Basic::MinU),
        59 => Arith::Compare(Compare::CltU),
        61 => Arith::Compare(Compare::CleU),
        50 => Arith::Basic(Basic::MaxS),
        52 => Arith::Basic(Basic::MinS),
        56 => Arith::Compare(Compare::Ceq),
        58 => Arith::Compare(Compare::CltS),
        60 => Arith::Compare(Compare::CleS),
        _ => Arith::Compare(Compare::CleS),
    }
}

// What an operation of BIT does.
#[tactic(auto, unfolding(ops::specs::Meaning::bit_at))]
pub fn bit_at(op: Op) -> BitOp
    ensures { result ≡ bit_at op.0 }
{
    match op.0 {
        72 => BitOp::Bitwise(Bitwise::Sll),
        73 => BitOp::Bitwise(Bitwise::Sra),
        74 => BitOp::Bitwise(Bitwise::Srl),
        75 => BitOp::Bitwise(Bitwise::Bclr),
        76 => BitOp::Bitwise(Bitwise::Bset),
        77 => BitOp::Bitwise(Bitwise::Bneg),
        78 => BitOp::Bitwise(Bitwise::Binsl),
        79 => BitOp::Bitwise(Bitwise::Binsr),
        80 => BitOp::Saturate(Saturate::SatS),
        81 => BitOp::Saturate(Saturate::SatU),
        82 => BitOp::Rounding(Rounding::Srar),
        83 => BitOp::Rounding(Rounding::Srlr),
        _ => BitOp::Rounding(Rounding::Srlr),
    }
}

// What an operation of I8 or VEC does.
#[tactic(auto, unfolding(ops::specs::Meaning::logic_at))]
pub fn logic_at(op: Op) -> Logic
    ensures { result ≡ logic_at op.0 }
{
    match op.0 {
        0 => Logic::And,
        1 => Logic::Or,
        2 => Logic::Nor,
        3 => Logic::Xor,
        8 => Logic::Bmnz,
        9 => Logic::Bmz,
        10 => Logic::Bsel,
        352 => Logic::And,
        353 => Logic::Or,
        354 => Logic::Nor,
        355 => Logic::Xor,
        356 => Logic::Bmnz,
        357 => Logic::Bmz,
        358 => Logic::Bsel,
        _ => Logic::Bsel,
    }
}

// Which of COPY_S and COPY_U an operation is.
#[tactic(auto, unfolding(ops::specs::Meaning::copied_at))]
pub fn copied_at(op: Op) -> Copied
    ensures { result ≡ copied_at op.0 }
{
    match op.0 {
        322 => Copied::CopyS,
        _ => Copied::CopyU,
    }
}

// What an operation of 2R counts.
#[tactic(auto, unfolding(ops::specs::Meaning::count_at))]
pub fn count_at(op: Op) -> Count
    ensures { result ≡ count_at op.0 }
{
    match op.0 {
        433 => Count::Pcnt,
        434 => Count::Nloc,
        435 => Count::Nlzc,
        _ => Count::Nlzc,
    }
}

// Which of LD and ST an operation is.
#[tactic(auto, unfolding(ops::specs::Meaning::memory_at))]
pub fn memory_at(op: Op) -> Memory
    ensures { result ≡ memory_at op.0 }
{
    match op.0 {
        256 => Memory::Ld,
        _ => Memory::St,
    }
}

// Which of BZ and BNZ an operation is, with a format or without.
#[tactic(auto, unfolding(ops::specs::Meaning::zero_at))]
pub fn zero_at(op: Op) -> Zero
    ensures { result ≡ zero_at op.0 }
{
    match op.0 {
        446 => Zero::Bz,
        447 => Zero::Bnz,
        442 => Zero::Bz,
        443 => Zero::Bnz,
        _ => Zero::Bnz,
    }
}

// Which of LSA and DLSA an operation is.
#[tactic(auto, unfolding(ops::specs::Meaning::scaled_at))]
pub fn scaled_at(op: Op) -> Scaled
    ensures { result ≡ scaled_at op.0 }
{
    match op.0 {
        453 => Scaled::Lsa,
        _ => Scaled::Dlsa,
    }
}

// What an operation of 3RF does.
#[tactic(auto, unfolding(ops::specs::Meaning::fixed_at))]
pub fn fixed_at(op: Op) -> Fixed
    ensures { result ≡ fixed_at op.0 }
{
    match op.0 {
        420 => Fixed::MulQ,
        421 => Fixed::MaddQ,
        422 => Fixed::MsubQ,
        428 => Fixed::MulrQ,
        429 => Fixed::MaddrQ,
        430 => Fixed::MsubrQ,
        _ => Fixed::MsubrQ,
    }
}
