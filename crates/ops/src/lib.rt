// The table of operations in the code: a byte a place, eight places a number. specs/Table.antt has the table in
// words, and specs/Packed.antt what a byte says.
#![tactic(auto)]

ghost use Rattle.std.specs.Prelude.{◌≡◌, ◌/◌, ◌%◌, ◌^◌, eqb};
ghost use Rattle.isa.specs.declared.Width.{Width};
ghost use Rattle.isa.specs.Widths.{width_code};
ghost use Rattle.ops.specs.Formats as formats;
ghost use Rattle.ops.specs.Table.{class_at, has_form};
ghost use Rattle.ops.specs.Packed.{class_code, class_of, formats_of, byte_at, row_word};

use isa::Width;
use isa::widths::width_code;

// The classes of operations: which operands an instruction has, and where they stand in its word; or that a place is
// reserved, or left out here.
#[derive(Clone, Copy, Debug, PartialEq, Eq)]
pub enum Class {
    Reserved,
    Three,
    Indexed,
    Imm5U,
    Imm5S,
    Ldi,
    Bit,
    Imm8,
    Shf,
    Element,
    Insve,
    Copy,
    Insert,
    Move,
    Cfcmsa,
    Ctcmsa,
    Vec,
    Fill,
    Count,
    Memory,
    Branch,
    BranchV,
    Scaled,
    LeftOut,
    Fixed,
}

// A row of the table in one number, a byte a column.
fn row_word(m: u32) -> u64
    ensures { result ≡ row_word m }
{
    match m {
        0 => 0x0000_0000_6767_6767,
        1 => 0x0000_0000_0067_6767,
        2 => 0x0000_0000_0000_0048,
        6 => 0x0000_0304_0304_0303,
        7 => 0x0005_0304_0304_0004,
        9 => 0x0606_0606_0606_0606,
        10 => 0x0000_0000_0606_0606,
        13 => 0x0101_0101_0101_0101,
        14 => 0x0101_0101_0101_0101,
        15 => 0x0000_0101_0101_0001,
        16 => 0x0101_0101_0101_0101,
        17 => 0x0000_0101_0101_0101,
        18 => 0x0101_0101_0001_0101,
        19 => 0x0000_2121_2121_2121,
        20 => 0x0101_0101_0101_0202,
        21 => 0x2121_2121_0001_0101,
        32 => 0x0000_0000_0000_0013,
        36 => 0x0000_0000_0000_0013,
        40 => 0x0000_0a0c_4b0b_0909,
        42 => 0x0000_0000_008d_aeaf,
        44 => 0x0090_9090_9090_9090,
        47 => 0x0000_0000_0000_b700,
        48 => 0xb7b7_b7b7_b7b7_b7b7,
        49 => 0xb7b7_b7b7_b7b7_b7b7,
        50 => 0xb700_b7b7_b7b7_b7b7,
        51 => 0xb7b7_b7b7_00b7_00b7,
        52 => 0x00d8_d8d8_b7b7_b700,
        53 => 0x00d8_d8d8_b7b7_b700,
        54 => 0x0000_0000_1212_1211,
        55 => 0x1414_0000_9595_0000,
        56 => 0x0000_b600_0000_0000,
        58 => 0x0000_b600_0000_0000,
        _ => 0,
    }
}

// `row_word` for a second caller. Every row is named by a constant: the compiler puts the row's number there, and
// `row_word` keeps one caller with a variable, into which it is compiled.
fn row_beside(m: u32) -> u64
    ensures { result ≡ row_word m }
{
    match m {
        0 => row_word(0),
        1 => row_word(1),
        2 => row_word(2),
        6 => row_word(6),
        7 => row_word(7),
        9 => row_word(9),
        10 => row_word(10),
        13 => row_word(13),
        14 => row_word(14),
        15 => row_word(15),
        16 => row_word(16),
        17 => row_word(17),
        18 => row_word(18),
        19 => row_word(19),
        20 => row_word(20),
        21 => row_word(21),
        32 => row_word(32),
        36 => row_word(36),
        40 => row_word(40),
        42 => row_word(42),
        44 => row_word(44),
        47 => row_word(47),
        48 => row_word(48),
        49 => row_word(49),
        50 => row_word(50),
        51 => row_word(51),
        52 => row_word(52),
        53 => row_word(53),
        54 => row_word(54),
        55 => row_word(55),
        56 => row_word(56),
        58 => row_word(58),
        _ => 0,
    }
}

// The class and, 32 times, the formats at a place.
pub fn byte_at(k: u32) -> u64
    ensures { result ≡ byte_at k }
{
    (row_word(k / 8) >> (k % 8 * 8)) % 256
}

// `byte_at` for a second caller.
pub fn byte_beside(k: u32) -> u64
    ensures { result ≡ byte_at k }
{
    (row_beside(k / 8) >> (k % 8 * 8)) % 256
}

// The class of a number, as a byte of the table holds it; of a number that no byte holds, Reserved.
pub fn class_of(n: u64) -> Class
    ensures { result ≡ class_of n }
{
    match n {
        1 => Class::Three,
        2 => Class::Indexed,
        3 => Class::Imm5U,
        4 => Class::Imm5S,
        5 => Class::Ldi,
        6 => Class::Bit,
        7 => Class::Imm8,
        8 => Class::Shf,
        9 => Class::Element,
        10 => Class::Insve,
        11 => Class::Copy,
        12 => Class::Insert,
        13 => Class::Move,
        14 => Class::Cfcmsa,
        15 => Class::Ctcmsa,
        16 => Class::Vec,
        17 => Class::Fill,
        18 => Class::Count,
        19 => Class::Memory,
        20 => Class::Branch,
        21 => Class::BranchV,
        22 => Class::Scaled,
        23 => Class::LeftOut,
        24 => Class::Fixed,
        _ => Class::Reserved,
    }
}

// The number of a class, as a byte of the table holds it.
impl From<Class> for u64 {
    ghost from_gives = { λ c n. n ≡ class_code c };

    fn from(c: Class) -> u64 {
        match c {
            Class::Reserved => 0,
            Class::Three => 1,
            Class::Indexed => 2,
            Class::Imm5U => 3,
            Class::Imm5S => 4,
            Class::Ldi => 5,
            Class::Bit => 6,
            Class::Imm8 => 7,
            Class::Shf => 8,
            Class::Element => 9,
            Class::Insve => 10,
            Class::Copy => 11,
            Class::Insert => 12,
            Class::Move => 13,
            Class::Cfcmsa => 14,
            Class::Ctcmsa => 15,
            Class::Vec => 16,
            Class::Fill => 17,
            Class::Count => 18,
            Class::Memory => 19,
            Class::Branch => 20,
            Class::BranchV => 21,
            Class::Scaled => 22,
            Class::LeftOut => 23,
            Class::Fixed => 24,
        }
    }
}

// Whether the class at a place has this number.
pub fn stands(k: u32, class: u64) -> bool
    ensures { result ≡ eqb (class_code (class_at k)) class }
{
    byte_at(k) % 32 == class
}

// A choice of formats, by its number, in bits: a format's stands at the place of its code.
fn format_bits(n: u64) -> u64
    ensures { (df : Width) → eqb (result / 2 ^ width_code df % 2) 1 ≡ formats.has (formats_of n) df }
{
    match n {
        0 => 0b1111,
        1 => 0b1110,
        2 => 0b0111,
        3 => 0b0001,
        6 => 0b0110,
        _ => 0,
    }
}

// Whether a choice of formats, by its number, has a format. No enum in place of the number, here and in the readers: any
// number has an answer, and a type of seven would ask more of who has one.
pub fn has(n: u64, df: Width) -> bool
    ensures { result ≡ formats.has (formats_of n) df }
{
    (format_bits(n) >> (width_code(df) as u64)) % 2 == 1
}

// Whether the operation at a place has a format.
pub fn has_form(k: u32, df: Width) -> bool
    ensures { result ≡ has_form k df }
{
    has(byte_at(k) / 32, df)
}
