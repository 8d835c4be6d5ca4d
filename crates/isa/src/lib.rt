// The decoded instruction: what a word says, and nothing of how it is laid out in bits or what it does. An operation
// in it is its place in the table of operations (crate ops). The enums are what the operations of that table do; they
// follow the rows of the manual's Tables 3.19 to 3.28, so none has more than eight variants. Where one operation
// stands in two formats (ADDV and ADDVI, SLL and SLLI, AND.V and ANDI.B, SLD and SLDI) both do what one enum says:
// its meaning is then said once.
#![tactic(auto)]

ghost use Rattle.std.specs.Prelude.{◌≡◌};
ghost use Rattle.isa.specs.Numbers.{unread_number};

pub mod widths;

// The three register files, kept apart as the manual keeps wd, rs and cs apart.
#[derive(Clone, Copy, Debug, PartialEq, Eq)]
pub struct Vreg(pub u8);

#[derive(Clone, Copy, Debug, PartialEq, Eq)]
pub struct Greg(pub u8);

#[derive(Clone, Copy, Debug, PartialEq, Eq)]
pub struct Creg(pub u8);

// An operation, by its place in the table of operations. A number, and no enum: the definitions of crate ops speak of
// places, and the table has a hundred and thirty.
#[derive(Clone, Copy, Debug, PartialEq, Eq)]
pub struct Op(pub u16);

// The data formats, Table 3.10.
#[derive(Clone, Copy, Debug, PartialEq, Eq)]
pub enum Width {
    B,
    H,
    W,
    D,
}

// 3R 001110 and I5 000110.
#[derive(Clone, Copy)]
pub enum Basic {
    Addv,
    Subv,
    MaxS,
    MaxU,
    MinS,
    MinU,
}

// 3R 001110, by absolute value.
#[derive(Clone, Copy)]
pub enum Absolute {
    MaxA,
    MinA,
}

// 3R 001111 and I5 000111.
#[derive(Clone, Copy)]
pub enum Compare {
    Ceq,
    CltS,
    CltU,
    CleS,
    CleU,
}

// 3R 010000.
#[derive(Clone, Copy)]
pub enum Addition {
    AddA,
    AddsA,
    AddsS,
    AddsU,
    AveS,
    AveU,
    AverS,
    AverU,
}

// 3R 010001.
#[derive(Clone, Copy)]
pub enum Subtraction {
    SubsS,
    SubsU,
    SubsusU,
    SubsuuS,
    AsubS,
    AsubU,
}

// 3R 010010.
#[derive(Clone, Copy)]
pub enum Product {
    Mulv,
    Maddv,
    Msubv,
    DivS,
    DivU,
    ModS,
    ModU,
}

// 3R 010011; no B form.
#[derive(Clone, Copy)]
pub enum Dot {
    DotpS,
    DotpU,
    DpaddS,
    DpaddU,
    DpsubS,
    DpsubU,
}

// 3R 010101; no B form.
#[derive(Clone, Copy)]
pub enum Across {
    HaddS,
    HaddU,
    HsubS,
    HsubU,
}

// Every operation of 3R and I5 that works on numbers: Table 4.1 but SAT, and the compares of Table 4.8.
#[derive(Clone, Copy)]
pub enum Arith {
    Basic(Basic),
    Absolute(Absolute),
    Compare(Compare),
    Addition(Addition),
    Subtraction(Subtraction),
    Product(Product),
    Dot(Dot),
    Across(Across),
}

// 3R 001101 and BIT 001001.
#[derive(Clone, Copy)]
pub enum Bitwise {
    Sll,
    Sra,
    Srl,
    Bclr,
    Bset,
    Bneg,
    Binsl,
    Binsr,
}

// 3R 010101 and BIT 001010.
#[derive(Clone, Copy)]
pub enum Rounding {
    Srar,
    Srlr,
}

// BIT 001010.
#[derive(Clone, Copy)]
pub enum Saturate {
    SatS,
    SatU,
}

// 3RF 011100, Table 4.7; H and W forms alone.
#[derive(Clone, Copy)]
pub enum Fixed {
    MulQ,
    MaddQ,
    MsubQ,
    MulrQ,
    MaddrQ,
    MsubrQ,
}

// 3R 010100, between vector registers.
#[derive(Clone, Copy)]
pub enum Pack {
    Pckev,
    Pckod,
    Ilvl,
    Ilvr,
    Ilvev,
    Ilvod,
}

// 3R 010100 with a general register in place of wt, and ELM with an element's index there.
#[derive(Clone, Copy)]
pub enum Indexed {
    Sld,
    Splat,
}

// What 3R does with three vector registers, Table 3.25.
#[derive(Clone, Copy)]
pub enum Three {
    Arith(Arith),
    Bitwise(Bitwise),
    Rounding(Rounding),
    Pack(Pack),
    Vshf,
}

// What BIT does, Table 3.28.
#[derive(Clone, Copy)]
pub enum BitOp {
    Bitwise(Bitwise),
    Saturate(Saturate),
    Rounding(Rounding),
}

// VEC, Table 3.22, and I8, Table 3.21, but for SHF.
#[derive(Clone, Copy)]
pub enum Logic {
    And,
    Or,
    Nor,
    Xor,
    Bmnz,
    Bmz,
    Bsel,
}

// ELM: from an element to a general register. COPY_U has no D form.
#[derive(Clone, Copy)]
pub enum Copied {
    CopyS,
    CopyU,
}

// 2R, Table 3.23, but for FILL.
#[derive(Clone, Copy)]
pub enum Count {
    Pcnt,
    Nloc,
    Nlzc,
}

// MI10, Table 3.19.
#[derive(Clone, Copy)]
pub enum Memory {
    Ld,
    St,
}

// Table 3.17.
#[derive(Clone, Copy)]
pub enum Zero {
    Bz,
    Bnz,
}

// LSA and DLSA, major opcode 000000.
#[derive(Clone, Copy)]
pub enum Scaled {
    Lsa,
    Dlsa,
}

// An instruction, by its class: which operands it has, and where they stand in its word. A class of one operation
// names none. Immediates, offsets and the LSA shift are the field's bits, not yet signed or scaled.
#[derive(Clone, Copy)]
pub enum Instr {
    Three {
        op: Op,
        df: Width,
        wd: Vreg,
        ws: Vreg,
        wt: Vreg,
    },
    Indexed {
        op: Op,
        df: Width,
        wd: Vreg,
        ws: Vreg,
        rt: Greg,
    },
    Imm5U {
        op: Op,
        df: Width,
        wd: Vreg,
        ws: Vreg,
        imm: u8,
    },
    Imm5S {
        op: Op,
        df: Width,
        wd: Vreg,
        ws: Vreg,
        imm: u8,
    },
    Ldi {
        df: Width,
        wd: Vreg,
        imm: u16,
    },
    Bit {
        op: Op,
        df: Width,
        wd: Vreg,
        ws: Vreg,
        m: u8,
    },
    Imm8 {
        op: Op,
        wd: Vreg,
        ws: Vreg,
        imm: u8,
    },
    Shf {
        df: Width,
        wd: Vreg,
        ws: Vreg,
        imm: u8,
    },
    Element {
        op: Op,
        df: Width,
        wd: Vreg,
        ws: Vreg,
        n: u8,
    },
    Insve {
        df: Width,
        wd: Vreg,
        n: u8,
        ws: Vreg,
    },
    Copy {
        op: Op,
        df: Width,
        rd: Greg,
        ws: Vreg,
        n: u8,
    },
    Insert {
        df: Width,
        wd: Vreg,
        n: u8,
        rs: Greg,
    },
    Move {
        wd: Vreg,
        ws: Vreg,
    },
    Cfcmsa {
        rd: Greg,
        cs: Creg,
    },
    Ctcmsa {
        cd: Creg,
        rs: Greg,
    },
    Vec {
        op: Op,
        wd: Vreg,
        ws: Vreg,
        wt: Vreg,
    },
    Fill {
        df: Width,
        wd: Vreg,
        rs: Greg,
    },
    Count {
        op: Op,
        df: Width,
        wd: Vreg,
        ws: Vreg,
    },
    Memory {
        op: Op,
        df: Width,
        wd: Vreg,
        offset: u16,
        rs: Greg,
    },
    Branch {
        op: Op,
        df: Width,
        wt: Vreg,
        offset: u16,
    },
    BranchV {
        op: Op,
        wt: Vreg,
        offset: u16,
    },
    Scaled {
        op: Op,
        rd: Greg,
        rs: Greg,
        rt: Greg,
        sa: u8,
    },
    Fixed {
        op: Op,
        df: Width,
        wd: Vreg,
        ws: Vreg,
        wt: Vreg,
    },
}

// Why a word reads as no instruction: 12, 13 and 14.
#[derive(Clone, Copy, Debug, PartialEq, Eq)]
pub enum Unread {
    Unassigned,
    LeftOut,
    Other,
}

impl From<Unread> for u8 {
    ghost from_gives = { λ u n. n ≡ unread_number u };

    fn from(u: Unread) -> u8 {
        match u {
            Unread::Unassigned => 12,
            Unread::LeftOut => 13,
            Unread::Other => 14,
        }
    }
}
