// The instruction of an encode case: its class is the place of the variant in Instr, and its registers stand in the
// order of the listing.
use isa::widths::width_at;
use isa::{Creg, Greg, Instr, Op, Vreg, Width};

// The classes of wd, ws and at most one register or one byte more.
fn of_vectors(class: u8, op: Op, df: Width, wd: Vreg, ws: Vreg, c: u8, imm: u8) -> Instr {
    let wt = Vreg(c);
    let rt = Greg(c);
    let n = imm;
    match class {
        0 => Instr::Three { op, df, wd, ws, wt },
        1 => Instr::Indexed { op, df, wd, ws, rt },
        2 => Instr::Imm5U {
            op,
            df,
            wd,
            ws,
            imm,
        },
        3 => Instr::Imm5S {
            op,
            df,
            wd,
            ws,
            imm,
        },
        5 => Instr::Bit {
            op,
            df,
            wd,
            ws,
            m: imm,
        },
        6 => Instr::Imm8 { op, wd, ws, imm },
        7 => Instr::Shf { df, wd, ws, imm },
        8 => Instr::Element { op, df, wd, ws, n },
        9 => Instr::Insve { df, wd, n, ws },
        12 => Instr::Move { wd, ws },
        15 => Instr::Vec { op, wd, ws, wt },
        22 => Instr::Fixed { op, df, wd, ws, wt },
        _ => Instr::Count { op, df, wd, ws },
    }
}

// The classes whose first register is one of vectors, and the other a general one or none.
fn of_memory(class: u8, op: Op, df: Width, wd: Vreg, rs: Greg, offset: u16) -> Instr {
    let n = (offset % 256) as u8;
    match class {
        4 => Instr::Ldi {
            df,
            wd,
            imm: offset,
        },
        11 => Instr::Insert { df, wd, n, rs },
        16 => Instr::Fill { df, wd, rs },
        18 => Instr::Memory {
            op,
            df,
            wd,
            offset,
            rs,
        },
        19 => Instr::Branch {
            op,
            df,
            wt: wd,
            offset,
        },
        _ => Instr::BranchV { op, wt: wd, offset },
    }
}

// The classes that write a general or a control register.
fn of_generals(class: u8, op: Op, df: Width, rd: Greg, b: u8, rt: Greg, n: u8) -> Instr {
    match class {
        10 => Instr::Copy {
            op,
            df,
            rd,
            ws: Vreg(b),
            n,
        },
        13 => Instr::Cfcmsa { rd, cs: Creg(b) },
        14 => Instr::Ctcmsa {
            cd: Creg(rd.0),
            rs: Greg(b),
        },
        _ => Instr::Scaled {
            op,
            rd,
            rs: Greg(b),
            rt,
            sa: n,
        },
    }
}

// An immediate that is a byte is below 256 in every case.
pub fn instr_of(r: [u8; 32]) -> Instr {
    let class = r[6];
    let op = Op(u16::from_le_bytes([r[7], r[8]]));
    let df = width_at(u32::from(r[9]));
    let imm = u16::from_le_bytes([r[13], r[14]]);
    match class {
        4 | 11 | 16 | 18 | 19 | 20 => of_memory(class, op, df, Vreg(r[10]), Greg(r[11]), imm),
        10 | 13 | 14 | 21 => of_generals(class, op, df, Greg(r[10]), r[11], Greg(r[12]), r[13]),
        _ => of_vectors(class, op, df, Vreg(r[10]), Vreg(r[11]), r[12], r[13]),
    }
}
