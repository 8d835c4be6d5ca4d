// Plans that write a vector register: read the sources, work, name the destination.
ghost use Rattle.std.specs.Prelude.{◌≡◌, ◌<◌, ◌≤◌, length};
ghost use Rattle.isa.specs.Widths.{bits};
ghost use Rattle.memory.specs.File.{register_at};
ghost use Rattle.forms.specs.Forms.{three_of, fixed_of, indexed_of, imm5_of, bit_of, imm8_of, count_of};
ghost use Rattle.logic.specs.Logic.{logic_bit};
ghost use Rattle.permute.specs.Loaded.{loaded};
ghost use Rattle.permute.specs.Permute.{chosen_by_immediate, with_element};
ghost use Rattle.vectors.specs.Register.{whole, together, filled, element};
ghost use Rattle.plan.specs.Plan.{writes};

use crate::Plan;
use isa::{Arith, BitOp, Count, Fixed, Indexed, Logic, Three, Vreg, Width};
use memory::file::read_register;

pub fn three(op: Three, df: Width, wd: Vreg, ws: Vreg, wt: Vreg, vectors: &[u8; 512]) -> Plan
    ensures { result ≡ writes wd (three_of op (bits df) (register_at vectors.now wd)
        (register_at vectors.now ws) (register_at vectors.now wt)) }
{
    let d = read_register(vectors, wd);
    let s = read_register(vectors, ws);
    let t = read_register(vectors, wt);
    Plan::Vector(wd, forms::three(op, df, d, s, t))
}

pub fn fixed(op: Fixed, df: Width, wd: Vreg, ws: Vreg, wt: Vreg, vectors: &[u8; 512]) -> Plan
    requires { bits df ≤ 32 }
    ensures { result ≡ writes wd (fixed_of op (bits df) (register_at vectors.now wd)
        (register_at vectors.now ws) (register_at vectors.now wt)) }
{
    let d = read_register(vectors, wd);
    let s = read_register(vectors, ws);
    let t = read_register(vectors, wt);
    Plan::Vector(wd, forms::fixed(op, df, d, s, t))
}

pub fn indexed(op: Indexed, df: Width, wd: Vreg, ws: Vreg, x: u64, vectors: &[u8; 512]) -> Plan
    ensures { result ≡ writes wd (indexed_of op (bits df) (register_at vectors.now wd)
        (register_at vectors.now ws) x) }
{
    let d = read_register(vectors, wd);
    let s = read_register(vectors, ws);
    Plan::Vector(wd, forms::indexed(op, df, d, s, x))
}

// ELM, by the index n. It does not call `indexed`: a function with two callers takes its slices through memory.
pub fn element(op: Indexed, df: Width, wd: Vreg, ws: Vreg, n: u8, vectors: &[u8; 512]) -> Plan
    ensures { result ≡ writes wd (indexed_of op (bits df) (register_at vectors.now wd)
        (register_at vectors.now ws) n) }
{
    let d = read_register(vectors, wd);
    Plan::Vector(
        wd,
        forms::indexed(op, df, d, read_register(vectors, ws), n as u64),
    )
}

pub fn imm5(
    op: Arith,
    signed: bool,
    df: Width,
    wd: Vreg,
    ws: Vreg,
    imm: u8,
    vectors: &[u8; 512],
) -> Plan
    ensures { result ≡ writes wd (imm5_of op signed (bits df) (register_at vectors.now ws) imm) }
{
    Plan::Vector(
        wd,
        forms::imm5(op, signed, df, read_register(vectors, ws), imm),
    )
}

pub fn ldi(df: Width, wd: Vreg, imm: u16) -> Plan
    ensures { result ≡ writes wd (loaded (bits df) imm) }
{
    Plan::Vector(wd, permute::moves::ldi(df, imm))
}

pub fn bit(op: BitOp, df: Width, wd: Vreg, ws: Vreg, m: u8, vectors: &[u8; 512]) -> Plan
    ensures { result ≡ writes wd (bit_of op (bits df) (register_at vectors.now wd)
        (register_at vectors.now ws) m) }
{
    let d = read_register(vectors, wd);
    let s = read_register(vectors, ws);
    Plan::Vector(wd, forms::bit(op, df, d, s, m))
}

pub fn imm8(op: Logic, wd: Vreg, ws: Vreg, imm: u8, vectors: &[u8; 512]) -> Plan
    ensures { result ≡ writes wd (imm8_of op (register_at vectors.now wd)
        (register_at vectors.now ws) imm) }
{
    let d = read_register(vectors, wd);
    let s = read_register(vectors, ws);
    Plan::Vector(wd, forms::imm8(op, d, s, imm))
}

pub fn shf(df: Width, wd: Vreg, ws: Vreg, imm: u8, vectors: &[u8; 512]) -> Plan
    ensures { result ≡ writes wd (whole (bits df)
        (chosen_by_immediate imm (bits df) (register_at vectors.now ws))) }
{
    Plan::Vector(wd, permute::shf(df, read_register(vectors, ws), imm))
}

pub fn insve(df: Width, wd: Vreg, n: u8, ws: Vreg, vectors: &[u8; 512]) -> Plan
    ensures { result ≡ writes wd (whole (bits df)
        (with_element n (element (bits df) (register_at vectors.now ws) 0) (bits df)
        (register_at vectors.now wd))) }
{
    let d = read_register(vectors, wd);
    let s = read_register(vectors, ws);
    Plan::Vector(wd, permute::moves::insve(df, d, n as u64, s))
}

pub fn insert(df: Width, wd: Vreg, n: u8, x: u64, vectors: &[u8; 512]) -> Plan
    ensures { result ≡ writes wd (whole (bits df)
        (with_element n x (bits df) (register_at vectors.now wd))) }
{
    Plan::Vector(
        wd,
        permute::insert(df, read_register(vectors, wd), n as u64, x),
    )
}

pub fn copied(wd: Vreg, ws: Vreg, vectors: &[u8; 512]) -> Plan
    ensures { result ≡ writes wd (register_at vectors.now ws) }
{
    Plan::Vector(wd, read_register(vectors, ws))
}

pub fn vec(op: Logic, wd: Vreg, ws: Vreg, wt: Vreg, vectors: &[u8; 512]) -> Plan
    ensures { result ≡ writes wd (together 1 (logic_bit op) (register_at vectors.now wd)
        (register_at vectors.now ws) (register_at vectors.now wt)) }
{
    let d = read_register(vectors, wd);
    let s = read_register(vectors, ws);
    let t = read_register(vectors, wt);
    Plan::Vector(wd, logic::logic(op, d, s, t))
}

pub fn fill(df: Width, wd: Vreg, x: u64) -> Plan
    ensures { result ≡ writes wd (filled (bits df) x) }
{
    Plan::Vector(wd, vectors::spread(df, x))
}

pub fn count(op: Count, df: Width, wd: Vreg, ws: Vreg, vectors: &[u8; 512]) -> Plan
    ensures { result ≡ writes wd (count_of op (bits df) (register_at vectors.now ws)) }
{
    Plan::Vector(wd, forms::count(op, df, read_register(vectors, ws)))
}
