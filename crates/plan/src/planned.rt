// The plan of an instruction: 15 and 16 first, then its own work.
ghost use Rattle.std.specs.Prelude.{◌≡◌, length};
ghost use Rattle.state.specs.Machine.{env, machine};
ghost use Rattle.words.specs.Formed.{Formed};
ghost use Rattle.plan.specs.Plan.{executed, kind_of, plan_of};
ghost use Rattle.plan.specs.Plan as plans;

use crate::address::address;
use crate::early::{branch_early, switched_early};
use crate::{Plan, branch, moves, scaled, vector};
use isa::Instr;
use meaning::*;
use state::board::Board;
use state::control::{Control, Mark};
use state::stops::Stop;

// Which of 15 and 16 concern an instruction.
#[derive(Clone, Copy)]
pub enum Kind {
    Branching,
    Switched,
    Free,
}

fn kind_of(i: Instr) -> Kind
    ensures { result ≡ kind_of i }
{
    match i {
        Instr::Three { .. } => Kind::Switched,
        Instr::Indexed { .. } => Kind::Switched,
        Instr::Imm5U { .. } => Kind::Switched,
        Instr::Imm5S { .. } => Kind::Switched,
        Instr::Ldi { .. } => Kind::Switched,
        Instr::Bit { .. } => Kind::Switched,
        Instr::Imm8 { .. } => Kind::Switched,
        Instr::Shf { .. } => Kind::Switched,
        Instr::Element { .. } => Kind::Switched,
        Instr::Insve { .. } => Kind::Switched,
        Instr::Copy { .. } => Kind::Switched,
        Instr::Insert { .. } => Kind::Switched,
        Instr::Move { .. } => Kind::Switched,
        Instr::Cfcmsa { .. } => Kind::Switched,
        Instr::Ctcmsa { .. } => Kind::Switched,
        Instr::Vec { .. } => Kind::Switched,
        Instr::Fill { .. } => Kind::Switched,
        Instr::Count { .. } => Kind::Switched,
        Instr::Memory { .. } => Kind::Switched,
        Instr::Branch { .. } => Kind::Branching,
        Instr::BranchV { .. } => Kind::Branching,
        Instr::Scaled { .. } => Kind::Free,
        Instr::Fixed { .. } => Kind::Switched,
    }
}

// Whether 15 or 16 stops an instruction before it works.
fn early_stop(kind: Kind, k: Mark, on: bool) -> Result<(), Stop>
    ensures { result ≡ plans.early kind k on }
{
    match kind {
        Kind::Branching => branch_early(k, on),
        Kind::Switched => switched_early(on),
        Kind::Free => Ok(()),
    }
}

// What an instruction does where neither 15 nor 16 applies.
fn execute(
    i: Instr,
    board: Board,
    table: &[u8],
    vectors: &[u8; 512],
    generals: &[u8; 256],
    work: &[u8],
    c: Control,
) -> Plan
    requires { Formed i }
    ensures { result ≡ executed (env board table.now)
        (machine vectors.now generals.now work.now c) i }
{
    match i {
        Instr::Three { op, df, wd, ws, wt } => {
            vector::three(three_at(op), df, wd, ws, wt, vectors)
        }
        Instr::Indexed { op, df, wd, ws, rt } => {
            vector::indexed(
                indexed_at(op),
                df,
                wd,
                ws,
                moves::general(generals, rt),
                vectors,
            )
        }
        Instr::Imm5U {
            op,
            df,
            wd,
            ws,
            imm,
        } => vector::imm5(imm5_at(op), false, df, wd, ws, imm, vectors),
        Instr::Imm5S {
            op,
            df,
            wd,
            ws,
            imm,
        } => vector::imm5(imm5_at(op), true, df, wd, ws, imm, vectors),
        Instr::Ldi { df, wd, imm } => vector::ldi(df, wd, imm),
        Instr::Bit { op, df, wd, ws, m } => vector::bit(bit_at(op), df, wd, ws, m, vectors),
        Instr::Imm8 { op, wd, ws, imm } => vector::imm8(logic_at(op), wd, ws, imm, vectors),
        Instr::Shf { df, wd, ws, imm } => vector::shf(df, wd, ws, imm, vectors),
        Instr::Element { op, df, wd, ws, n } => {
            vector::element(indexed_at(op), df, wd, ws, n, vectors)
        }
        Instr::Insve { df, wd, n, ws } => vector::insve(df, wd, n, ws, vectors),
        Instr::Copy { op, df, rd, ws, n } => moves::copy(copied_at(op), df, rd, ws, n, vectors),
        Instr::Insert { df, wd, n, rs } => {
            vector::insert(df, wd, n, moves::general(generals, rs), vectors)
        }
        Instr::Move { wd, ws } => vector::copied(wd, ws, vectors),
        Instr::Cfcmsa { rd, cs } => moves::from_control(rd, cs, c.csr),
        Instr::Ctcmsa { cd, rs } => moves::to_control(cd, moves::general(generals, rs)),
        Instr::Vec { op, wd, ws, wt } => vector::vec(logic_at(op), wd, ws, wt, vectors),
        Instr::Fill { df, wd, rs } => vector::fill(df, wd, moves::general(generals, rs)),
        Instr::Count { op, df, wd, ws } => vector::count(count_at(op), df, wd, ws, vectors),
        Instr::Memory {
            op,
            df,
            wd,
            offset,
            rs,
        } => moves::access(
            memory_at(op),
            df,
            wd,
            address(df, offset, moves::general(generals, rs)),
            board,
            table,
            vectors,
            work,
        ),
        Instr::Branch { op, df, wt, offset } => {
            branch::branch(zero_at(op), df, wt, offset, vectors, c.pc)
        }
        Instr::BranchV { op, wt, offset } => {
            branch::branch_v(zero_at(op), wt, offset, vectors, c.pc)
        }
        Instr::Scaled { op, rd, rs, rt, sa } => scaled::scaled(
            scaled_at(op),
            rd,
            moves::general(generals, rs),
            moves::general(generals, rt),
            sa,
        ),
        Instr::Fixed { op, df, wd, ws, wt } => {
            vector::fixed(fixed_at(op), df, wd, ws, wt, vectors)
        }
    }
}

// What the instruction does in this state.
pub fn plan_of(
    i: Instr,
    board: Board,
    table: &[u8],
    vectors: &[u8; 512],
    generals: &[u8; 256],
    work: &[u8],
    c: Control,
) -> Plan
    requires { Formed i }
    ensures { result ≡ plan_of (env board table.now)
        (machine vectors.now generals.now work.now c) i }
{
    match early_stop(kind_of(i), c.mark, c.on) {
        Ok(()) => execute(i, board, table, vectors, generals, work, c),
        Err(s) => Plan::Stop(s),
    }
}
