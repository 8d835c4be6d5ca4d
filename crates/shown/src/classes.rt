// What is shown of each class: first so many operands, and the kinds that several classes have.
ghost use Rattle.std.specs.Prelude.{◌≡◌, ◌<◌, ◌≤◌};
ghost use Rattle.isa.specs.declared.Instr.TheVariants as instr;
ghost use Rattle.shown.specs.declared.Operand.TheVariants as operand;
ghost use Rattle.shown.specs.declared.Operand.TheVariants.{Nothing, Vector};
ghost use Rattle.shown.specs.Shown as shows;

use crate::numbers::{plain, scaled, signed};
use crate::{Form, Operand, Shown};
use isa::{Creg, Greg, Op, Vreg, Width};

fn three(name: u16, form: Form, a: Operand, b: Operand, c: Operand) -> Shown
    ensures { result ≡ shows.shown name form a b c Nothing }
{
    Shown {
        name,
        form,
        a,
        b,
        c,
        d: Operand::Nothing,
    }
}

fn two(name: u16, form: Form, a: Operand, b: Operand) -> Shown
    ensures { result ≡ shows.shown name form a b Nothing Nothing }
{
    three(name, form, a, b, Operand::Nothing)
}

pub fn three_vectors(name: u16, form: Form, wd: Vreg, ws: Vreg, wt: Vreg) -> Shown
    ensures { result ≡ shows.shown name form (Vector wd) (Vector ws) (Vector wt) Nothing }
{
    three(
        name,
        form,
        Operand::Vector(wd),
        Operand::Vector(ws),
        Operand::Vector(wt),
    )
}

pub fn two_vectors(name: u16, form: Form, wd: Vreg, ws: Vreg) -> Shown
    ensures { result ≡ shows.shown name form (Vector wd) (Vector ws) Nothing Nothing }
{
    two(name, form, Operand::Vector(wd), Operand::Vector(ws))
}

// Two vector registers and a number.
pub fn numbered(name: u16, form: Form, wd: Vreg, ws: Vreg, x: u16) -> Shown
    ensures { result ≡ shows.shown name form (Vector wd) (Vector ws) (shows.plain x) Nothing }
{
    three(
        name,
        form,
        Operand::Vector(wd),
        Operand::Vector(ws),
        plain(x),
    )
}

// A vector register and a field with its sign.
pub fn with_sign(name: u16, form: Form, w: Vreg, full: u32, x: u16) -> Shown
    requires { (1 < full) × (full ≤ 65536) }
    ensures { result ≡ shows.shown name form (Vector w) (operand.Number (shows.signed full x)) Nothing Nothing }
{
    two(
        name,
        form,
        Operand::Vector(w),
        Operand::Number(signed(full, x)),
    )
}

pub fn indexed(op: Op, df: Width, wd: Vreg, ws: Vreg, rt: Greg) -> Shown
    ensures { result ≡ shows.shown_of (instr.Indexed op df wd ws rt) }
{
    two(
        op.0,
        Form::Each(df),
        Operand::Vector(wd),
        Operand::Chosen(ws, rt),
    )
}

pub fn imm5_s(op: Op, df: Width, wd: Vreg, ws: Vreg, imm: u8) -> Shown
    ensures { result ≡ shows.shown_of (instr.Imm5S op df wd ws imm) }
{
    three(
        op.0,
        Form::Each(df),
        Operand::Vector(wd),
        Operand::Vector(ws),
        Operand::Number(signed(32, u16::from(imm))),
    )
}

pub fn element(op: Op, df: Width, wd: Vreg, ws: Vreg, n: u8) -> Shown
    ensures { result ≡ shows.shown_of (instr.Element op df wd ws n) }
{
    two(
        op.0,
        Form::Each(df),
        Operand::Vector(wd),
        Operand::Element(ws, n),
    )
}

pub fn insve(df: Width, wd: Vreg, n: u8, ws: Vreg) -> Shown
    ensures { result ≡ shows.shown_of (instr.Insve df wd n ws) }
{
    two(
        325,
        Form::Each(df),
        Operand::Element(wd, n),
        Operand::Element(ws, 0),
    )
}

pub fn copy(op: Op, df: Width, rd: Greg, ws: Vreg, n: u8) -> Shown
    ensures { result ≡ shows.shown_of (instr.Copy op df rd ws n) }
{
    two(
        op.0,
        Form::Each(df),
        Operand::General(rd),
        Operand::Element(ws, n),
    )
}

pub fn insert(df: Width, wd: Vreg, n: u8, rs: Greg) -> Shown
    ensures { result ≡ shows.shown_of (instr.Insert df wd n rs) }
{
    two(
        324,
        Form::Each(df),
        Operand::Element(wd, n),
        Operand::General(rs),
    )
}

pub fn cfcmsa(rd: Greg, cs: Creg) -> Shown
    ensures { result ≡ shows.shown_of (instr.Cfcmsa rd cs) }
{
    two(337, Form::Bare, Operand::General(rd), Operand::Control(cs))
}

pub fn ctcmsa(cd: Creg, rs: Greg) -> Shown
    ensures { result ≡ shows.shown_of (instr.Ctcmsa cd rs) }
{
    two(336, Form::Bare, Operand::Control(cd), Operand::General(rs))
}

pub fn fill(df: Width, wd: Vreg, rs: Greg) -> Shown
    ensures { result ≡ shows.shown_of (instr.Fill df wd rs) }
{
    two(
        432,
        Form::Each(df),
        Operand::Vector(wd),
        Operand::General(rs),
    )
}

pub fn memory(op: Op, df: Width, wd: Vreg, offset: u16, rs: Greg) -> Shown
    ensures { result ≡ shows.shown_of (instr.Memory op df wd offset rs) }
{
    let n = scaled(df, signed(1024, offset));
    two(
        op.0,
        Form::Each(df),
        Operand::Vector(wd),
        Operand::Offset(n, rs),
    )
}

pub fn scaled_add(op: Op, rd: Greg, rs: Greg, rt: Greg, sa: u8) -> Shown
    ensures { result ≡ shows.shown_of (instr.Scaled op rd rs rt sa) }
{
    Shown {
        name: op.0,
        form: Form::Bare,
        a: Operand::General(rd),
        b: Operand::General(rs),
        c: Operand::General(rt),
        d: plain(u16::from(sa) + 1),
    }
}
