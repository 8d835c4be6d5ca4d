// The operands of an instruction, written one behind the other.
#![tactic(auto)]

ghost use Rattle.std.specs.Prelude.{◌≡◌, ◌++◌};
ghost use Rattle.text.specs.Text.{bytes, Room, Puts};
ghost use Rattle.text.specs.Numerals.{decimal};
ghost use Rattle.shown.specs.declared.Operand.TheVariants as operand;
ghost use Rattle.operands.specs.Operands as operands;

use shown::{Number, Operand};
use text::{put_byte, put_decimal, put_text};

fn put_vector(line: &mut [u8], at: usize, r: u8) -> usize
    requires { Room line.old at (operands.vector r) }
    ensures { Puts line.old at (operands.vector r) line.new result }
{
    let next = put_text(line, at, b"$w");
    put_decimal(line, next, u32::from(r))
}

// A general or a control register.
fn put_register(line: &mut [u8], at: usize, r: u8) -> usize
    requires { Room line.old at (operands.register r) }
    ensures { Puts line.old at (operands.register r) line.new result }
{
    let next = put_byte(line, at, b'$');
    put_decimal(line, next, u32::from(r))
}

fn put_number(line: &mut [u8], at: usize, n: Number) -> usize
    requires { Room line.old at (operands.number n) }
    ensures { Puts line.old at (operands.number n) line.new result }
{
    if n.minus {
        let next = put_byte(line, at, b'-');
        return put_decimal(line, next, u32::from(n.size));
    }
    put_decimal(line, at, u32::from(n.size))
}

fn put_element(line: &mut [u8], at: usize, r: u8, n: u8) -> usize
    requires { Room line.old at (operands.vector r ++ bytes "[" ++ decimal n ++ bytes "]") }
    ensures { Puts line.old at (operands.vector r ++ bytes "[" ++ decimal n ++ bytes "]") line.new result }
{
    let open = put_vector(line, at, r);
    let index = put_byte(line, open, b'[');
    let close = put_decimal(line, index, u32::from(n));
    put_byte(line, close, b']')
}

fn put_chosen(line: &mut [u8], at: usize, r: u8, g: u8) -> usize
    requires { Room line.old at (operands.vector r ++ bytes "[" ++ operands.register g ++ bytes "]") }
    ensures { Puts line.old at (operands.vector r ++ bytes "[" ++ operands.register g ++ bytes "]") line.new result }
{
    let open = put_vector(line, at, r);
    let index = put_byte(line, open, b'[');
    let close = put_register(line, index, g);
    put_byte(line, close, b']')
}

fn put_offset(line: &mut [u8], at: usize, n: Number, g: u8) -> usize
    requires { Room line.old at (operands.number n ++ bytes "(" ++ operands.register g ++ bytes ")") }
    ensures { Puts line.old at (operands.number n ++ bytes "(" ++ operands.register g ++ bytes ")") line.new result }
{
    let open = put_number(line, at, n);
    let base = put_byte(line, open, b'(');
    let close = put_register(line, base, g);
    put_byte(line, close, b')')
}

fn put_operand(line: &mut [u8], at: usize, o: Operand) -> usize
    requires { Room line.old at (operands.operand_text o) }
    ensures { Puts line.old at (operands.operand_text o) line.new result }
{
    match o {
        Operand::Nothing => at,
        Operand::Vector(r) => put_vector(line, at, r.0),
        Operand::General(r) => put_register(line, at, r.0),
        Operand::Control(r) => put_register(line, at, r.0),
        Operand::Number(n) => put_number(line, at, n),
        Operand::Element(r, n) => put_element(line, at, r.0, n),
        Operand::Chosen(r, g) => put_chosen(line, at, r.0, g.0),
        Operand::Offset(n, g) => put_offset(line, at, n, g.0),
    }
}

fn present(o: Operand) -> bool
    ensures { result ≡ operands.present o }
{
    !matches!(o, Operand::Nothing)
}

// An operand that follows another.
fn put_next(line: &mut [u8], at: usize, o: Operand) -> usize
    requires { Room line.old at (operands.next_text o) }
    ensures { Puts line.old at (operands.next_text o) line.new result }
{
    if present(o) {
        let next = put_byte(line, at, b',');
        return put_operand(line, next, o);
    }
    at
}

// Four by name, and not an array: the definition operands_text has the first apart and the others as these three.
pub fn put_operands(
    line: &mut [u8],
    at: usize,
    a: Operand,
    b: Operand,
    c: Operand,
    d: Operand,
) -> usize
    requires { Room line.old at (operands.operands_text a b c d) }
    ensures { Puts line.old at (operands.operands_text a b c d) line.new result }
{
    let second = put_operand(line, at, a);
    let third = put_next(line, second, b);
    let fourth = put_next(line, third, c);
    put_next(line, fourth, d)
}
