// Pieces of text put into a lent line, each from a place on. Each answers the place behind it, so a line is a run of
// these.
// The line and the place go apart: the writer that holds both (crate line_writer) is made of this one.
#![tactic(auto)]

ghost use Rattle.std.specs.Prelude.{◌≡◌, [], ◌∷◌, ◌<◌, ◌≤◌, length, replicate};
ghost use Rattle.text.specs.Text.{Room, Puts};
ghost use Rattle.text.specs.Numerals.{digit, numeral, decimal, hex};

pub fn put_byte(line: &mut [u8], at: usize, b: u8) -> usize
    requires { Room line.old at (b ∷ []) }
    ensures { Puts line.old at (b ∷ []) line.new result }
{
    line[at] = b;
    at + 1
}

pub fn put_text(line: &mut [u8], at: usize, text: &[u8]) -> usize
    requires { Room line.old at text.now }
    ensures { Puts line.old at text.now line.new result }
{
    let next = at + text.len();
    line[at..next].copy_from_slice(text);
    next
}

fn digit_of(d: u32) -> u8
    requires { d < 16 }
    ensures { result ≡ digit d }
{
    b"0123456789ABCDEF"[d as usize]
}

// The last digits of a number, as many as `most`; where it is to be short, no more than it has.
fn put_numeral(line: &mut [u8], at: usize, base: u32, short: bool, most: u32, n: u32) -> usize
    requires { (0 < base) × (base ≤ 16) × Room line.old at (numeral base short most n) }
    ensures { Puts line.old at (numeral base short most n) line.new result }
{
    if most == 0 {
        return at;
    }
    let last = digit_of(n % base);
    if short && n < base {
        return put_byte(line, at, last);
    }
    let next = put_numeral(line, at, base, short, most - 1, n / base);
    put_byte(line, next, last)
}

pub fn put_decimal(line: &mut [u8], at: usize, n: u32) -> usize
    requires { Room line.old at (decimal n) }
    ensures { Puts line.old at (decimal n) line.new result }
{
    put_numeral(line, at, 10, true, 5, n)
}

pub fn put_hex(line: &mut [u8], at: usize, n: u32) -> usize
    requires { Room line.old at (hex n) }
    ensures { Puts line.old at (hex n) line.new result }
{
    put_numeral(line, at, 16, false, 8, n)
}

pub fn blank(line: &mut [u8])
    ensures { line.new ≡ replicate (length line.old) 32 }
{
    line.fill(b' ');
}
