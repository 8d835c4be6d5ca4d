// The listing writer as a struct: the lent line and the place of what comes next. `fill` is proved by a walk of its MIR,
// by hand; the work is `listing::put_part`'s, on a slice and a number.
#![tactic(auto)]

ghost use Rattle.std.specs.Prelude.{◌≡◌, length};
ghost use Rattle.text.specs.Text.{Room, padded};
ghost use Rattle.listing.specs.Listing.{part_text, line_of, Lists};
ghost use Rattle.line_writer.specs.Moved.{moved};

use listing::{Part, put_part};

#[derive(Drop)]
pub struct LineWriter<'a> {
    pub line: &'a mut [u8],
    pub at: usize,
}

// The borrow goes into the writer, and the place is the start.
fn new<'a>(line: &'a mut [u8]) -> LineWriter<'a>
    ensures { (result.line ≡ line.entry) × (result.at ≡ 0) }
{
    LineWriter { line: line, at: 0 }
}

// Writes a part of a line at the writer's place, and answers the writer moved on behind it.
fn put<'a>(w: LineWriter<'a>, p: Part) -> LineWriter<'a>
    requires { Room w.line.now w.at (part_text w.line.now w.at p) }
    ensures { result ≡ moved w.entry p }
{
    let at = w.at;
    let next = put_part(&mut *w.line, at, p);
    LineWriter {
        line: w.line,
        at: next,
    }
}

// The parts one after the other, from the line's start to its end. The length is the place before the blanks. The
// contract says nothing of a writer, so whoever calls it needs no walk by hand.
fn fill(line: &mut [u8], address: u32, word: u32) -> usize
    requires { Room line.old 0 (line_of address word) }
    ensures { (result ≡ length (line_of address word))
        × (line.new ≡ padded (length line.old) (line_of address word)) }
{
    let addressed = put(new(line), Part::Address(address));
    let worded = put(addressed, Part::Word(word));
    let texted = put(worded, Part::Text(word));
    let length = texted.at;
    put(texted, Part::Blanks);
    length
}

// The line of a word and then blanks, in a lent line of 64 bytes; any other length is refused.
pub fn write_line(line: &mut [u8], address: u32, word: u32) -> Option<usize>
    ensures { Lists line.old address word result line.new }
{
    if line.len() != 64 {
        return None;
    }
    Some(fill(line, address, word))
}
