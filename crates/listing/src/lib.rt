// The listing: the line of a word in its parts, each written from a place of a lent line on.
#![tactic(auto)]

ghost use Rattle.std.specs.Prelude.{◌≡◌, ◌++◌};
ghost use Rattle.isa.specs.Numbers.{unread_number};
ghost use Rattle.shown.specs.declared.Form.TheVariants as form;
ghost use Rattle.text.specs.Text.{bytes, Room, Puts};
ghost use Rattle.text.specs.Numerals.{decimal, hex};
ghost use Rattle.listing.specs.declared.Part.TheVariants as part;
ghost use Rattle.listing.specs.Listing as listing;
ghost use Rattle.listing.specs.Listing.{part_text};

use isa::{Instr, Unread, Width};
use mnemonics::put_name;
use operands::put_operands;
use reading::read_word;
use shown::{Form, Shown, shown_of};
use text::{blank, put_byte, put_decimal, put_hex, put_text};

// A line's parts: the address with ": ", the word with a blank, the word's text, and blanks up to the line's end.
#[derive(Clone, Copy)]
pub enum Part {
    Address(u32),
    Word(u32),
    Text(u32),
    Blanks,
}

fn letter(df: Width) -> u8
    ensures { result ≡ listing.letter df }
{
    match df {
        Width::B => b'B',
        Width::H => b'H',
        Width::W => b'W',
        Width::D => b'D',
    }
}

fn put_letter(line: &mut [u8], at: usize, df: Width) -> usize
    requires { Room line.old at (listing.form_text (form.Each df)) }
    ensures { Puts line.old at (listing.form_text (form.Each df)) line.new result }
{
    let next = put_byte(line, at, b'.');
    put_byte(line, next, letter(df))
}

fn put_form(line: &mut [u8], at: usize, f: Form) -> usize
    requires { Room line.old at (listing.form_text f) }
    ensures { Puts line.old at (listing.form_text f) line.new result }
{
    match f {
        Form::Bare => at,
        Form::Each(df) => put_letter(line, at, df),
        Form::Whole => put_text(line, at, b".V"),
    }
}

fn put_shown(line: &mut [u8], at: usize, s: Shown) -> usize
    requires { Room line.old at (listing.shown_text s) }
    ensures { Puts line.old at (listing.shown_text s) line.new result }
{
    let form_at = put_name(line, at, s.name as usize);
    let blank_at = put_form(line, form_at, s.form);
    let first_at = put_byte(line, blank_at, b' ');
    put_operands(line, first_at, s.a, s.b, s.c, s.d)
}

fn put_reason(line: &mut [u8], at: usize, u: Unread) -> usize
    requires { Room line.old at (bytes "; " ++ decimal (unread_number u)) }
    ensures { Puts line.old at (bytes "; " ++ decimal (unread_number u)) line.new result }
{
    let next = put_text(line, at, b"; ");
    put_decimal(line, next, u8::from(u) as u32)
}

fn put_read(line: &mut [u8], at: usize, read: Result<Instr, Unread>) -> usize
    requires { Room line.old at (listing.read_text read) }
    ensures { Puts line.old at (listing.read_text read) line.new result }
{
    match read {
        Ok(i) => put_shown(line, at, shown_of(i)),
        Err(u) => put_reason(line, at, u),
    }
}

// A number in eight hex digits, and what stands behind it.
fn put_number(line: &mut [u8], at: usize, n: u32, behind: &[u8]) -> usize
    requires { Room line.old at (hex n ++ behind.now) }
    ensures { Puts line.old at (hex n ++ behind.now) line.new result }
{
    let next = put_hex(line, at, n);
    put_text(line, next, behind)
}

fn put_blanks(line: &mut [u8], at: usize) -> usize
    requires { Room line.old at (part_text line.old at part.Blanks) }
    ensures { Puts line.old at (part_text line.old at part.Blanks) line.new result }
{
    blank(&mut line[at..]);
    line.len()
}

// The writer on a slice and a number: a part of a line from a place on, and the place behind it.
pub fn put_part(line: &mut [u8], at: usize, p: Part) -> usize
    requires { Room line.old at (part_text line.old at p) }
    ensures { Puts line.old at (part_text line.old at p) line.new result }
{
    match p {
        Part::Address(address) => put_number(line, at, address, b": "),
        Part::Word(word) => put_number(line, at, word, b" "),
        Part::Text(word) => put_read(line, at, read_word(word)),
        Part::Blanks => put_blanks(line, at),
    }
}
