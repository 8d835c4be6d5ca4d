// What an entry is kept as: the code of an instruction, or why the word reads as none.
ghost use Rattle.std.specs.Prelude.{◌≡◌};
ghost use Rattle.acts.specs.Act.{unread_at};
ghost use Rattle.listed.specs.Turn.{kept_as, kept_stop};

use entries::parts::code_of;
use isa::Unread;
use state::stops::Stop;

fn unread_at(c: u64) -> Unread
    ensures { result ≡ unread_at c }
{
    match c {
        109 => Unread::Unassigned,
        110 => Unread::LeftOut,
        _ => Unread::Other,
    }
}

pub fn kept_as(e: u64) -> Result<u64, Unread>
    ensures { result ≡ kept_as e }
{
    let c = code_of(e);
    if c < 109 { Ok(c) } else { Err(unread_at(c)) }
}

// 12, 13 or 14 of a word that reads as no instruction.
pub fn kept_stop(k: Result<u64, Unread>) -> Stop
    ensures { result ≡ kept_stop k }
{
    match k {
        Err(u) => Stop::Unread(u),
        Ok(_) => Stop::NoWord,
    }
}
