// Replays the cases of standard input through the C entry of either engine and compares the answer with its missing
// address, every register, the control block and the work window, byte for byte. A case agrees where it does on both.
// The first engine, `msa_step` and `msa_run`: also what `msa_why` says before a step and after a run, and what
// `msa_budget` says before either. The second, `msa_run_read`, on copies: with a list that has an entry more than the
// program has words, which is to stay as it was; and with one fewer, which is to be refused and nothing changed. A step
// is a run with the budget 1 there. tools/machine_cases.py says what a case is made of.
#![tactic(auto)]

mod head;
mod pieces;
mod second;
mod tally;

ghost use Rattle.std.specs.Prelude.{◌≡◌, length};

use crate::tally::Tally;
use std::io;
use std::io::Read;
use streams::{count, read_full};

// Whether `msa_why` says of this memory what the head has.
fn told(
    h: [u8; 112],
    program: &[u8],
    table: &[u8],
    vectors: &[u8],
    generals: &[u8],
    work: &[u8],
    control: &[u8],
) -> bool {
    let p = head::base(h, 0);
    let t = head::base(h, 1);
    let w = head::base(h, 2);
    let y = entry::msa_why(program, p, table, t, vectors, generals, work, w, control);
    head::why_agrees(h, y.number, y.kind, y.word, y.fact)
}

// Whether `msa_budget` says of the program what the head has.
fn sized(h: [u8; 112], program: &[u8]) -> bool {
    let enough = entry::msa_budget(program, head::base(h, 0), head::counter(h));
    head::budget_agrees(h, enough)
}

// Calls what the head names on these registers and windows; whether the answer is the head's.
fn called(
    h: [u8; 112],
    program: &[u8],
    table: &[u8],
    vectors: &mut [u8],
    generals: &mut [u8],
    work: &mut [u8],
    control: &mut [u8],
) -> bool {
    let p = head::base(h, 0);
    let t = head::base(h, 1);
    let w = head::base(h, 2);
    let budget = head::budget(h);
    if head::is_run(h) {
        let r = entry::msa_run(
            program, p, table, t, vectors, generals, work, w, control, budget,
        );
        let after = told(h, program, table, vectors, generals, work, control);
        return after & head::run_agrees(h, r.reason, r.count, r.missing);
    }
    let before = told(h, program, table, vectors, generals, work, control);
    let s = entry::msa_step(program, p, table, t, vectors, generals, work, w, control);
    before & head::step_agrees(h, s.reason, s.missing)
}

// The same on the part of each that the head says: what is left of the registers and the control block, where the
// answer is the head's.
fn ran(h: [u8; 112], program: &[u8], table: &[u8], before: Held, work: &mut [u8]) -> Option<Held> {
    let mut held = before;
    let v = count(head::length(h, 0), &held.vectors);
    let g = count(head::length(h, 1), &held.generals);
    let c = count(head::length(h, 2), &held.control);
    let p = count(head::length(h, 3), program);
    let t = count(head::length(h, 4), table);
    let w = count(head::length(h, 5), work);
    let enough = sized(h, &program[..p]);
    let answered = called(
        h,
        &program[..p],
        &table[..t],
        &mut held.vectors[..v],
        &mut held.generals[..g],
        &mut work[..w],
        &mut held.control[..c],
    );
    (enough & answered).then_some(held)
}

// The registers and the control block of a case, before it or after it.
#[derive(Clone, Copy, PartialEq, Eq)]
struct Held {
    vectors: [u8; 513],
    generals: [u8; 264],
    control: [u8; 280],
}

impl Held {
    fn new() -> Held {
        Held {
            vectors: [0; 513],
            generals: [0; 264],
            control: [0; 280],
        }
    }

    // Reads pieces into their places.
    fn patch<R: Read>(&mut self, input: &mut R) -> io::Result<()> {
        pieces::patch(input, &mut self.vectors)?;
        pieces::patch(input, &mut self.generals)?;
        pieces::patch(input, &mut self.control)
    }
}

// Reads the windows before; `want` and `again` have the work window's bytes too.
// The windows are apart and not in a struct: fields that are lent together behind a reference have no proof.
fn read_windows<R: Read>(
    input: &mut R,
    h: [u8; 112],
    program: &mut [u8],
    table: &mut [u8],
    work: &mut [u8],
    want: &mut [u8],
    again: &mut [u8],
) -> io::Result<()> {
    pieces::load(input, program, head::length(h, 3), head::pattern(h, 0))?;
    pieces::load(input, table, head::length(h, 4), head::pattern(h, 1))?;
    pieces::load(input, work, head::length(h, 5), head::pattern(h, 2))?;
    pieces::copy(want, work, head::length(h, 5));
    pieces::copy(again, work, head::length(h, 5));
    Ok(())
}

// Reads the contents before and after, runs the case on both engines and compares. The second has the copy `again` of
// the work window, first with a list that is too short, where everything is to be as before. The first engine runs
// last, so that `work` has the bytes before for that comparison.
fn agrees<R: Read>(
    input: &mut R,
    h: [u8; 112],
    before: Held,
    program: &mut [u8],
    table: &mut [u8],
    work: &mut [u8],
    want: &mut [u8],
    again: &mut [u8],
    list: &mut [u64],
) -> io::Result<bool> {
    read_windows(input, h, program, table, work, want, again)?;
    let mut after = before;
    after.patch(input)?;
    pieces::patch(input, want)?;
    let n = head::length(h, 5);
    let left = second::short(h, program, table, before, again, list);
    let short = (left == Some(before)) & pieces::same_start(again, work, n);
    let left = second::long(h, program, table, before, again, list);
    let second = (left == Some(after)) & pieces::same_start(again, want, n);
    let left = ran(h, program, table, before, work);
    let first = (left == Some(after)) & pieces::same_start(work, want, n);
    Ok(first & second & short)
}

// Whether a case follows.
fn more<R: Read>(input: &mut R) -> io::Result<bool> {
    let mut b = [0; 1];
    Ok(read_full(input, &mut b)? == 1)
}

// The head, and the registers and the control block before, are kept from case to case.
fn replay_all<R: Read>(
    rt: &impl Print,
    input: &mut R,
    program: &mut [u8],
    table: &mut [u8],
    work: &mut [u8],
    want: &mut [u8],
    again: &mut [u8],
    list: &mut [u64],
) -> io::Result<Tally> {
    let mut h = [0; 112];
    let mut before = Held::new();
    let mut tally = Tally::new();
    for _ in 0..65536 {
        if !more(input)? {
            break;
        }
        pieces::patch(input, &mut h)?;
        before.patch(input)?;
        let yes = agrees(input, h, before, program, table, work, want, again, list)?;
        tally.add(rt, h, yes)?;
    }
    Ok(tally)
}

// One byte more than a window may have.
fn window() -> [u8; 1048577]
    ensures { 1048577 ≡ length result }
{
    [0; 1048577]
}

// One entry more than a program may have words.
fn entries() -> [u64; 65537]
    ensures { 65537 ≡ length result }
{
    [0; 65537]
}

fn main(rt: HostRuntime) -> io::Result<()> {
    let mut input = rt.reader();
    let mut program = window();
    let mut table = window();
    let mut work = window();
    let mut want = window();
    let mut again = window();
    let mut list = entries();
    let tally = replay_all(
        &rt,
        &mut input,
        &mut program,
        &mut table,
        &mut work,
        &mut want,
        &mut again,
        &mut list,
    )?;
    tally.report(&rt)
}
