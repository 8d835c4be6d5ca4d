// A case through the C entry of the second engine, `msa_run_read`: with a list that has an entry more than the program
// has words, and with a list that has one fewer.
use crate::{Held, head};
use entry::MsaEnded;
use streams::count;

// What an entry holds that a call has to leave.
const MARK: u64 = 0xa5c3_69f0_1e87_d24b;

// Marks the entry at this place, where there is one.
fn mark(list: &mut [u64], at: usize) {
    if let Some(entry) = list.get_mut(at) {
        *entry = MARK;
    }
}

// Whether the mark stands there still.
fn marked(list: &[u64], at: usize) -> bool {
    list.get(at).is_none_or(|entry| *entry == MARK)
}

// Calls the second engine with the first n entries of the list, or all, on the part of each that the head says. Answers
// with what is left of the registers and the control block.
fn called(
    h: [u8; 112],
    program: &[u8],
    table: &[u8],
    before: Held,
    work: &mut [u8],
    list: &mut [u64],
    n: usize,
) -> (MsaEnded, Held) {
    let mut held = before;
    let v = count(head::length(h, 0), &held.vectors);
    let g = count(head::length(h, 1), &held.generals);
    let c = count(head::length(h, 2), &held.control);
    let p = count(head::length(h, 3), program);
    let t = count(head::length(h, 4), table);
    let w = count(head::length(h, 5), work);
    let n = n.min(list.len());
    let ended = entry_read::msa_run_read(
        &program[..p],
        head::base(h, 0),
        &table[..t],
        head::base(h, 1),
        &mut held.vectors[..v],
        &mut held.generals[..g],
        &mut work[..w],
        head::base(h, 2),
        &mut held.control[..c],
        &mut list[..n],
        head::budget_read(h),
    );
    (ended, held)
}

// With an entry more than the program has words: what is left of the registers and the control block, where the answer
// is the head's, and that entry as it was. The entries before it hold what earlier calls left.
pub fn long(
    h: [u8; 112],
    program: &[u8],
    table: &[u8],
    before: Held,
    work: &mut [u8],
    list: &mut [u64],
) -> Option<Held> {
    let words = head::words(h);
    mark(list, words);
    let (e, held) = called(h, program, table, before, work, list, words + 1);
    let agrees = marked(list, words) & head::read_agrees(h, e.reason, e.count, e.missing);
    agrees.then_some(held)
}

// With an entry fewer, where the program has a word: the same where the list is refused, or the set-up before it, and
// the first entry as it was.
pub fn short(
    h: [u8; 112],
    program: &[u8],
    table: &[u8],
    before: Held,
    work: &mut [u8],
    list: &mut [u64],
) -> Option<Held> {
    let words = head::words(h);
    if words == 0 {
        return Some(before);
    }
    mark(list, 0);
    let (e, held) = called(h, program, table, before, work, list, words - 1);
    let agrees = marked(list, 0) & head::short_agrees(h, e.reason, e.count, e.missing);
    agrees.then_some(held)
}
