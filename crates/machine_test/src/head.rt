// The head of a case, read: tools/machine_cases.py says what stands where.
ghost use Rattle.std.specs.Prelude.{◌<◌};

use memory::{eight, four};

pub fn is_run(h: [u8; 112]) -> bool {
    h[1] == 1
}

// The number of the case in its group.
pub fn number(h: [u8; 112]) -> u64 {
    (four(&h, 0) / 65536) as u64
}

pub fn budget(h: [u8; 112]) -> u32 {
    four(&h, 4)
}

// Whether a step that answered this reason and this address agrees.
pub fn step_agrees(h: [u8; 112], reason: u64, missing: u64) -> bool {
    (reason == four(&h, 8) as u64) & (missing == eight(&h, 16))
}

// The same of a run.
pub fn run_agrees(h: [u8; 112], reason: u32, count: u32, missing: u64) -> bool {
    (reason == four(&h, 8)) & (count == four(&h, 12)) & (missing == eight(&h, 16))
}

// The budget of the second engine's run: a step is a run of one instruction.
pub fn budget_read(h: [u8; 112]) -> u32 {
    if is_run(h) { budget(h) } else { 1 }
}

// Whether a run of the second engine agrees. A step that is finished is a run of count 1 that spent its budget, and one
// that stops, or is refused, a run of count 0.
pub fn read_agrees(h: [u8; 112], reason: u32, count: u32, missing: u64) -> bool {
    if is_run(h) {
        return run_agrees(h, reason, count, missing);
    }
    let want = four(&h, 8);
    let finished = (want == 0) & (reason == 20) & (count == 1);
    let stopped = (want != 0) & (reason == want) & (count == 0);
    (finished | stopped) & (missing == eight(&h, 16))
}

// The same where the list is too short: it is refused with 51, but a set-up that is refused with 1 to 5 comes first.
pub fn short_agrees(h: [u8; 112], reason: u32, count: u32, missing: u64) -> bool {
    let want = four(&h, 8);
    let refused = (0 < want) & (want < 6);
    let number = if refused { want } else { 51 };
    (reason == number) & (count == 0) & (missing == 0)
}

// Whether what `msa_why` says agrees. Of a run that spent its budget nothing is known of the next step.
pub fn why_agrees(h: [u8; 112], number: u16, kind: u16, word: u32, fact: u64) -> bool {
    let reason = four(&h, 8);
    let named = (number as u32 == reason) & (kind as u32 == four(&h, 84));
    (reason == 20) | (named & (word == four(&h, 88)) & (fact == eight(&h, 92)))
}

// A counter, and whether what `msa_budget` says of it agrees.
pub fn counter(h: [u8; 112]) -> u64 {
    eight(&h, 100)
}

pub fn budget_agrees(h: [u8; 112], enough: u32) -> bool {
    enough == four(&h, 108)
}

// The base of the k-th window.
pub fn base(h: [u8; 112], k: usize) -> u64 {
    eight(&h, 24 + k % 3 * 8)
}

// The length of the k-th of registers, control block and windows.
pub fn length(h: [u8; 112], k: usize) -> isize {
    four(&h, 48 + k % 6 * 4) as isize
}

// How many words the program has.
pub fn words(h: [u8; 112]) -> usize
    ensures { result < 4294967296 }
{
    (four(&h, 60) / 4) as usize
}

// The pattern of the k-th window.
pub fn pattern(h: [u8; 112], k: usize) -> [u8; 4] {
    let at = 72 + k % 3 * 4;
    [h[at], h[at + 1], h[at + 2], h[at + 3]]
}
