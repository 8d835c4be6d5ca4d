// Runs the cases of shared/vectors/after-2/ops.txt, one instruction on registers alone each, in the form that
// tools/ops_cases.py writes: a step of a program of one word. Prints how many leave every register as the case says.
// After them, the same for corners-ops.txt of that folder and for tools/examples.txt.
#![tactic(auto)]

ghost use Rattle.std.specs.Prelude.{◌≤◌, IfOk};

use isa::Vreg;
use machine::step::step;
use memory::file::write_register;
use memory::{eight, put_eight, sixteen};
use order::Order;
use state::board::Board;
use state::control::{Control, Mark};
use std::io;
use std::io::Read;
use streams::read_full;

fn set_vector(v: &mut [u8; 512], number: u8, r: [u8; 100], at: usize)
    requires { at ≤ 84 }
{
    write_register(v, Vreg(number % 32), sixteen(&r, at));
}

fn set_general(g: &mut [u8; 256], number: u8, r: [u8; 100], at: usize)
    requires { at ≤ 84 }
{
    put_eight(g, usize::from(number % 32) * 8, eight(&r, at));
}

fn set_sources(v: &mut [u8; 512], g: &mut [u8; 256], r: [u8; 100]) {
    set_vector(v, r[4], r, 12);
    set_vector(v, r[5], r, 28);
    set_vector(v, r[6], r, 44);
    set_general(g, r[7], r, 60);
    set_general(g, r[8], r, 68);
    set_general(g, r[9], r, 76);
}

fn set_result(v: &mut [u8; 512], g: &mut [u8; 256], r: [u8; 100]) {
    if r[10] == 0 {
        set_vector(v, r[4], r, 84);
    } else {
        set_general(g, r[9], r, 84);
    }
}

// A step of the word; whether it is finished. No case loads or stores.
fn steps(word: &[u8], v: &mut [u8], g: &mut [u8]) -> bool {
    let board = Board {
        program: 0,
        table: 0,
        work: 0,
        order: Order::Little,
    };
    let control = Control {
        pc: 0,
        mark: Mark::Clear,
        csr: 0,
        on: true,
    };
    let mut work = [0u8; 1];
    let stepped = step(board, word, &[0u8; 0], v, g, &mut work, control);
    matches!(stepped.answer, Ok(Ok(())))
}

fn agrees(r: [u8; 100]) -> bool {
    let word = [r[0], r[1], r[2], r[3]];
    let mut v = [0u8; 512];
    let mut g = [0u8; 256];
    set_sources(&mut v, &mut g, r);
    let mut want_v = v;
    let mut want_g = g;
    set_result(&mut want_v, &mut want_g, r);
    steps(&word, &mut v, &mut g) & (v == want_v) & (g == want_g)
}

fn next_case<R: Read>(input: &mut R) -> io::Result<bool> {
    let mut r = [0u8; 100];
    if read_full(input, &mut r)? < 100 {
        return Ok(false);
    }
    Ok(agrees(r))
}

// The number of cases of the next part.
fn announced<R: Read>(input: &mut R) -> io::Result<u64> {
    let mut b = [0u8; 8];
    if read_full(input, &mut b)? < 8 {
        return Ok(0);
    }
    Ok(u64::from_le_bytes(b))
}

// How many of the next n cases agree.
fn agreeing<R: Read>(input: &mut R, n: u64) -> io::Result<u64>
    ensures { IfOk result (λ agreed. agreed ≤ n) }
{
    let mut agreed = 0;
    for _ in 0..n {
        if next_case(input)? {
            agreed += 1;
        }
    }
    Ok(agreed)
}

fn report<R: Read>(rt: &impl Print, input: &mut R, n: u64) -> io::Result<()> {
    let agreed = agreeing(input, n)?;
    println!(rt; "{agreed} of {n} agree")
}

fn main(rt: HostRuntime) -> io::Result<()> {
    let mut input = rt.reader();
    print!(rt; "ops.txt: ")?;
    let n = announced(&mut input)?;
    report(&rt, &mut input, n)?;
    print!(rt; "corners: ")?;
    let n = announced(&mut input)?;
    report(&rt, &mut input, n)?;
    print!(rt; "examples and sums: ")?;
    let n = announced(&mut input)?;
    report(&rt, &mut input, n)
}
