// What the C entry says of an answer in numbers: document 01's number, the address that 17 names, and which kind of fact
// stands behind a stop. It has no other way to say them.
ghost use Rattle.std.specs.Prelude.{◌≡◌};
ghost use Rattle.state.specs.Numbers.{stop_missing};
ghost use Rattle.machine.specs.Numbers.{answer_number, reason_number, reason_missing};
ghost use Rattle.entry.specs.Why.{stop_kind, answer_kind};

use machine::run::Reason;
use state::setup::Refusal;
use state::stops::Stop;

pub fn answer_number(a: Result<Result<(), Stop>, Refusal>) -> u8
    ensures { result ≡ answer_number a }
{
    match a {
        Err(r) => u8::from(r),
        Ok(Ok(())) => 0,
        Ok(Err(s)) => u8::from(s),
    }
}

pub fn reason_number(e: Reason) -> u8
    ensures { result ≡ reason_number e }
{
    e.into()
}

fn stop_missing(s: Stop) -> u64
    ensures { result ≡ stop_missing s }
{
    match s {
        Stop::NoWindow(x) => x,
        _ => 0,
    }
}

// The address that is missing, and 0 for every other reason.
pub fn reason_missing(e: Reason) -> u64
    ensures { result ≡ reason_missing e }
{
    match e {
        Reason::Stopped(s) => stop_missing(s),
        Reason::Refused(_) | Reason::Spent => 0,
    }
}

fn stop_kind(s: Stop) -> u8
    ensures { result ≡ stop_kind s }
{
    match s {
        Stop::NoWord => 1,
        Stop::Unread(_) | Stop::BranchInSlot => 2,
        Stop::SwitchedOff => 3,
        Stop::NoWindow(_) | Stop::ReadOnly(_) => 4,
        Stop::Trap(_) => 5,
    }
}

// What the fact behind a stop is, and 0 where there is none.
pub fn answer_kind(a: Result<Result<(), Stop>, Refusal>) -> u8
    ensures { result ≡ answer_kind a }
{
    match a {
        Ok(Err(s)) => stop_kind(s),
        Ok(Ok(())) | Err(_) => 0,
    }
}
