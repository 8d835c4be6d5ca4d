// Whether 15 or 16 stops an instruction before it works: of a branch the slot mark and then the switch, of every other
// that needs the vector unit the switch.
ghost use Rattle.std.specs.Prelude.{◌≡◌};
ghost use Rattle.plan.specs.Plan.{switched_early, branch_early};

use state::control::Mark;
use state::stops::Stop;

pub fn switched_early(on: bool) -> Result<(), Stop>
    ensures { result ≡ switched_early on }
{
    if on { Ok(()) } else { Err(Stop::SwitchedOff) }
}

pub fn branch_early(k: Mark, on: bool) -> Result<(), Stop>
    ensures { result ≡ branch_early k on }
{
    match k {
        Mark::Clear => switched_early(on),
        Mark::NotTaken | Mark::Taken(_) => Err(Stop::BranchInSlot),
    }
}
