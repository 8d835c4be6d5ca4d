// The word at the program counter. The program is a store of its own: its words' bytes, word i at base + 4i.
ghost use Rattle.state.specs.Fetch.{Fetches};

pub fn word_at(program: &[u8], base: u64, pc: u64) -> Option<u32>
    ensures { Fetches program.now base pc result }
{
    let d = pc.checked_sub(base)?;
    if d % 4 != 0 {
        return None;
    }
    if program.len() < 4 {
        return None;
    }
    if d <= (program.len() - 4) as u64 {
        Some(memory::four(program, d as usize))
    } else {
        None
    }
}
