// The index of the word at the program counter. A counter outside the program, and one that is no multiple of four on,
// have an index past all words: one test tells all three.
ghost use Rattle.listed.specs.Turn.{Placed};

pub fn place(base: u64, pc: u64) -> u64
    ensures { Placed base pc result }
{
    let d = pc.wrapping_sub(base);
    d / 4 + d % 4 * 0x4000_0000_0000_0000
}
