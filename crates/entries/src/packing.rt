// An entry put together from its parts. Each part is taken modulo its size, so the sum stays below 2^64.
ghost use Rattle.std.specs.Prelude.{◌≡◌};
ghost use Rattle.entries.specs.Entry as entry;

#[tactic(auto, unfolding(crate::specs::Entry::packed))]
pub fn packed(code: u64, df: u64, flag: u64, d: u64, s: u64, t: u64, imm: u64) -> u64
    ensures { result ≡ entry.packed code df flag d s t imm }
{
    code % 256
        + df % 4 * 256
        + flag % 2 * 1024
        + d % 32 * 2048
        + s % 32 * 65536
        + t % 32 * 2097152
        + imm % 4294967296 * 4294967296
}
