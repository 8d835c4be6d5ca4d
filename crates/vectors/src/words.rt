// Registers by their two words: no element of any format crosses them, so what makes a word of words makes a register
// of registers.
use memory::Register;

// f of the low words and of the high words.
pub fn by_words<F: Fn(u64, u64) -> u64>(s: Register, t: Register, f: F) -> Register
    requires { F.IsAlwaysCallable f }
    ensures low { F.post f s.low t.low result.low }
    ensures high { F.post f s.high t.high result.high }
{
    Register {
        low: f(s.low, t.low),
        high: f(s.high, t.high),
    }
}

// The same of three registers.
pub fn by_three_words<F: Fn(u64, u64, u64) -> u64>(
    d: Register,
    s: Register,
    t: Register,
    f: F,
) -> Register
    requires { F.IsAlwaysCallable f }
    ensures low { F.post f d.low s.low t.low result.low }
    ensures high { F.post f d.high s.high t.high result.high }
{
    Register {
        low: f(d.low, s.low, t.low),
        high: f(d.high, s.high, t.high),
    }
}
