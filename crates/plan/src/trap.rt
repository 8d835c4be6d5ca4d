// The float traps: which values of MSACSR arm one, and which of their bits do.
ghost use Rattle.std.specs.Prelude.{◌≡◌, ◌<◌, ◌≤◌};
ghost use Rattle.state.specs.Csr.{arms};
ghost use Rattle.state.specs.Csr as csr;

fn bit(k: u32, v: u32) -> bool
    requires { k < 32 }
    ensures { result ≡ csr.bit k v }
{
    (v >> k) % 2 == 1
}

pub fn has_trap(v: u32) -> bool
    ensures { result ≡ arms v }
{
    bit(17, v)
        | (bit(16, v) & bit(11, v))
        | (bit(15, v) & bit(10, v))
        | (bit(14, v) & bit(9, v))
        | (bit(13, v) & bit(8, v))
        | (bit(12, v) & bit(7, v))
}

// Bit 5 + k, at its place, where bit k is set too.
fn shared(k: u32, v: u32) -> u32
    requires { k < 12 }
    ensures { (result ≡ csr.shared k v) × (result ≤ 65536) }
{
    if bit(5 + k, v) & bit(k, v) {
        32 << k
    } else {
        0
    }
}

// Bit 17, or the bits of 16..12 that 11..7 share.
pub fn arming(v: u32) -> u32
    ensures { result ≡ csr.arming v }
{
    if bit(17, v) {
        return 131072;
    }
    shared(11, v) + shared(10, v) + shared(9, v) + shared(8, v) + shared(7, v)
}
