// The list of a program: the entry of each word, written once.
ghost use Rattle.std.specs.Prelude.{◌≡◌, ◌+◌, ◌*◌, ◌/◌, ◌^◌, ◌<◌, ◌≤◌, length};
ghost use Rattle.entries.specs.Listed.{word_at, entry_at, listed, AreWords};

use crate::words::entry_of;
use memory::four;

fn entry_at(program: &[u8], i: usize) -> u64
    requires { 4 * i + 4 ≤ length program.now }
    ensures { (result ≡ entry_at program.now i) × (word_at program.now i < 2 ^ 32) }
{
    entry_of(four(program, 4 * i))
}

// All words of the program. The list is long enough; what it holds past them stays.
pub fn fill(program: &[u8], list: &mut [u64])
    requires { length program.now / 4 ≤ length list.old }
    ensures list_after { list.new
        ≡ listed program.now list.old (length program.now / 4) }
    ensures are_words { AreWords program.now (length program.now / 4) }
{
    for i in 0..program.len() / 4 {
        list[i] = entry_at(program, i);
    }
}
