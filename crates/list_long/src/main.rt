// The listing program on 4,096 words and a byte more: it lists the words, says that there is more, and ends.
#![tactic(auto)]

use std::io;

fn main(rt: HostRuntime) -> io::Result<()> {
    lister::list_input(&mut rt.reader(), &mut io::writer(&rt))
}
