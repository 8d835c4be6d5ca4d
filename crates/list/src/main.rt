// Document 01's listing program. Here its input begins with the two words of the paper's example, and ends with three bytes that are no word.
#![tactic(auto)]

use std::io;

fn main(rt: HostRuntime) -> io::Result<()> {
    lister::list_input(&mut rt.reader(), &mut io::writer(&rt))
}
