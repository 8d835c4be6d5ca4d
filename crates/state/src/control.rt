// The control block, by value.

// The slot mark: what the last finished instruction leaves for the next one.
#[derive(Clone, Copy, Debug, PartialEq, Eq)]
pub enum Mark {
    Clear,
    NotTaken,
    Taken(u64),
}

#[derive(Clone, Copy, Debug, PartialEq, Eq)]
pub struct Control {
    pub pc: u64,
    pub mark: Mark,
    pub csr: u32,
    pub on: bool,
}
