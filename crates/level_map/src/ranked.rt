/// A rank with its level.
#[derive(Clone, Copy, Debug, PartialEq, Eq)]
pub struct Ranked {
    pub rank: u32,
    pub level: u32,
}
