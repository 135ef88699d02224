// A join that can be taken back.

/// A pair that was joined, and the root that it hung under another one, if the two were not in one tree. Then also the
/// least number that the other tree had, and the root of the greatest tree until then.
#[derive(Clone, Copy, Drop)]
pub(crate) struct Join {
    pub(crate) a: u32,
    pub(crate) b: u32,
    pub(crate) hung: Option<u32>,
    pub(crate) first: u32,
    pub(crate) greatest: u32,
}
