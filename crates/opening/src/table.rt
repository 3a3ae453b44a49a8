// The gathered blocks as the search holds them, by their numbers.

// What is stored of each block: its least and greatest docid, its greatest score, its count of postings, and where its body's tag stands.
#[derive(Clone, Copy)]
pub struct Table<'a> {
    pub los: &'a [u32],
    pub his: &'a [u32],
    pub tops: &'a [u16],
    pub counts: &'a [u8],
    pub bodies: &'a [u32],
}
