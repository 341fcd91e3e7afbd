/// The place of an element: the arrival number of its version, and its number in that version, both counted from 0.
#[derive(Clone, Copy, Debug, PartialEq, Eq)]
pub struct At {
    pub version: u32,
    pub ordinal: u32,
}
