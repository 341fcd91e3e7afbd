/// How much room is left: how many versions, elements and deletions may still come without taking memory.
#[derive(Clone, Copy)]
pub struct Left {
    pub versions: u32,
    pub elements: u32,
    pub deletions: u32,
}
