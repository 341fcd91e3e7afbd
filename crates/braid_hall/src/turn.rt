/// The answer of `Hall::enter`.
#[derive(Drop)]
pub enum Turn<B> {
    /// The pass is in a turn, and this is the book.
    Held(B),
    /// The pass looked at 9,223,372,036,854,775,808 or more as the next ticket, and drew none.
    Worn,
}
