use braid_fields::Reason;

/// What bytes say of a thing that they begin with.
#[derive(Drop)]
pub enum Found<'a, T> {
    /// It is not whole.
    Part,
    /// It is wrong, at this place for this reason.
    Bad(u64, Reason),
    /// It is whole: its value, the place behind it and the bytes from there.
    Whole(T, u64, &'a [u8]),
}
