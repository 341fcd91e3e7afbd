use braid_ids::Bytes;

/// Where a text is: the address of its server, and its path there.
#[derive(Drop)]
pub struct Place {
    /// The address: 1 to 255 bytes from `!` to `~`.
    pub server: Bytes,
    /// The path: `/` and then letters, digits and the signs ``-._~!$&'()*+,;=:@%/?``, 1,024 bytes at most.
    pub path: Bytes,
}
