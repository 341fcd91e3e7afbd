use braid_ids::Bytes;
use braid_io::Status;

/// What a command that was carried out prints at its end, and the status of its run where that was written.
#[derive(Drop)]
pub struct Report {
    pub text: Bytes,
    pub status: Status,
}
