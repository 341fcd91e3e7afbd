//! The forms of a server's address and of a path.

ghost use Rattle.std.specs.Prelude.{◌≡◌, ◌↔◌, IsTrue};
ghost use Rattle.braid_fields.specs.Places.{is_server_byte, is_path_byte, IsServer, IsPath};

const LONGEST_SERVER: usize = 255;

const LONGEST_PATH: usize = 1_024;

/// Whether the address of a server may have the byte.
fn is_server_byte(byte: u8) -> bool
    ensures value { result ≡ is_server_byte byte }
{
    byte >= 0x21 && byte <= 0x7e
}

/// Whether a path may have the byte.
fn is_path_byte(byte: u8) -> bool
    ensures value { result ≡ is_path_byte byte }
{
    byte.is_ascii_alphanumeric() || b"-._~!$&'()*+,;=:@%/?".contains(&byte)
}

/// Whether the bytes are the address of a server: 1 to 255 bytes from `!` to `~`. It takes no memory.
pub fn is_server(address: &[u8]) -> bool
    ensures server { IsTrue result ↔ IsServer address.now }
{
    !address.is_empty()
        && address.len() <= LONGEST_SERVER
        && address.iter().all(|byte| is_server_byte(*byte))
}

/// Whether the bytes are a path: `/` and then letters, digits and the signs ``-._~!$&'()*+,;=:@%/?``, 1,024 bytes at
/// most. It takes no memory.
pub fn is_path(path: &[u8]) -> bool
    ensures path { IsTrue result ↔ IsPath path.now }
{
    path.starts_with(b"/")
        && path.len() <= LONGEST_PATH
        && path.iter().all(|byte| is_path_byte(*byte))
}
