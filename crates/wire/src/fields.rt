// What stands at a place of the bytes heard.
ghost use Rattle.std.specs.Prelude.{◌≡◌, ◌+◌, ◌≤◌, length};
ghost use Rattle.wire.specs.Bytes.{field};
ghost use Rattle.wire.specs.Read.{key_at};

use crate::key::Key;

// The N bytes from a place on.
pub(crate) fn array_at<const N: usize>(bytes: &[u8], at: usize) -> [u8; N]
    requires { at + N ≤ length bytes.now }
    ensures { result ≡ field at N bytes.now }
{
    let mut part = [0; N];
    part.copy_from_slice(&bytes[at..at + N]);
    part
}

// View and name.
pub(crate) fn key_at(bytes: &[u8], at: usize) -> Key
    requires { at + 36 ≤ length bytes.now }
    ensures { result ≡ key_at at bytes.now }
{
    Key {
        view: u32::from_be_bytes(array_at(bytes, at)),
        name: array_at(bytes, at + 4),
    }
}
