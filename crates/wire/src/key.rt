ghost use Rattle.std.specs.Prelude.{◌≡◌, ◌+◌, ◌≤◌, length, Decides};
ghost use Rattle.wire.specs.Format.{key_bytes, origin, same_key};
ghost use Rattle.wire.specs.Written.{HasRoom, Puts};

use crate::put::Writer;

// A block is known by its view and its name, the digest of its body's bytes.
#[derive(Clone, Copy, PartialEq, Eq)]
pub struct Key {
    pub view: u32,
    pub name: [u8; 32],
}

impl Key {
    // The block before the first.
    // Stays: it is named for what it is in the format; a derived `default` would say only that its fields are zeros.
    pub fn origin() -> Key
        ensures { result ≡ origin }
    {
        Key {
            view: 0,
            name: [0; 32],
        }
    }

    // How many bytes view and name take.
    pub(crate) fn size(&self) -> usize
        ensures bytes { result ≡ length (key_bytes self.now) }
        ensures value { result ≡ 36 }
    {
        let name: &[u8] = &self.name;
        4 + name.len()
    }

    // Writes view and name.
    pub(crate) fn put(&self, out: &mut Writer<'_>)
        requires { HasRoom 36 out.old }
        ensures ends { out.new.at ≡ out.old.at + 36 }
        ensures wrote { Puts (key_bytes self.now) out.old out.new }
    {
        out.put(&self.view.to_be_bytes());
        out.put(&self.name);
    }
}
