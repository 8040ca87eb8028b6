ghost use Rattle.std.specs.Prelude.{◌≡◌, ℕ, ◌+◌, ◌≤◌, length};
ghost use Rattle.wire.specs.Written.{HasRoom, Puts};

// Bytes that are lent to be written, and the place where the next part goes.
#[derive(Drop)]
pub(crate) struct Writer<'a> {
    out: &'a mut [u8],
    at: usize,
}

impl<'a> Writer<'a> {
    // Writes from the start on.
    pub(crate) fn over(out: &'a mut [u8]) -> Self
        ensures start { result.at ≡ 0 }
        ensures bytes { result.out.now ≡ out.old }
        ensures lent { result.out.ghost_name ≡ out.entry.ghost_name }
    {
        Writer { out, at: 0 }
    }

    // How many bytes have been written.
    pub(crate) fn len(&self) -> usize
        ensures { result ≡ self.now.at }
    {
        self.at
    }

    // Writes the next part.
    pub(crate) fn put(&mut self, part: &[u8])
        requires { HasRoom (length part.now) self.old }
        ensures { Puts part.now self.old self.new }
    {
        let at = self.at;
        let end = at + part.len();
        self.out[at..end].copy_from_slice(part);
        self.at = end;
    }
}
