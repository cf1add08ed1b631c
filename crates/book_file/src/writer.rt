// A buffer that the caller lends, written one piece behind the other.
ghost use Rattle.std.specs.Prelude.{◌≤◌, length};

// The buffer, and the place that is written next. A slice that shrinks would have to be handed back by each call.
#[derive(Drop)]
pub(crate) struct Writer<'a> {
    pub buffer: &'a mut [u8],
    pub place: usize,
    ghost within: { place ≤ length buffer.now },
}

impl Writer<'_> {
    ghost use Rattle.book_file.specs.Writing.{Room, Put};

    // Writes the bytes at the place, and moves on behind them.
    pub fn put(&mut self, bytes: &[u8])
        requires { Room self.old (length bytes.now) }
        ensures { Put self.old self.new bytes.now }
    {
        let end = self.place + bytes.len();
        self.buffer[self.place..end].copy_from_slice(bytes);
        self.place = end;
    }
}
