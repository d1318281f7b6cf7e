// An answer's text, in fixed memory: it grows behind what was written, and what has no room is left out.
ghost use Rattle.std.specs.Prelude.{◌≡◌, take, replicate, IsOk};
ghost use Rattle.script.specs.Text.{Laid, shown_of};
ghost use Rattle.lines.specs.Texts.{Empty};

use std::fmt;

#[derive(Drop)]
pub struct Text<const N: usize> {
    pub bytes: [u8; N],
    pub length: usize,
}

impl<const N: usize> Text<N> {
    pub fn new() -> Text<N>
        ensures { Empty result.length result.bytes (replicate N 0) }
    {
        Text {
            bytes: [0; N],
            length: 0,
        }
    }

    pub fn clear(&mut self)
        ensures { Empty self.new.length self.new.bytes self.old.bytes }
    {
        self.length = 0;
    }

    pub fn as_bytes(&self) -> &[u8]
        ensures { result.now ≡ take self.now.length self.now.bytes }
    {
        hexline::front(&self.bytes, self.length)
    }

    // The digits of bytes, and "-" for none.
    pub fn put_bytes(&mut self, bytes: &[u8])
        ensures { Laid self.old.bytes self.old.length (shown_of bytes.now) self.new.length self.new.bytes }
    {
        self.length = script::put_bytes(&mut self.bytes, self.length, bytes);
    }
}

impl<const N: usize> fmt::Write for Text<N> {
    ghost write_str_gives = { λ s bytes t. Laid s.bytes s.length bytes t.length t.bytes };

    fn write_str(&mut self, s: &str) -> fmt::Result
        ensures { IsOk result × Laid self.old.bytes self.old.length s.now self.new.length self.new.bytes }
    {
        self.length = script::put(&mut self.bytes, self.length, s.as_bytes());
        Ok(())
    }
}
