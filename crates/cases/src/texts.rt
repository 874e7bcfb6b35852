// The text that a request reads, put together piece by piece in an area of fixed room.
ghost use Rattle.std.specs.Prelude.{◌≡◌, ℕ, ◌+◌, ◌≤◌, ◌↔◌, List, [], ◌++◌, length, take, replicate, IsSome, IsNone, OnSome};

use std::marker::Model;

const TEXT_AREA: usize = 40_960;

#[derive(Drop)]
pub struct Text {
    bytes: [u8; TEXT_AREA],
    long: usize,
}

// Clauses see the bytes of the text.
impl Model for Text {
    ghost Value = { List ℕ };

    ghost view = { λ t. take t.long t.bytes };

    ghost invariant = { λ t. t.long ≤ 40960 };
}

impl Text {
    pub fn empty() -> Text
        ensures { result ≡ [] }
    {
        Text {
            bytes: [0; TEXT_AREA],
            long: 0,
        }
    }

    pub fn as_slice(&self) -> &[u8]
        ensures { result.now ≡ self.now }
    {
        &self.bytes[..self.long]
    }

    pub fn clear(&mut self)
        ensures { self.new ≡ [] }
    {
        self.long = 0;
    }

    // A byte string added at the end, where there is room.
    pub fn add(&mut self, bytes: &[u8]) -> Option<()>
        ensures room { IsSome result ↔ (length self.old + length bytes.now ≤ 40960) }
        ensures added { OnSome result (self.new ≡ self.old ++ bytes.now) }
        ensures full { IsNone result → self.new ≡ self.old }
    {
        if TEXT_AREA - self.long < bytes.len() {
            return None;
        }
        let end = self.long + bytes.len();
        self.bytes[self.long..end].copy_from_slice(bytes);
        self.long = end;
        Some(())
    }

    // A byte added at the end so many times, where there is room: most long texts are made of one byte.
    pub fn add_repeated(&mut self, byte: u8, times: usize) -> Option<()>
        ensures room { IsSome result ↔ (length self.old + times ≤ 40960) }
        ensures added { OnSome result (self.new ≡ self.old ++ replicate times byte) }
        ensures full { IsNone result → self.new ≡ self.old }
    {
        if TEXT_AREA - self.long < times {
            return None;
        }
        let end = self.long + times;
        self.bytes[self.long..end].fill(byte);
        self.long = end;
        Some(())
    }
}
