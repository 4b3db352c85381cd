// Bytes put one behind the other, into a lent buffer or only counted, so that whoever writes can measure first.
#![tactic(auto)]

ghost use Rattle.std.specs.Prelude.{◌≡◌, List, ℕ, ◌+◌, ◌≤◌, length};
ghost use Rattle.ink.specs.Ink.{Lawful, counted, Counts, written, Fits};

// What takes bytes, each behind those before it, as long as it has room.
pub trait Ink {
    // What it is once these bytes are put.
    ghost after: { Self → List ℕ → Self };

    // It has room for these bytes.
    ghost room: { Self → List ℕ → Type 0 };

    // Some bytes, behind those that were put before; room is asked for, since callers measure once and no part is written of what does not fit.
    fn put(&mut self, bytes: &[u8])
        requires { room self.old bytes.now }
        ensures { self.new ≡ after self.old bytes.now };

    ghost laws: { Lawful after room };
}

// Bytes that are only counted.
#[derive(Drop)]
pub struct Ruler {
    len: usize,
}

impl Ruler {
    pub fn new() -> Ruler
        ensures { result.len ≡ 0 }
    {
        Ruler { len: 0 }
    }

    pub fn len(&self) -> usize
        ensures { result ≡ self.now.len }
    {
        self.len
    }
}

impl Ink for Ruler {
    ghost use Rattle.ink.specs.Laws.{ruler_laws};

    ghost after = { counted };

    ghost room = { Counts };

    fn put(&mut self, bytes: &[u8]) {
        self.len += bytes.len();
    }

    ghost laws = { ruler_laws };
}

// Bytes that are written into a lent buffer, from its start on.
#[derive(Drop)]
pub struct Pen<'a> {
    buffer: &'a mut [u8],
    len: usize,
}

impl<'a> Pen<'a> {
    pub fn new(buffer: &'a mut [u8]) -> Pen<'a>
        ensures lent { result.buffer.ghost_name ≡ buffer.entry.ghost_name }
        ensures buffer { result.buffer.now ≡ buffer.old }
        ensures len { result.len ≡ 0 }
    {
        Pen { buffer, len: 0 }
    }

    // How many bytes are there: what a caller that has no ruler goes on from.
    pub fn len(&self) -> usize
        ensures { result ≡ self.now.len }
    {
        let Pen { len, .. } = self;
        *len
    }
}

impl<'a> Ink for Pen<'a> {
    ghost use Rattle.ink.specs.Laws.{pen_laws};

    ghost after = { written };

    ghost room = { Fits };

    // Byte by byte: copy_from_slice calls memmove of the C library, and this library needs no other.
    fn put(&mut self, bytes: &[u8]) {
        for &byte in bytes {
            self.buffer[self.len] = byte;
            self.len += 1;
        }
    }

    ghost laws = { pen_laws };
}
