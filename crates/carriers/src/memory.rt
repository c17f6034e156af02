// Lent memory that is pressed from its front.
ghost use Rattle.std.specs.Prelude.{◌≡◌, ◌+◌, ◌^◌, ◌<◌, [], ◌++◌, length, drop, nat_le, if◌then◌else◌};
ghost use Rattle.carriers.specs.Tapes.{Memory};

use std::marker::Model;

// The memory is the caller's, who gets it back in two parts; so it is kept whole, with the number of bytes pressed.
#[derive(Drop)]
pub(crate) struct PressedMemory<'a> {
    bytes: &'a mut [u8],
    // behind the last byte pressed
    end: usize,
}

impl<'a> Model for PressedMemory<'a> {
    ghost use Rattle.std.specs.Prelude.{◌≤◌, length, take, drop};
    ghost use Rattle.carriers.specs.Tapes.{Memory};

    ghost Value = { Memory };

    ghost view = { λ m. record { pressed = take m.end m.bytes.now; unused = drop m.end m.bytes.now } };

    ghost invariant = { λ m. m.end ≤ length m.bytes.now };
}

impl<'a> PressedMemory<'a> {
    pub(crate) fn new(bytes: &'a mut [u8]) -> Self
        ensures { result ≡ record { pressed = []; unused = bytes.old } }
    {
        PressedMemory { bytes, end: 0 }
    }

    pub(crate) fn pressed(&self) -> &[u8]
        ensures bytes { result.now ≡ self.now.pressed }
        ensures fits { length self.now.pressed + length self.now.unused < 2 ^ 63 }
    {
        &self.bytes[0..self.end]
    }

    // How many bytes are not pressed yet.
    pub(crate) fn room(&self) -> usize
        ensures count { result ≡ length self.now.unused }
        ensures fits { length self.now.pressed + length self.now.unused < 2 ^ 63 }
    {
        self.bytes.len() - self.end
    }

    // Presses these bytes; or says no where fewer are free, and moves nothing.
    pub(crate) fn press(&mut self, group: &[u8]) -> bool
        ensures answer { result ≡ nat_le (length group.now) (length self.old.unused) }
        ensures pressed { self.new.pressed ≡ (if result then self.old.pressed ++ group.now else self.old.pressed) }
        ensures unused { self.new.unused ≡ (if result then drop (length group.now) self.old.unused else self.old.unused) }
        ensures fits { length self.new.pressed + length self.new.unused < 2 ^ 63 }
    {
        if self.room() < group.len() {
            return false;
        }
        let end = self.end + group.len();
        self.bytes[self.end..end].copy_from_slice(group);
        self.end = end;
        true
    }

    // The bytes pressed, and those behind them.
    pub(crate) fn finish(self) -> (&'a mut [u8], &'a mut [u8])
        ensures pressed { result.0.now ≡ self.entry.pressed }
        ensures unused { result.1.now ≡ self.entry.unused }
    {
        let PressedMemory { bytes, end } = self;
        bytes.split_at_mut(end)
    }
}
