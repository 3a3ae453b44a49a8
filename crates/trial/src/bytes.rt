// Bytes that are put one behind another into an array.
ghost use Rattle.std.specs.Prelude.{◌≤◌};

// The room that a shelf of the trial has.
pub(crate) const ROOM: usize = 65536;

#[derive(Drop)]
pub(crate) struct Bytes<const N: usize> {
    pub(crate) held: [u8; N],
    pub(crate) len: usize,
    ghost within: { len ≤ N },
}

impl<const N: usize> Bytes<N> {
    pub(crate) fn new() -> Bytes<N> {
        Bytes {
            held: [0; N],
            len: 0,
        }
    }

    pub(crate) fn as_slice(&self) -> &[u8] {
        &self.held[..self.len]
    }

    pub(crate) fn as_mut_slice(&mut self) -> &mut [u8] {
        let n = self.len;
        let held = &mut self.held;
        let held = &mut held[..];
        &mut held[..n]
    }

    pub(crate) fn clear(&mut self) {
        self.len = 0;
    }

    // Puts bytes behind those that are held. Where there is no room nothing is put, and what is then made of the bytes counts as a difference.
    pub(crate) fn push(&mut self, bytes: &[u8]) {
        let at = self.len;
        if bytes.len() <= N - at {
            let held = &mut self.held[..];
            held[at..at + bytes.len()].copy_from_slice(bytes);
            self.len = at + bytes.len();
        }
    }
}
