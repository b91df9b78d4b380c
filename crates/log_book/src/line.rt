// The line in hand, which no LF has ended yet.

// Its first bytes, and how many bytes it has. Of a longer one than is kept the rest is let go: it is of another form, or not a reply.
// The count stays beside the array: there is no heap, and the memory is fixed.
#[derive(Drop)]
pub struct Line {
    bytes: [u8; Line::ROOM],
    pub size: usize,
}

impl Line {
    const ROOM: usize = 65536;

    pub fn fresh() -> Self {
        Line {
            bytes: [0; Line::ROOM],
            size: 0,
        }
    }

    // More bytes.
    pub fn extend(&mut self, more: &[u8]) {
        if let Some(room) = self.bytes.get_mut(self.size..) {
            let n = more.len().min(room.len());
            room[..n].copy_from_slice(&more[..n]);
        }
        self.size = self.size.saturating_add(more.len());
    }

    // The line that these bytes end, as far as it is kept, and whether it has more; the next begins. One that lies whole in a block, which has
    // no more bytes than are kept, is not copied.
    pub fn ended<'a>(&'a mut self, end: &'a [u8]) -> (&'a [u8], bool) {
        if self.size == 0 {
            return (end, false);
        }
        self.extend(end);
        let size = self.size;
        self.size = 0;
        (&self.bytes[..size.min(Line::ROOM)], Line::ROOM < size)
    }
}
