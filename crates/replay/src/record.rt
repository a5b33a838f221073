// A record, read from its front. Its numbers are little-endian, the signed ones in two's complement.

// What is left of a record.
#[derive(Clone, Copy)]
pub(crate) struct Record<'a> {
    rest: &'a [u8],
}

impl<'a> Record<'a> {
    pub(crate) fn new(bytes: &'a [u8]) -> Record<'a> {
        Record { rest: bytes }
    }

    pub(crate) fn is_empty(&self) -> bool {
        self.rest.is_empty()
    }

    pub(crate) fn take(&mut self, count: usize) -> Option<&'a [u8]> {
        let (bytes, rest) = self.rest.split_at_checked(count)?;
        self.rest = rest;
        Some(bytes)
    }

    fn array<const N: usize>(&mut self) -> Option<[u8; N]> {
        let (bytes, rest) = self.rest.split_first_chunk::<N>()?;
        self.rest = rest;
        Some(*bytes)
    }

    pub(crate) fn u8(&mut self) -> Option<u8> {
        self.array().map(u8::from_le_bytes)
    }

    pub(crate) fn u16(&mut self) -> Option<u16> {
        self.array().map(u16::from_le_bytes)
    }

    pub(crate) fn u32(&mut self) -> Option<u32> {
        self.array().map(u32::from_le_bytes)
    }

    pub(crate) fn u64(&mut self) -> Option<u64> {
        self.array().map(u64::from_le_bytes)
    }

    pub(crate) fn i32(&mut self) -> Option<i32> {
        self.array().map(i32::from_le_bytes)
    }

    pub(crate) fn i64(&mut self) -> Option<i64> {
        self.array().map(i64::from_le_bytes)
    }

    // A signed number of so many bytes. Of another width than the format has, it is the 32 bits that begin there; what is missing of them is 0.
    fn number(&mut self, width: u8) -> Option<i64> {
        match width {
            1 => self
                .array()
                .map(|bytes| i64::from(i8::from_le_bytes(bytes))),
            2 => self
                .array()
                .map(|bytes| i64::from(i16::from_le_bytes(bytes))),
            4 => self.i32().map(i64::from),
            8 => self.i64(),
            _ => {
                let mut bytes = [0u8; 4];
                for (byte, stored) in bytes.iter_mut().zip(self.rest) {
                    *byte = *stored;
                }
                self.take(usize::from(width))?;
                Some(i64::from(i32::from_le_bytes(bytes)))
            }
        }
    }

    // Signed numbers of so many bytes, as many as there is room for; with 0 bytes none is stored, and the room stays as it is.
    pub(crate) fn numbers(&mut self, width: u8, room: &mut [i64]) -> Option<()> {
        if width > 0 {
            for number in room {
                *number = self.number(width)?;
            }
        }
        Some(())
    }
}
