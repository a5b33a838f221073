// Numbers of a case file, little-endian.
ghost use Rattle.std.specs.Prelude.{◌≡◌, ◌+◌, ◌≤◌, List, ℕ, length};
ghost use Rattle.judgement.specs.Numbers.{u16_at, u32_at};

// A number of so many bytes.
pub trait Number: Copy {
    ghost size: { ℕ };

    ghost stands_at: { List ℕ → ℕ → Self };

    fn read(file: &[u8], place: usize) -> Self
        requires { place + size ≤ length file.now }
        ensures { result ≡ stands_at file.now place };
}

impl Number for u16 {
    ghost size = { 2 };

    ghost stands_at = { u16_at };

    fn read(file: &[u8], place: usize) -> u16 {
        u16::from_le_bytes([file[place], file[place + 1]])
    }
}

impl Number for u32 {
    ghost size = { 4 };

    ghost stands_at = { u32_at };

    fn read(file: &[u8], place: usize) -> u32 {
        u32::from_le_bytes([
            file[place],
            file[place + 1],
            file[place + 2],
            file[place + 3],
        ])
    }
}
