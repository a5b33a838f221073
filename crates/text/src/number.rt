// Numbers that have a text: in decimal, with a minus sign where they are below 0.
ghost use Rattle.std.specs.Prelude.{◌≡◌, ◌≤◌, List, ℕ, length};
ghost use Rattle.text.specs.Numbers.{decimal, signed};
ghost use Rattle.text.specs.Puts.{Puts};

use crate::Text;

pub trait Number: Copy {
    ghost digits: { Self → List ℕ };

    fn put(self, text: &mut Text)
        ensures { Puts text.old (digits self) text.new };

    fn length(self) -> usize
        ensures { result ≡ length (digits self) };
}

fn decimal_length(n: u64) -> usize
    ensures value { result ≡ length (decimal n) }
    ensures upper_bound { result ≤ 20 }
{
    io::decimal(n, &mut [0u8; 20])
}

impl Number for u64 {
    ghost digits = { decimal };

    fn put(self, text: &mut Text) {
        let mut digits = [0u8; 20];
        let count = io::decimal(self, &mut digits);
        text.put(&digits[..count]);
    }

    fn length(self) -> usize {
        decimal_length(self)
    }
}

impl Number for i64 {
    ghost digits = { signed };

    fn put(self, text: &mut Text) {
        if self < 0 {
            text.put(b"-");
        }
        self.unsigned_abs().put(text);
    }

    fn length(self) -> usize {
        let digits = decimal_length(self.unsigned_abs());
        if self < 0 { 1 + digits } else { digits }
    }
}

impl Number for u16 {
    ghost digits = { decimal };

    fn put(self, text: &mut Text) {
        (self as u64).put(text);
    }

    fn length(self) -> usize {
        decimal_length(self as u64)
    }
}

impl Number for u32 {
    ghost digits = { decimal };

    fn put(self, text: &mut Text) {
        (self as u64).put(text);
    }

    fn length(self) -> usize {
        decimal_length(self as u64)
    }
}

impl Number for usize {
    ghost digits = { decimal };

    fn put(self, text: &mut Text) {
        (self as u64).put(text);
    }

    fn length(self) -> usize {
        decimal_length(self as u64)
    }
}
