// The types of the numbers that a column says.
ghost use Rattle.std.specs.Prelude.{◌≡◌, ℕ, ◌<◌, ◌≤◌, MatchOption};

// A type of numbers from 0 to a greatest one, which is no wider than 64 bits.
// Its two calls are its own, since bounds on `Into<u64>` and `TryFrom<u64>` do not say how great a number can be.
pub trait Number: Copy {
    ghost value: { Self → ℕ };

    ghost greatest: { ℕ };

    // The same number in 64 bits.
    fn wide(self) -> u64
        ensures same { result ≡ value self }
        ensures bound { result ≤ greatest };

    // The number that is this one, where the type has it.
    fn narrow(wide: u64) -> Option<Self>
        ensures { MatchOption result (greatest < wide) (λ n. value n ≡ wide) };
}

impl Number for u8 {
    ghost value = { λ n. n };

    ghost greatest = { 255 };

    fn wide(self) -> u64 {
        u64::from(self)
    }

    fn narrow(wide: u64) -> Option<u8> {
        u8::try_from(wide).ok()
    }
}

impl Number for u32 {
    ghost value = { λ n. n };

    ghost greatest = { 4_294_967_295 };

    fn wide(self) -> u64 {
        u64::from(self)
    }

    fn narrow(wide: u64) -> Option<u32> {
        u32::try_from(wide).ok()
    }
}
