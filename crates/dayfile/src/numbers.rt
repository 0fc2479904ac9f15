// Numbers in a record: unsigned, the high byte first.
ghost use Rattle.std.specs.Prelude.{◌≡◌, ℕ, ◌+◌, ◌≤◌, length, take, drop};
ghost use Rattle.dayformat.specs.Code.{bytes};

// A number that is stored in N bytes.
pub(crate) trait Number<const N: usize>: Copy {
    ghost value: { Self → ℕ };

    fn of_bytes(code: &[u8; N]) -> Self
        ensures { bytes N (value result) ≡ code.now };

    fn to_bytes(self) -> [u8; N]
        ensures { result ≡ bytes N (value self) };
}

impl Number<4> for u32 {
    ghost value = { λ n. n };

    fn of_bytes(code: &[u8; 4]) -> u32 {
        u32::from_be_bytes(*code)
    }

    fn to_bytes(self) -> [u8; 4] {
        self.to_be_bytes()
    }
}

impl Number<2> for u16 {
    ghost value = { λ n. n };

    fn of_bytes(code: &[u8; 2]) -> u16 {
        u16::from_be_bytes(*code)
    }

    fn to_bytes(self) -> [u8; 2] {
        self.to_be_bytes()
    }
}

// The number in the bytes from a place on.
pub(crate) fn number_at<T: Number<N>, const N: usize>(part: &[u8], at: usize) -> T
    requires { at + N ≤ length part.now }
    ensures { bytes N (T.value result) ≡ take N (drop at part.now) }
{
    T::of_bytes(part[at..at + N].try_into().unwrap())
}
