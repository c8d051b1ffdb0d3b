// Unsigned numbers of any size, which are stored as the widest.
ghost use Rattle.std.specs.Prelude.{◌≡◌, ℕ, ◌≤◌, List, map};
ghost use Rattle.stored.specs.Numbers.{map_same};

pub trait Number: Copy {
    ghost value: { Self → ℕ };

    // A list of them, as numbers.
    ghost values: { List Self → List ℕ };

    fn wide(self) -> u64
        ensures { result ≡ value self };

    ghost values_are: { (list : List Self) → values list ≡ map value list };
}

impl Number for u8 {
    ghost value = { λ n. n };

    ghost values = { λ list. list };

    fn wide(self) -> u64 {
        u64::from(self)
    }

    ghost values_are = { map_same };
}

impl Number for u32 {
    ghost value = { λ n. n };

    ghost values = { λ list. list };

    fn wide(self) -> u64 {
        u64::from(self)
    }

    ghost values_are = { map_same };
}

impl Number for u64 {
    ghost value = { λ n. n };

    ghost values = { λ list. list };

    fn wide(self) -> u64 {
        self
    }

    ghost values_are = { map_same };
}

impl Number for usize {
    ghost value = { λ n. n };

    ghost values = { λ list. list };

    fn wide(self) -> u64 {
        self as u64
    }

    ghost values_are = { map_same };
}

// A number of which lists can be read: it may be no higher than the most.
pub trait Input: Number {
    const MOST: u64;

    ghost MOST: { ℕ };

    fn of(number: u64) -> Self
        requires { number ≤ MOST }
        ensures { Self.value result ≡ number };
}

impl Input for u8 {
    const MOST: u64 = 255;

    ghost MOST = { 255 };

    fn of(number: u64) -> u8 {
        number as u8
    }
}

impl Input for u32 {
    const MOST: u64 = 4294967295;

    ghost MOST = { 4294967295 };

    fn of(number: u64) -> u32 {
        number as u32
    }
}
