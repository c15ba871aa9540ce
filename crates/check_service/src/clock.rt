// The moments and the salts of requests.

/// Gives each request and each derived key of a service a moment and a salt of its own.
#[derive(Clone, Copy)]
pub struct Clock {
    count: u64,
}

impl Clock {
    /// The clock of a new service.
    pub fn new() -> Clock {
        Clock { count: 0 }
    }

    /// Goes one second on.
    pub fn step(&mut self) {
        self.count = self.count.saturating_add(1);
    }

    /// The moment, in seconds since 1970: 1,700,000,001 after the first step.
    pub fn now(&self) -> u64 {
        self.count.saturating_add(1_700_000_000)
    }

    /// The salt: the bytes 1 to 8 after the first step, and after the n-th step n times each of them, as long as that is a byte.
    pub fn salt(&self) -> [u8; 8] {
        self.count.wrapping_mul(0x0102_0304_0506_0708).to_be_bytes()
    }
}
