ghost use Rattle.std.specs.Prelude.{◌<◌};

/// Where reading is: the position modulo 8, and the bytes from there on.
#[derive(Drop)]
pub struct Cursor<'a> {
    pub place: usize,
    pub left: &'a [u8],
    ghost below: { place < 8 },
}
