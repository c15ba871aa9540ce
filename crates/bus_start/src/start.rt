// What a link has heard of the answers to its first calls.
ghost use Rattle.std.specs.Prelude.{◌≤◌};

/// What a link has heard of the answers to its first calls.
#[derive(Drop)]
pub struct Starting<T> {
    pub(crate) is_named: bool,
    pub(crate) is_watching: bool,
    pub(crate) is_owner: bool,
    pub(crate) kept: Vec<T>,
    pub(crate) bytes: u64,
    ghost within: { bytes ≤ 16777216 },
}
