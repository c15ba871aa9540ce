/// Whoever is shown how far a check of a folder has come. No contract sees what is shown.
pub trait Progress {
    /// So many files were looked at, of that many, and `waiting` of them aren't judged yet.
    fn looked(&mut self, waiting: usize, looked: usize, of: usize);

    /// All of these files were judged.
    fn ended(&mut self, files: usize);
}

/// Nobody: nothing is shown.
#[derive(Clone, Copy, Drop)]
pub struct Unwatched;

impl Progress for Unwatched {
    fn looked(&mut self, _waiting: usize, _looked: usize, _of: usize) {}

    fn ended(&mut self, _files: usize) {}
}
