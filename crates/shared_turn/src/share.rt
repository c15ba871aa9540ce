/// Which of a run's passes a pass stands for. A pass that is noted is one more, and one that is
/// gathered is one less. No value of it is made.
pub enum Share {
    /// All but this many.
    AllBut(u64),
    /// This many of those that were noted.
    Only(u64),
}
