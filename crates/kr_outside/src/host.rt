ghost use Rattle.std.specs.Prelude.{◌≡◌, ℕ, ◌≤◌, Bool, IsTrue, IsFalse, List, [], Option, IfOk, OnOk};
ghost use Rattle.kr_outside.specs.Faults.{KeepsSteady, IsBelowLast};
ghost use Rattle.kr_outside.specs.Folder.{HasOutsideCause, AreTold};
ghost use Rattle.kr_outside.specs.Host.{ShutDoors, CountsGiven, TakesBack, TellsAsBefore};

use crate::{Clock, Folder, Listener, OutsideRefused};

/// The machine on which the program runs: it opens folders, opens doors at which others connect, and
/// has a clock.
pub trait Host {
    /// The type of its folders.
    type Dir: Folder;

    /// The type of its doors.
    type Door: Listener;

    /// The type of its clock.
    type Time: Clock;

    /// What the names of the folder at a path stand for, if the host reports it.
    ghost told: { Self → List ℕ → Option (List ℕ → Option (List ℕ)) };

    /// The moments that its clock is going to return, if the host reports them.
    ghost coming: { Self → Option (ℕ → ℕ) };

    /// How often the host has failed. The count never falls, and stays at 2^64 - 1.
    ghost faults: { Self → ℕ };

    /// How many folders the host has opened. The count never falls, and stays at 2^64 - 1.
    ghost given: { Self → ℕ };

    /// What the host reports of the doors that it took back.
    ghost shut_doors: { Self → ShutDoors };

    /// Whether its folders behave as the rename disk does, and nobody else writes them.
    ghost is_honest: { Self → Bool };

    /// Whether neither the host nor its folders, its doors and its clock ever fail. A link that a
    /// door gives may fail all the same.
    ghost is_steady: { Self → Bool };

    /// The folder at a path, of which no slot was made yet. It is counted.
    ///
    /// Refused with `Failed` only if the count of faults rose, and with `OutOfMemory` if no
    /// memory was left.
    fn folder(&mut self, path: &str) -> Result<Self::Dir, OutsideRefused>
        ensures told { IfOk result (λ folder.
            AreTold (told self.old path.now) (Self.Dir.images folder)) }
        ensures fresh { IfOk result (λ folder. Self.Dir.made folder ≡ []) }
        ensures honest_folder { IfOk result (λ folder.
            Self.Dir.is_honest folder ≡ is_honest self.old) }
        ensures steady_folder { IfOk result (λ folder.
            Self.Dir.is_steady folder ≡ is_steady self.old) }
        ensures coming { coming self.new ≡ coming self.old }
        ensures honest { is_honest self.new ≡ is_honest self.old }
        ensures given { CountsGiven (given self.old) (given self.new) result }
        ensures shut_doors { shut_doors self.new ≡ shut_doors self.old }
        ensures cause { HasOutsideCause (faults self.old) (faults self.new) result }
        ensures still { OnOk result (faults self.new ≡ faults self.old) }
        ensures steady { KeepsSteady (is_steady self.old) (is_steady self.new)
            (faults self.old) (faults self.new) };

    /// A door at a path, at which others connect from now on. It has given no link and hasn't ended.
    ///
    /// Refused with `Failed` only if the count of faults rose, and with `OutOfMemory` if no
    /// memory was left.
    fn listen(&mut self, path: &str) -> Result<Self::Door, OutsideRefused>
        ensures address { IfOk result (λ door. Self.Door.address door ≡ path.now) }
        ensures none_given { IfOk result (λ door. Self.Door.given door ≡ 0) }
        ensures not_ended { IfOk result (λ door. IsFalse (Self.Door.has_ended door)) }
        ensures steady_door { IfOk result (λ door.
            IsTrue (is_steady self.old) → IsTrue (Self.Door.is_steady door)) }
        ensures told { TellsAsBefore told self.old self.new }
        ensures coming { coming self.new ≡ coming self.old }
        ensures honest { is_honest self.new ≡ is_honest self.old }
        ensures given { given self.new ≡ given self.old }
        ensures shut_doors { shut_doors self.new ≡ shut_doors self.old }
        ensures cause { HasOutsideCause (faults self.old) (faults self.new) result }
        ensures still { OnOk result (faults self.new ≡ faults self.old) }
        ensures steady { KeepsSteady (is_steady self.old) (is_steady self.new)
            (faults self.old) (faults self.new) };

    /// Takes a door back: nobody connects at it any more. It is counted, with the path at which
    /// others connected, the number of links that it gave, and whether it had ended. It can't be
    /// refused; the host may count a fault.
    fn shut(&mut self, door: Self::Door)
        ensures shut_doors { TakesBack (shut_doors self.old) (Self.Door.address door)
            (Self.Door.given door) (Self.Door.has_ended door) (shut_doors self.new) }
        ensures told { TellsAsBefore told self.old self.new }
        ensures coming { coming self.new ≡ coming self.old }
        ensures honest { is_honest self.new ≡ is_honest self.old }
        ensures given { given self.new ≡ given self.old }
        ensures later { faults self.old ≤ faults self.new }
        ensures steady { KeepsSteady (is_steady self.old) (is_steady self.new)
            (faults self.old) (faults self.new) };

    /// The clock. It can't be refused.
    fn clock(&mut self) -> Self::Time
        ensures told { Self.Time.coming result ≡ coming self.old }
        ensures steady_clock { IsTrue (is_steady self.old) → IsTrue (Self.Time.is_steady result) }
        ensures told_as_before { TellsAsBefore told self.old self.new }
        ensures honest { is_honest self.new ≡ is_honest self.old }
        ensures given { given self.new ≡ given self.old }
        ensures shut_doors { shut_doors self.new ≡ shut_doors self.old }
        ensures count { faults self.new ≡ faults self.old }
        ensures steady { is_steady self.new ≡ is_steady self.old };

    /// The count of a steady host isn't at its maximum: as it never rises, no call fails.
    ghost steady_below: { (host : Self) → IsBelowLast (is_steady host) (faults host) };
}
