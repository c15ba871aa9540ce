// The top call: from the arguments and the streams to the end.
ghost use Rattle.std.specs.Prelude.{◌≡◌, ◌≤◌, ◌⊎◌, ◌↔◌, ℕ, Bool, IsTrue, IsFalse, List, [], Option};
ghost use Rattle.command_words.specs.CommandLines.{IsCommandLine, IsNoCommandLine};
ghost use Rattle.kr_outside.specs.Faults.{KeepsSteady, Rose, StandsStill};
ghost use Rattle.kr_outside.specs.Host.{GivesOne, GivesOneAtMost};
ghost use Rattle.kr_outside.specs.RenameDisk.{Image};
ghost use Rattle.service_hub.specs.connection_worker.specs.Streams.{input_of, output_of};
ghost use Rattle.ring_check.specs.Batches.{KeepsOutput};
ghost use Rattle.ring_check.specs.Looks.{IsUntouched};
ghost use Rattle.ring_check.specs.declared.reading.Looked.{Looked};
ghost use Rattle.keyring_program.specs.Checks.{Checks, ReadsPassword};
ghost use Rattle.keyring_program.specs.Commands.{AsksForService, serve_line};
ghost use Rattle.keyring_program.specs.Doors.{HasServed, TakesBackOneAtMost};
ghost use Rattle.keyring_program.specs.FirstLine.{TakesPassword};
ghost use Rattle.keyring_program.specs.Folder.{IsOpened, HadFolder, HasOpened};
ghost use Rattle.keyring_program.specs.Loads.{LoadEnds};
ghost use Rattle.lone_desk.specs.service_tables.specs.Opened.{Contents};
ghost use Rattle.keyring_program.specs.Serves.{Serves};
ghost use Rattle.keyring_program.specs.ServesLinks.{IsUnserved, ServesDoor};
ghost use Rattle.keyring_program.specs.Status.{IsCheckStatus, IsLoadStatus, IsServeStatus, IsStdioStatus, IsUncheckedStatus};
ghost use Rattle.keyring_program.specs.WholeInput.{IsWholeInput};

use crate::check::run_check;
use crate::load::run_load;
use crate::serve::{HostSpawner, run_serve};
use crate::status::Status;
use crate::stdio::run_stdio;
use command_words::{CommandLine, read_words};
use kr_base::Text;
use kr_outside::{Folder, Host, Listener, Sink, Source};
use ring_check::Progress;
use std::alloc::AllocGlobal;
use std::sync::Wait;
use std::thread::Threads;

/// Runs the command of these arguments, which follow the program's name, over the input and the
/// output, on this host. The seed determines all that is random: the server's number and the salts.
///
/// `stdio DIR UID` opens a service over the folder DIR, which the service loads and keeps to the
/// end, and serves the client of the user UID: the handshake, and each call with its reply. The
/// clock is asked once for each call, and once for each key that is derived for an answer.
///
/// `serve DIR SOCKET --uid U [--connections N]` opens a service over DIR in the same way, and serves
/// the connections of the Unix socket SOCKET for the user U, each by a reader and a writer of its own,
/// until N were accepted or no further one will come, and all have ended. What the connections record
/// is one history. The input and the output are left alone. `--until-eof` makes no difference here: whoever
/// calls `run` for it ends the host's door when standard input ends (`ends_with_input`).
///
/// `check DIR [--password]` checks each keyring file of the folder DIR, and writes one line for each to the output. If
/// a password is asked for, it is the first line of the input, which is read before the folder is opened. Nothing in
/// the folder is changed. How far the check has come is told to `progress`.
///
/// `load N SEED` serves a client that makes N items in a folder in memory, searches for them and reads them, and
/// writes four lines to the output: what was counted over the replies. SEED determines the items. The input and
/// the host are left alone.
///
/// Ends with `Usage` exactly if the arguments are invalid; with `FolderFault` only if the host's
/// count of faults rose, or the folder that it opened may fail; and with `Memory` only if none is left.
/// `load` otherwise ends with `Done`, with `WriteFault` only if the output's count of faults rose, or as the connection
/// of its client ends. `serve` otherwise ends with `Done`, or with `ListenFault`, and with that only if that count rose, or
/// the socket that it opened may fail. `stdio` otherwise ends as `one_thread` of connection_worker says
/// (its `HasCause` has a row for each end); everything that was put out and could wait is written by then,
/// except that at `WriteFault` and `Memory` it may be only a prefix of it. `check` otherwise ends with `Done`, or with `Damaged` if a
/// file is damaged, with `ReadFault` or `WriteFault` only if that stream's count of faults rose, and with
/// `PasswordTooLong` only if the first 4,096 bytes of the input have no line feed.
pub fn run<
    R: AllocGlobal + Threads + Wait + Copy + Send + Sync + Drop + 'static,
    I: Source,
    O: Sink,
    H: Host,
    P: Progress,
>(
    rt: &R,
    words: &[Text],
    input: &mut I,
    output: &mut O,
    host: &mut H,
    spawner: &mut HostSpawner<R, H>,
    progress: &mut P,
    seed: [u8; 32],
) -> Status
where
    H::Dir: Send + 'static,
    H::Time: Send + 'static,
    <H::Dir as Folder>::Cell: Send + 'static,
    <H::Door as Listener>::In: Send + 'static,
    <H::Door as Listener>::Out: Send + 'static,
    // No job is left over from before.
    requires idle { spawner.old.started ≡ [] }

    // Both streams are open.
    requires input_open { IsFalse (I.is_closed input.old) }
    requires output_open { IsFalse (O.is_closed output.old) }

    // The arguments are looked at first: if they are invalid, everything is as before. The folder
    // comes next: until it is open nothing is read, except for the password of `check`, or written, and the clock
    // isn't taken.
    ensures usage { (result ≡ Status.Usage) ↔ IsNoCommandLine words.now }
    ensures untouched { result ≡ Status.Usage
        → (input.new ≡ input.old) × (output.new ≡ output.old) × (host.new ≡ host.old) }
    ensures unserved { result ≡ Status.FolderFault → AsksForService words.now
        → (input.new ≡ input.old) × (output.new ≡ output.old)
        × (H.coming host.new ≡ H.coming host.old) }

    // The host opens one folder at most, and exactly one if the command is one of a service and the run had it; it
    // takes back one door at most. No job is left.
    ensures one_folder { GivesOneAtMost (H.given host.old) (H.given host.new) }
    ensures had_folder { HadFolder result → AsksForService words.now
        → GivesOne (H.given host.old) (H.given host.new) }
    ensures one_door { TakesBackOneAtMost (H.shut_doors host.old) (H.shut_doors host.new) }
    ensures idle { spawner.new.started ≡ [] }

    // The folder and the socket are at fault only if the host's count rose, or if what the host opened may
    // fail. Otherwise the folder named by the arguments was loaded.
    ensures folder_fault { result ≡ Status.FolderFault
        → Rose (H.faults host.old) (H.faults host.new) ⊎ ¬ (IsTrue (H.is_steady host.old)) }
    ensures listen_fault { result ≡ Status.ListenFault
        → Rose (H.faults host.old) (H.faults host.new) ⊎ ¬ (IsTrue (H.is_steady host.old)) }
    ensures opened { (folder : List ℕ) (uid : ℕ) (images : List ℕ → Image)
        → IsCommandLine (CommandLine.Stdio folder uid) words.now → IsTrue (H.is_honest host.old)
        → H.told host.old folder ≡ Some images → HadFolder result → IsOpened images }
    ensures host_later { H.faults host.old ≤ H.faults host.new }
    ensures host_honest { H.is_honest host.new ≡ H.is_honest host.old }
    ensures host_steady { KeepsSteady (H.is_steady host.old) (H.is_steady host.new)
        (H.faults host.old) (H.faults host.new) }

    // `serve` leaves the standard streams alone, and ends in one of four ways: it is done only if the host took
    // back a door at SOCKET that had ended, or had given as many links as were to be accepted.
    ensures serve_status { (until_eof : Bool) (folder socket : List ℕ) (uid : ℕ)
        → (connections : Option ℕ)
        → IsCommandLine (serve_line until_eof folder socket uid connections) words.now
        → IsServeStatus result × (input.new ≡ input.old) × (output.new ≡ output.old) }
    ensures serve_done { (until_eof : Bool) (folder socket : List ℕ) (uid : ℕ)
        → (connections : Option ℕ)
        → IsCommandLine (serve_line until_eof folder socket uid connections) words.now
        → result ≡ Status.Done
        → HasServed socket connections (H.shut_doors host.old) (H.shut_doors host.new) }
    ensures serve_opened { (until_eof : Bool) (folder socket : List ℕ) (uid : ℕ)
        → (connections : Option ℕ) (images : List ℕ → Image)
        → IsCommandLine (serve_line until_eof folder socket uid connections) words.now
        → IsTrue (H.is_honest host.old) → H.told host.old folder ≡ Some images
        → HadFolder result → IsOpened images }
    ensures serve_complete { (until_eof : Bool) (folder socket : List ℕ) (uid : ℕ)
        → (connections : Option ℕ)
        → IsCommandLine (serve_line until_eof folder socket uid connections) words.now
        → IsTrue (H.is_steady host.old) → (result ≡ Status.Done) ⊎ (result ≡ Status.Memory) }

    // Unless `serve` ended before its door was open: what became of each link, what each connection read, recorded
    // and wrote, and the one history that all of them have, which is legal from what the folder had.
    ensures serve_recorded { (until_eof : Bool) (folder socket : List ℕ) (uid : ℕ)
        → (connections : Option ℕ)
        → IsCommandLine (serve_line until_eof folder socket uid connections) words.now
        → IsUnserved result (H.shut_doors host.old) (H.shut_doors host.new)
        spawner.old spawner.new ⊎ ((contents : Contents)
        × ((images : List ℕ → Image) → IsTrue (H.is_honest host.old)
        → H.told host.old folder ≡ Some images → HasOpened H.Dir.Cell images contents)
        × ServesDoor H.Door.In.left H.Door.In.faults H.Door.In.is_steady H.Door.In.is_closed
        H.Door.Out.written H.Door.Out.faults H.Door.Out.is_steady H.Door.Out.is_closed
        uid seed socket connections (H.is_steady host.old) contents
        (H.shut_doors host.old) (H.shut_doors host.new) spawner.old spawner.new result) }

    // `stdio` opens no door, and the host has no fault once the folder is open.
    ensures stdio_status { (folder : List ℕ) (uid : ℕ)
        → IsCommandLine (CommandLine.Stdio folder uid) words.now → IsStdioStatus result
        × (H.shut_doors host.new ≡ H.shut_doors host.old)
        × (HadFolder result → H.faults host.new ≡ H.faults host.old) }

    // What was read, recorded and written, and why the run ended as it did; the service starts with what the
    // folder has. Over a steady host no device failed in what was recorded.
    ensures served { (folder : List ℕ) (uid : ℕ)
        → IsCommandLine (CommandLine.Stdio folder uid) words.now
        → (result ≡ Status.FolderFault) ⊎ ((contents : Contents)
        × (HadFolder result → (images : List ℕ → Image) → IsTrue (H.is_honest host.old)
        → H.told host.old folder ≡ Some images → HasOpened H.Dir.Cell images contents)
        × Serves uid seed (H.coming host.old)
        (input_of I.left I.faults I.is_steady I.is_closed input.old)
        (input_of I.left I.faults I.is_steady I.is_closed input.new)
        (output_of O.written O.faults O.is_steady O.is_closed output.old)
        (output_of O.written O.faults O.is_steady O.is_closed output.new)
        (H.is_steady host.old) contents result) }

    // Over a host that never fails and streams that didn't, an open handshake and a stream of messages
    // after it are answered to their end, or to a call whose outputs can't wait together.
    ensures complete { (folder : List ℕ) (uid : ℕ) (bytes : List ℕ)
        → IsCommandLine (CommandLine.Stdio folder uid) words.now
        → IsWholeInput uid seed bytes → I.left input.old ≡ Some bytes
        → IsTrue (H.is_steady host.old)
        → StandsStill (I.faults input.old) (I.faults input.new)
        → StandsStill (O.faults output.old) (O.faults output.new)
        → (result ≡ Status.Done) ⊎ ((result ≡ Status.Memory) ⊎ (result ≡ Status.Overrun)) }

    // `check` reads a password at most, before it opens the folder, and writes the report of the folder's files, or a
    // prefix of it. It only looks at the folder: what is left of it, and each slot that was made of it, is untouched.
    // If no folder was opened, nothing was written. It opens no door, and asks for no moment.
    ensures check_status { (folder : List ℕ) (is_asked : Bool)
        → IsCommandLine (CommandLine.Check folder is_asked) words.now → IsCheckStatus result
        × (H.coming host.new ≡ H.coming host.old)
        × (H.shut_doors host.new ≡ H.shut_doors host.old)
        × ((result ≡ Status.ReadFault) ⊎ (result ≡ Status.PasswordTooLong)
        → (output.new ≡ output.old) × (host.new ≡ host.old)) }
    ensures check_reads { (folder : List ℕ) (is_asked : Bool)
        → IsCommandLine (CommandLine.Check folder is_asked) words.now
        → ReadsPassword I.left I.faults I.is_steady I.is_closed is_asked
        input.old input.new result }
    ensures check_writes { (folder : List ℕ) (is_asked : Bool)
        → IsCommandLine (CommandLine.Check folder is_asked) words.now
        → KeepsOutput O.faults O.is_steady O.is_closed (result ≡ Status.WriteFault)
        output.old output.new }
    ensures checked { (folder : List ℕ) (is_asked : Bool)
        → IsCommandLine (CommandLine.Check folder is_asked) words.now
        → (IsUncheckedStatus result × (output.new ≡ output.old)
        × (H.given host.new ≡ H.given host.old)) ⊎ ((after : H.Dir)
        × (looked : List (Looked H.Dir.Cell)) × (password : Option (List ℕ))
        × GivesOne (H.given host.old) (H.given host.new)
        × (H.faults host.new ≡ H.faults host.old)
        × TakesPassword I.left is_asked input.old input.new password
        × Checks H.Dir.images H.Dir.may_leave H.Dir.made H.Dir.is_honest H.Dir.is_steady
        H.Dir.faults H.Dir.Cell.faults (IsUntouched H.Dir.Cell.seen H.Dir.Cell.temporary
        H.Dir.Cell.may_leave H.Dir.Cell.is_honest H.Dir.Cell.is_steady)
        (H.told host.old folder) (H.is_honest host.old) (H.is_steady host.old) password
        (O.written output.old) (O.written output.new) result after looked) }

    // `load` leaves the input and the host alone. If it is done, it has written what was counted over the replies.
    ensures loaded { (items number : ℕ) → IsCommandLine (CommandLine.Load items number) words.now
        → IsLoadStatus result × (input.new ≡ input.old) × (host.new ≡ host.old)
        × LoadEnds items number seed
        (output_of O.written O.faults O.is_steady O.is_closed output.old)
        (output_of O.written O.faults O.is_steady O.is_closed output.new) result }
{
    let line = match read_words(words) {
        Ok(Some(line)) => line,
        Ok(None) => return Status::Usage,
        Err(_) => return Status::Memory,
    };
    match line {
        CommandLine::Stdio { folder, uid } => {
            run_stdio(rt, folder.as_str(), uid, input, output, host, seed)
        }
        CommandLine::Serve {
            folder,
            socket,
            uid,
            connections,
        } => run_serve(
            rt,
            folder.as_str(),
            socket.as_str(),
            uid,
            connections,
            host,
            spawner,
            seed,
        ),
        CommandLine::ServeUntilEof {
            folder,
            socket,
            uid,
            connections,
        } => run_serve(
            rt,
            folder.as_str(),
            socket.as_str(),
            uid,
            connections,
            host,
            spawner,
            seed,
        ),
        CommandLine::Check { folder, password } => {
            let path = folder.as_str();
            run_check(rt, path, password, input, output, host, progress).status
        }
        CommandLine::Load {
            items,
            seed: number,
        } => run_load(rt, items, number, output, seed),
    }
}
