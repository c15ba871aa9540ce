//! keyringd, the program: it keeps passwords and other secrets for mail clients, browsers and scripts,
//! and serves them by the Secret Service API (draft 0.2) over D-Bus messages: to the clients that connect
//! to a Unix socket, each by threads of its own, or to one client on its standard streams. It also says of
//! each keyring file of a folder whether it is sound.
//!
//! All that it does is `run` of keyring_program, a function of its arguments, its streams, its host, its
//! spawner of threads and a seed. Here are only the real streams, the real host and the real spawner, the
//! seed, which is 32 random bytes of the system, the lines that show how far a check has come, the thread that
//! rings the host's bell when standard input ends, if that was asked for, and the exit code of the process: the
//! number of the run's status.
#![tactic(auto)]

mod progress;

ghost use Rattle.std.specs.Prelude.{◌≡◌, ◌⊎◌, ◌↔◌, ℕ, Bool, IsTrue, IsFalse, List, Option, IfErr};
ghost use Rattle.std.specs.Process.{exit_status};
ghost use Rattle.command_words.specs.CommandLines.{IsCommandLine, IsNoCommandLine};
ghost use Rattle.command_words.specs.declared.command_line.CommandLine.TheVariants.{Stdio};
ghost use Rattle.kr_outside.specs.Faults.{Rose};
ghost use Rattle.kr_outside.specs.Host.{GivesOne, GivesOneAtMost};
ghost use Rattle.keyring_program.specs.Commands.{AsksForService, serve_line};
ghost use Rattle.keyring_program.specs.Doors.{HasServed, TakesBackOneAtMost};
ghost use Rattle.keyring_program.specs.Folder.{HadFolder};
ghost use Rattle.keyring_program.specs.Status.{IsServeStatus, IsStdioStatus, number_of};

use crate::progress::ProgressLines;
use keyring_program::daemon::Spawner;
use keyring_program::{Progress, Status, await_end, ends_with_input, run, words_of};
use kr_base::Text;
use kr_outside::{Folder, Host, Listener, Sink, Source};
use real_edges::{DoorBell, ReaderSource, RealHost, WriterSink};
use std::alloc::AllocGlobal;
use std::process::ExitCode;
use std::random::RandomSource;
use std::sync::Wait;
use std::thread::{self, Threads};

/// The exit code of a process that ended with this status. Prints the text of any status except
/// `Done` on standard error.
fn ended(rt: &HostRuntime, status: Status) -> ExitCode
    ensures number { exit_status result ≡ number_of status }
{
    if status != Status::Done {
        // If standard error fails too, there is nobody left to report that to.
        let _ = eprintln!(rt; "keyringd: {status}");
    }
    ExitCode::from(status.number())
}

/// The exit code of a process that got no random bytes from the system. Prints that on standard error.
fn without_seed(rt: &HostRuntime) -> ExitCode
    ensures number { exit_status result ≡ 1 }
{
    // If standard error fails too, there is nobody left to report that to.
    let _ = eprintln!(rt; "keyringd: no random bytes");
    ExitCode::from(1)
}

/// Starts a thread that reads the input until it has ended or failed, and then rings the bell.
///
/// Refused with `Memory` if the system makes no further thread.
fn ring_at_end<R: Threads + Wait + Copy + Send + Drop + 'static, I: Source + Send + Drop + 'static>(
    rt: &R,
    input: I,
    bell: DoorBell,
) -> Result<(), Status>
    requires input_open { IsFalse (I.is_closed input) }
    ensures refused { IfErr result (λ status. status ≡ Status.Memory) }
{
    let own = *rt;
    let mut input = input;
    let watch = move || {
        await_end(&own, &mut input);
        bell.ring();
    };
    match thread::spawn(rt, watch) {
        Ok(_running) => Ok(()),
        Err(_) => Err(Status::Memory),
    }
}

/// Has the host's door end when the input ends, if the arguments ask for that (`--until-eof`).
///
/// Refused with `Memory` if no memory was left, or if the system makes no further thread.
fn end_with_input<
    R: Threads + Wait + Copy + Send + Drop + 'static,
    I: Source + Send + Drop + 'static,
>(rt: &R, host: &mut RealHost<HostRuntime>, input: I, words: &[Text]) -> Result<(), Status>
    requires input_open { IsFalse (I.is_closed input) }
    ensures refused { IfErr result (λ status. status ≡ Status.Memory) }
{
    match ends_with_input(words) {
        Ok(false) => Ok(()),
        Ok(true) => match host.bell() {
            Ok(bell) => ring_at_end(rt, input, bell),
            Err(_) => Err(Status::Memory),
        },
        Err(_) => Err(Status::Memory),
    }
}

/// Runs the command of these arguments, with a thread for each connection. It is generic in the host, since the
/// prover takes minutes for a spawner of the real host's types. It promises what `run` promises of the status, the
/// streams and the host for these arguments, but says nothing of what was recorded.
fn run_in_threads<
    R: AllocGlobal + Threads + Wait + Copy + Send + Sync + Drop + 'static,
    I: Source,
    O: Sink,
    H: Host,
    P: Progress,
>(
    rt: &R,
    words: &[Text],
    input: &mut I,
    output: &mut O,
    host: &mut H,
    progress: &mut P,
    seed: [u8; 32],
) -> Status
where
    H::Dir: Send + 'static,
    H::Time: Send + 'static,
    <H::Dir as Folder>::Cell: Send + 'static,
    <H::Door as Listener>::In: Send + 'static,
    <H::Door as Listener>::Out: Send + 'static,
    requires input_open { IsFalse (I.is_closed input.old) }
    requires output_open { IsFalse (O.is_closed output.old) }
    // The arguments are looked at first.
    ensures usage { (result ≡ Status.Usage) ↔ IsNoCommandLine words.now }
    ensures untouched { result ≡ Status.Usage
        → (input.new ≡ input.old) × (output.new ≡ output.old) × (host.new ≡ host.old) }

    // What the host gave and took back, and whose fault it is.
    ensures one_folder { GivesOneAtMost (H.given host.old) (H.given host.new) }
    ensures had_folder { HadFolder result → AsksForService words.now
        → GivesOne (H.given host.old) (H.given host.new) }
    ensures one_door { TakesBackOneAtMost (H.shut_doors host.old) (H.shut_doors host.new) }
    ensures folder_fault { result ≡ Status.FolderFault
        → Rose (H.faults host.old) (H.faults host.new) ⊎ ¬ (IsTrue (H.is_steady host.old)) }
    ensures listen_fault { result ≡ Status.ListenFault
        → Rose (H.faults host.old) (H.faults host.new) ⊎ ¬ (IsTrue (H.is_steady host.old)) }

    // How each command ends.
    ensures serve_status { (until_eof : Bool) (folder socket : List ℕ) (uid : ℕ)
        → (connections : Option ℕ)
        → IsCommandLine (serve_line until_eof folder socket uid connections) words.now
        → IsServeStatus result × (input.new ≡ input.old) × (output.new ≡ output.old) }
    ensures serve_done { (until_eof : Bool) (folder socket : List ℕ) (uid : ℕ)
        → (connections : Option ℕ)
        → IsCommandLine (serve_line until_eof folder socket uid connections) words.now
        → result ≡ Status.Done
        → HasServed socket connections (H.shut_doors host.old) (H.shut_doors host.new) }
    ensures serve_complete { (until_eof : Bool) (folder socket : List ℕ) (uid : ℕ)
        → (connections : Option ℕ)
        → IsCommandLine (serve_line until_eof folder socket uid connections) words.now
        → IsTrue (H.is_steady host.old) → (result ≡ Status.Done) ⊎ (result ≡ Status.Memory) }
    ensures stdio_status { (folder : List ℕ) (uid : ℕ)
        → IsCommandLine (Stdio folder uid) words.now → IsStdioStatus result
        × (H.shut_doors host.new ≡ H.shut_doors host.old)
        × (HadFolder result → H.faults host.new ≡ H.faults host.old) }
{
    let mut spawner = Spawner::in_threads(rt.alloc());
    run(rt, words, input, output, host, &mut spawner, progress, seed)
}

/// Whether the arguments begin with `check`, for which nothing may be changed in a folder.
fn begins_with_check(words: &[Text]) -> bool {
    match words.first() {
        Some(word) => word.as_str() == "check",
        None => false,
    }
}

/// The exit status is 1 if the system gives no random bytes (`without_seed`), and otherwise the number of the
/// run's status (`ended`).
fn main(rt: HostRuntime) -> ExitCode {
    let mut seed = [0; 32];
    if rt.fill_bytes(&mut seed).is_err() {
        return without_seed(&rt);
    }
    let words = match words_of(&rt) {
        Ok(words) => words,
        Err(status) => return ended(&rt, status),
    };
    let mut input = ReaderSource::new(rt.stdin());
    let mut output = WriterSink::new(rt.stdout());
    let mut host = if begins_with_check(words.as_slice()) {
        RealHost::looking(rt)
    } else {
        RealHost::new(rt)
    };
    if let Err(status) = end_with_input(
        &rt,
        &mut host,
        ReaderSource::new(rt.stdin()),
        words.as_slice(),
    ) {
        return ended(&rt, status);
    }
    let mut progress = ProgressLines::new(rt);
    let status = run_in_threads(
        &rt,
        words.as_slice(),
        &mut input,
        &mut output,
        &mut host,
        &mut progress,
        seed,
    );
    ended(&rt, status)
}
