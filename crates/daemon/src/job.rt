ghost use Rattle.std.specs.Prelude.{◌≡◌, IsTrue, IsFalse};
ghost use Rattle.connection_worker.specs.Handshakes.{most_bytes};
ghost use Rattle.connection_worker.specs.service_desk.specs.Calls.{Goes};
ghost use Rattle.connection_worker.specs.service_desk.specs.Places.{place};
ghost use Rattle.daemon.specs.Jobs.{Reads, Writes, Serves, IsClosing};

use crate::hub::Hub;
use connection_worker::service_desk::{ReadDesk, WriteDesk};
use connection_worker::{End, Salts, handshake, read_side, write_side};
use dbus_auth::Auth;
use dbus_framing::Framer;
use kr_base::ConnId;
use kr_outside::{Clock, Listener, Sink, Source};
use std::alloc::AllocGlobal;
use std::marker::Model;
use std::sync::Wait;
use std::thread;
use std::thread::Threads;

/// All that is needed to serve one link. Contracts see its parts, except for the runtime. Its handshake
/// hasn't begun, both its ends are open, and its writer's desk waits while there is nothing to take.
#[derive(Drop)]
pub struct LinkJob<
    R: Drop,
    A: ReadDesk + Drop,
    B: WriteDesk + Drop,
    C: Clock,
    I: Source + Drop,
    O: Sink + Drop,
> {
    /// The runtime.
    pub rt: R,
    /// The connection.
    pub conn: ConnId,
    /// The handshake that is to come.
    pub auth: Auth,
    /// The salts of the connection's requests.
    pub salts: Salts,
    /// The clock.
    pub clock: C,
    /// The reader's desk.
    pub reader: A,
    /// The writer's desk.
    pub writer: B,
    /// What the other side sends.
    pub input: I,
    /// What the other side receives.
    pub output: O,
}

impl<
    R: Drop,
    A: ReadDesk + Drop,
    B: WriteDesk + Drop,
    C: Clock,
    I: Source + Drop,
    O: Sink + Drop,
> Model for LinkJob<R, A, B, C, I, O> {
    ghost use Rattle.std.specs.Prelude.{◌≡◌, IsTrue, IsFalse};
    ghost use Rattle.dbus_auth.specs.declared.auth.State.TheVariants.{WaitingForAuth};
    ghost use Rattle.daemon.specs.Jobs.{Job};

    ghost Value = { Job A B C I O };

    ghost view = { λ job. record {
      conn = job.conn;
      auth = job.auth;
      salting = job.salts;
      clock = job.clock;
      reader = job.reader;
      writer = job.writer;
      input = job.input;
      output = job.output;
    } };

    ghost invariant = { λ job. (job.auth.state ≡ WaitingForAuth)
        × IsFalse (I.is_closed job.input) × IsFalse (O.is_closed job.output)
        × IsTrue (B.told job.writer).is_waiting };
}

/// A job over the desks of a hub and the links of a listener.
pub type Serving<R, U: Hub, L: Listener> = LinkJob<R, U::Reader, U::Writer, U::Time, L::In, L::Out>;

/// What serving a link resulted in: both desks, why each side ended, and both ends, closed.
#[derive(Drop)]
pub struct Served<A, B, I, O> {
    /// The connection.
    pub conn: ConnId,
    /// The reader's desk.
    pub reader: A,
    /// The writer's desk.
    pub writer: B,
    /// Why the reader ended.
    pub read_end: End,
    /// Why the writer ended.
    pub write_end: End,
    /// What the other side sent.
    pub input: I,
    /// What the other side received.
    pub output: O,
}

/// Records that the connection of a writer's desk is gone, and returns the desk.
pub fn let_go<B: WriteDesk>(writer: B) -> B
    ensures { Goes (place B.told B.has_seen writer) (place B.told B.has_seen result) }
{
    let mut writer = writer;
    writer.gone();
    writer
}

// Reads to the end, and returns the input, the desk and the end.
fn read<R: AllocGlobal + Wait, A: ReadDesk, C: Clock, I: Source>(
    rt: &R,
    framer: Framer,
    input: I,
    reader: A,
    clock: C,
    salts: Salts,
) -> (I, A, End)
    requires most { framer.most ≡ most_bytes }
    requires input_open { IsFalse (I.is_closed input) }
    ensures { Reads A.told A.has_seen C.coming I.left I.faults I.is_steady I.is_closed
        framer salts clock reader input result.1 result.0 result.2 }
{
    let mut input = input;
    let mut reader = reader;
    let mut clock = clock;
    let mut salts = salts;
    let end = read_side(rt, framer, &mut input, &mut reader, &mut clock, &mut salts);
    (input, reader, end)
}

// Writes to the end, closes the output, so that the other side sees its end, and returns it, the desk and the end.
fn write<R: AllocGlobal + Wait, B: WriteDesk, O: Sink>(rt: &R, output: O, writer: B) -> (O, B, End)
    requires waiting { IsTrue (B.told writer).is_waiting }
    requires output_open { IsFalse (O.is_closed output) }
    ensures { Writes B.told B.has_seen O.written O.faults O.is_steady O.is_closed
        writer output result.1 result.0 result.2 }
{
    let mut sink = output;
    let mut writer = writer;
    let end = write_side(rt, &mut sink, &mut writer);
    sink.close();
    (sink, writer, end)
}

// Both sides at once, each in a thread of its own; if no thread can be made, the writer starts when the
// reader has ended. The input is still open, and the output was closed when the writer ended.
fn serve_both<
    R: AllocGlobal + Threads + Wait + Sync,
    A: ReadDesk + Drop + Send,
    B: WriteDesk + Drop + Send,
    C: Clock + Send,
    I: Source + Drop + Send,
    O: Sink + Drop + Send,
>(
    rt: &R,
    conn: ConnId,
    framer: Framer,
    salts: Salts,
    clock: C,
    reader: A,
    writer: B,
    input: I,
    output: O,
) -> Served<A, B, I, O>
    requires most { framer.most ≡ most_bytes }
    requires waiting { IsTrue (B.told writer).is_waiting }
    requires input_open { IsFalse (I.is_closed input) }
    requires output_open { IsFalse (O.is_closed output) }
    ensures conn { result.conn ≡ conn }
    ensures reads { Reads A.told A.has_seen C.coming I.left I.faults I.is_steady I.is_closed
        framer salts clock reader input result.reader result.input result.read_end }
    ensures writes { Writes B.told B.has_seen O.written O.faults O.is_steady O.is_closed
        writer output result.writer result.output result.write_end }
{
    let ((output, writer, writes), (input, reader, reads)) = thread::join(
        rt,
        || -> (O, B, End)
            requires waiting { IsTrue (B.told writer).is_waiting }
            requires output_open { IsFalse (O.is_closed output) }
            ensures { Writes B.told B.has_seen O.written O.faults O.is_steady O.is_closed
                writer output result.1 result.0 result.2 }
        {
            let output = output;
            let writer = writer;
            write(rt, output, writer)
        },
        || -> (I, A, End)
            requires most { framer.most ≡ most_bytes }
            requires input_open { IsFalse (I.is_closed input) }
            ensures { Reads A.told A.has_seen C.coming I.left I.faults I.is_steady I.is_closed
                framer salts clock reader input result.1 result.0 result.2 }
        {
            let framer = framer;
            let input = input;
            let reader = reader;
            let clock = clock;
            let salts = salts;
            read(rt, framer, input, reader, clock, salts)
        },
    );
    Served {
        conn,
        reader,
        writer,
        read_end: reads,
        write_end: writes,
        input,
        output,
    }
}

// Closes both ends of a link.
fn close<A, B, I: Source, O: Sink>(served: Served<A, B, I, O>) -> Served<A, B, I, O>
    ensures { IsClosing I.left I.faults I.is_steady I.is_closed
        O.written O.faults O.is_steady O.is_closed served result }
{
    let Served {
        conn,
        reader,
        writer,
        read_end,
        write_end,
        input,
        output,
    } = served;
    let mut input = input;
    let mut output = output;
    input.close();
    output.close();
    Served {
        conn,
        reader,
        writer,
        read_end,
        write_end,
        input,
        output,
    }
}

/// Serves a link: the handshake, and then its reader and its writer at once. If the handshake is
/// refused, both ends are that refusal, and the connection is gone. The output is closed when the writer
/// ends, and the input last.
pub fn serve_link<
    R: AllocGlobal + Threads + Wait + Sync + Drop,
    A: ReadDesk + Drop + Send,
    B: WriteDesk + Drop + Send,
    C: Clock + Send,
    I: Source + Drop + Send,
    O: Sink + Drop + Send,
>(job: LinkJob<R, A, B, C, I, O>) -> Served<A, B, I, O>
    ensures { Serves A.told A.has_seen B.told B.has_seen C.coming
        I.left I.faults I.is_steady I.is_closed O.written O.faults O.is_steady O.is_closed
        job result }
{
    let LinkJob {
        rt,
        conn,
        auth,
        salts,
        clock,
        reader,
        writer,
        input,
        output,
    } = job;
    let mut input = input;
    let mut output = output;
    match handshake(&rt, auth, &mut input, &mut output) {
        Ok(framer) => close(serve_both(
            &rt, conn, framer, salts, clock, reader, writer, input, output,
        )),
        Err(end) => close(Served {
            conn,
            reader,
            writer: let_go(writer),
            read_end: end,
            write_end: end,
            input,
            output,
        }),
    }
}
