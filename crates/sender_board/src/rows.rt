// The rows of the board, found by the first that fits.
ghost use Rattle.std.specs.Prelude.{◌≡◌, ◌≤◌, ◌<◌, ◌^◌, ◌+◌, IfNone, OnOk, OnErr};
ghost use Rattle.std.specs.List.{position, find};
ghost use Rattle.std.specs.Option.{option_copied, is_some};
ghost use Rattle.sender_board.specs.Rows.{is_of, asks, is_joined_as, is_at, without, with_call, size_in};

use crate::message::Call;
use kr_base::{ConnId, OutOfMemory, Text};
use kr_items::Items;

/// A sender whose user is being looked up.
#[derive(Drop)]
pub struct Waiting<T> {
    /// Its unique name.
    pub sender: Text,
    /// The serial of the question about its user.
    pub question: u32,
    /// Its calls, in order.
    pub calls: Items<Call<T>>,
}

/// A sender that has a connection of the service.
#[derive(Drop)]
pub struct Joined {
    /// Its unique name.
    pub sender: Text,
    /// The connection.
    pub conn: ConnId,
}

/// The place of the sender's row.
fn place_of<T>(rows: &[Waiting<T>], sender: &Text) -> Option<usize>
    ensures { result ≡ position (is_of sender.now) rows.now }
{
    rows.iter().position(|row| row.sender == *sender)
}

/// The place of the row with this question.
fn question_place<T>(rows: &[Waiting<T>], question: u32) -> Option<usize>
    ensures { result ≡ position (asks question) rows.now }
{
    rows.iter().position(|row| row.question == question)
}

/// The place of the row of a sender that has a connection.
fn joined_place(rows: &[Joined], sender: &Text) -> Option<usize>
    ensures { result ≡ position (is_joined_as sender.now) rows.now }
{
    rows.iter().position(|row| row.sender == *sender)
}

/// The place of the row of a connection.
fn conn_place(rows: &[Joined], conn: ConnId) -> Option<usize>
    ensures { result ≡ position (is_at conn) rows.now }
{
    rows.iter().position(|row| row.conn.0 == conn.0)
}

/// Removes the sender's row, and returns it.
#[tactic(auto, using(crate::proofs::RowLemmas::taken_found, crate::proofs::RowLemmas::taken_left, crate::proofs::RowLemmas::none_found, crate::proofs::RowLemmas::none_left, crate::proofs::RowLemmas::within))]
pub fn take_sender<T>(rows: &mut Vec<Waiting<T>>, sender: &Text) -> Option<Waiting<T>>
    ensures found { result ≡ find (is_of sender.now) rows.old.items }
    ensures left { rows.new.items ≡ without (is_of sender.now) rows.old.items }
    ensures none { IfNone result (rows.new.items ≡ rows.old.items) }
{
    match place_of(rows.as_slice(), sender) {
        Some(place) => Some(rows.remove(place)),
        None => None,
    }
}

/// Removes the row with this question, and returns it.
#[tactic(auto, using(crate::proofs::RowLemmas::taken_found, crate::proofs::RowLemmas::taken_left, crate::proofs::RowLemmas::none_found, crate::proofs::RowLemmas::none_left, crate::proofs::RowLemmas::within))]
pub fn take_question<T>(rows: &mut Vec<Waiting<T>>, question: u32) -> Option<Waiting<T>>
    ensures found { result ≡ find (asks question) rows.old.items }
    ensures left { rows.new.items ≡ without (asks question) rows.old.items }
    ensures none { IfNone result (rows.new.items ≡ rows.old.items) }
{
    match question_place(rows.as_slice(), question) {
        Some(place) => Some(rows.remove(place)),
        None => None,
    }
}

/// Removes the row of a sender that has a connection, and returns it.
#[tactic(auto, using(crate::proofs::RowLemmas::taken_found, crate::proofs::RowLemmas::taken_left, crate::proofs::RowLemmas::none_found, crate::proofs::RowLemmas::none_left, crate::proofs::RowLemmas::within))]
pub fn take_joined(rows: &mut Vec<Joined>, sender: &Text) -> Option<Joined>
    ensures found { result ≡ find (is_joined_as sender.now) rows.old.items }
    ensures left { rows.new.items ≡ without (is_joined_as sender.now) rows.old.items }
    ensures none { IfNone result (rows.new.items ≡ rows.old.items) }
{
    match joined_place(rows.as_slice(), sender) {
        Some(place) => Some(rows.remove(place)),
        None => None,
    }
}

/// Removes the row of a connection, and returns it.
#[tactic(auto, using(crate::proofs::RowLemmas::taken_found, crate::proofs::RowLemmas::taken_left, crate::proofs::RowLemmas::none_found, crate::proofs::RowLemmas::none_left, crate::proofs::RowLemmas::within))]
pub fn take_conn(rows: &mut Vec<Joined>, conn: ConnId) -> Option<Joined>
    ensures found { result ≡ find (is_at conn) rows.old.items }
    ensures left { rows.new.items ≡ without (is_at conn) rows.old.items }
    ensures none { IfNone result (rows.new.items ≡ rows.old.items) }
{
    match conn_place(rows.as_slice(), conn) {
        Some(place) => Some(rows.remove(place)),
        None => None,
    }
}

/// The row of a sender that has a connection.
#[tactic(auto, using(crate::proofs::RowLemmas::taken_found, crate::proofs::RowLemmas::none_found, crate::proofs::RowLemmas::within))]
pub fn joined_at<'a>(rows: &'a [Joined], sender: &Text) -> Option<&'a Joined>
    ensures { option_copied result ≡ find (is_joined_as sender.now) rows.now }
{
    match joined_place(rows, sender) {
        Some(place) => Some(&rows[place]),
        None => None,
    }
}

/// The row of a connection.
#[tactic(auto, using(crate::proofs::RowLemmas::taken_found, crate::proofs::RowLemmas::none_found, crate::proofs::RowLemmas::within))]
pub fn conn_at(rows: &[Joined], conn: ConnId) -> Option<&Joined>
    ensures { option_copied result ≡ find (is_at conn) rows.now }
{
    match conn_place(rows, conn) {
        Some(place) => Some(&rows[place]),
        None => None,
    }
}

/// Whether the sender has a row.
#[tactic(auto, using(crate::proofs::RowLemmas::has_some, crate::proofs::RowLemmas::has_none))]
pub fn has_sender<T>(rows: &[Waiting<T>], sender: &Text) -> bool
    ensures { result ≡ is_some (find (is_of sender.now) rows.now) }
{
    match place_of(rows, sender) {
        Some(_) => true,
        None => false,
    }
}

/// Appends a call to the sender's row. If no memory is left, the rows are as before.
#[tactic(auto, using(crate::proofs::RowLemmas::add_at, crate::proofs::RowLemmas::none_with, crate::proofs::RowLemmas::within))]
pub fn add_call<T: Drop>(
    rows: &mut Vec<Waiting<T>>,
    sender: &Text,
    call: Call<T>,
) -> Result<(), OutOfMemory>
    ensures added { OnOk result (rows.new.items
        ≡ with_call (is_of sender.now) call rows.old.items) }
    ensures unchanged { OnErr result (rows.new.items ≡ rows.old.items) }
{
    if let Some(place) = place_of(rows.as_slice(), sender) {
        rows[place].calls.push(call)?;
    }
    Ok(())
}

/// The number of bytes of all the calls, or the greatest number if it isn't below that.
#[tactic(auto, using(crate::proofs::RowLemmas::size_push))]
pub fn size_of<T>(calls: &[Call<T>]) -> u64
    ensures exact { result + 1 < 2 ^ 64 → result ≡ size_in calls.now }
    ensures least { result ≤ size_in calls.now }
{
    let mut size: u64 = 0;
    for call in calls {
        size = size.saturating_add(u64::from(call.size));
    }
    size
}
