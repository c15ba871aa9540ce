// Streams of messages in pieces.

use crate::bytes::{hex_bytes, number};
use crate::messages::feed;
use check_rows::Line;
use dbus_framing::Framer;

const MOST_BYTES: u32 = 1_048_576;

// Feeds a framer with bytes in pieces of this size.
fn feed_pieces(bytes: &[u8], size: usize, line: &mut Line) {
    let mut framer = Framer::new(line.alloc(), MOST_BYTES);
    for piece in bytes.chunks(size.max(1)) {
        feed(&mut framer, piece, line);
    }
    line.add(" rest ");
    line.number(framer.rest() as u64);
}

/// Feeds a framer with a message alone, and appends it to the stream.
pub fn add_message(stream: &mut Vec<u8>, cells: &str, line: &mut Line) {
    let Some(bytes) = hex_bytes(line.alloc(), cells) else {
        return line.add("no bytes");
    };
    if stream.extend_from_slice(bytes.as_slice()).is_err() {
        line.lack();
    }
    feed_pieces(bytes.as_slice(), bytes.len(), line);
}

/// Feeds a framer with the stream in pieces of this size.
pub fn write_pieces(stream: &[u8], cells: &str, line: &mut Line) {
    feed_pieces(stream, number(cells) as usize, line);
}

fn feed_two(front: &[u8], back: &[u8], line: &mut Line) {
    let mut framer = Framer::new(line.alloc(), MOST_BYTES);
    feed(&mut framer, front, line);
    feed(&mut framer, back, line);
    line.add(" rest ");
    line.number(framer.rest() as u64);
}

/// Feeds framers with the stream in two pieces, cut at each position in turn. Writes what one returns, if that is the same for all.
pub fn write_cuts(stream: &[u8], line: &mut Line) {
    feed_two(stream, b"", line);
    let mut other = Line::new(line.alloc());
    for cut in 0..stream.len() {
        let (front, back) = stream.split_at(cut);
        other.clear();
        feed_two(front, back, &mut other);
        if other.as_str() != line.as_str() {
            line.add(" but not when cut at ");
            return line.number(cut as u64);
        }
    }
}

// Whether nothing is returned for a beginning of a message in pieces of this size, and all its bytes are left.
fn is_left(front: &[u8], size: usize, other: &mut Line) -> bool {
    other.clear();
    let mut framer = Framer::new(other.alloc(), MOST_BYTES);
    for piece in front.chunks(size.max(1)) {
        feed(&mut framer, piece, other);
    }
    other.as_str().is_empty() && framer.rest() == front.len()
}

/// Counts the beginnings of a message, by bytes and as a whole, for which a framer returns nothing and keeps all bytes.
pub fn write_fronts(cells: &str, line: &mut Line) {
    let Some(bytes) = hex_bytes(line.alloc(), cells) else {
        return line.add("no bytes");
    };
    let mut other = Line::new(line.alloc());
    let mut count = 0u64;
    for length in 1..bytes.len() {
        let (front, _) = bytes.as_slice().split_at(length);
        if is_left(front, 1, &mut other) && is_left(front, 4096, &mut other) {
            count = count.saturating_add(1);
        }
    }
    line.number(count);
}
