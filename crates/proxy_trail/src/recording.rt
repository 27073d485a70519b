//! How what a proxy noted comes into its records.

ghost use Rattle.std.specs.Prelude.{◌≡◌, ◌<◌, ◌≤◌, length, true, false, Ok};
ghost use Rattle.std.specs.List.{AllByRecursion};
ghost use Rattle.side_model.specs.Books.{ITEM_WEIGHT, closed, given_item};
ghost use Rattle.side_model.specs.Calls.{MOST_CONNECTIONS};
ghost use Rattle.trail_records.specs.declared.unrecorded.Unrecorded.{Unrecorded};
ghost use Rattle.trail_records.specs.Noting.{IsNote, Adds, with_line, with_piece, with_sent};
ghost use Rattle.proxy_trail.specs.Recording.{Notes, Records, reason_of, ended_by, fault_in, Settles, counting};

use half_model::{Limit, PeerOut};
use proxy_core::Proxy;
use side_model::ProxyFault;
use trail_records::{Book, Unrecorded};

// The greatest number of a connection.
const LAST_CONNECTION: u32 = 4096;

/// The fault of a proxy that can't record something.
pub(crate) fn reason_of(why: Unrecorded) -> ProxyFault
    ensures { result ≡ reason_of why }
{
    match why {
        Unrecorded::TooHeavy => ProxyFault::Limit {
            which: Limit::Trail,
        },
        Unrecorded::Memory => ProxyFault::Memory,
    }
}

/// The fault that an answer tells, if it tells one.
pub(crate) fn fault_in(answer: Result<(), ProxyFault>) -> Option<ProxyFault>
    ensures { result ≡ fault_in answer }
{
    match answer {
        Ok(()) => None,
        Err(fault) => Some(fault),
    }
}

/// Ends a call that a proxy answered: records what it noted, and how many frames were accepted and are
/// acknowledged.
///
/// # Errors
/// The limit of the records at a note that is too heavy, those before it being recorded; want of
/// memory, none being recorded then; or what the proxy answered.
pub(crate) fn settle(
    proxy: &mut Proxy,
    book: &mut Book,
    answer: Result<(), ProxyFault>,
) -> Result<(), ProxyFault>
    requires closed { book.old.trail.lines.room ≡ 0 }
    requires notes { AllByRecursion IsNote proxy.old.kept.notes }
    ensures { Settles answer result proxy.old proxy.new book.old book.new }
{
    match record_all(proxy, book) {
        Ok(()) => answer,
        Err(why) => Err(reason_of(why)),
    }
}

// Records all that a proxy noted, and its counts.
fn record_all(proxy: &mut Proxy, book: &mut Book) -> Result<(), Unrecorded>
    requires closed { book.old.trail.lines.room ≡ 0 }
    requires notes { AllByRecursion IsNote proxy.old.kept.notes }
    ensures { Records result proxy.old proxy.new book.old book.new }
{
    let lengths = book.lengths();
    match note_all(proxy, book) {
        Ok(()) => {
            book.set_counts(proxy.accepted(), proxy.acknowledged());
            Ok(())
        }
        Err(Unrecorded::TooHeavy) => {
            book.set_counts(proxy.accepted(), proxy.acknowledged());
            Err(Unrecorded::TooHeavy)
        }
        Err(Unrecorded::Memory) => {
            book.cut_back(lengths);
            Err(Unrecorded::Memory)
        }
    }
}

// Records notes until none is left, or one can't be recorded.
fn note_all(proxy: &mut Proxy, book: &mut Book) -> Result<(), Unrecorded>
    requires closed { book.old.trail.lines.room ≡ 0 }
    requires notes { AllByRecursion IsNote proxy.old.kept.notes }
    ensures { Notes result proxy.old proxy.new book.old book.new }
{
    'notes: loop {
        match proxy.noted() {
            Some(note) => book.note(note)?,
            None => return Ok(()),
        }
    }
}

/// Records bytes that come, if a connection is up.
///
/// # Errors
/// Where they are too heavy, or memory runs out; nothing is changed then.
pub(crate) fn record_read(book: &mut Book, up: bool, piece: &[u8]) -> Result<(), Unrecorded>
    requires closed { book.old.trail.lines.room ≡ 0 }
    requires line { up ≡ true → 0 < length book.old.trail.lines.rows }
    ensures up { up ≡ true → Adds (length piece.now) (with_piece piece.now) result book.old book.new }
    ensures down { up ≡ false → (result ≡ Ok tt) }
    ensures same { up ≡ false → (book.new ≡ book.old) }
{
    if up { book.add_read(piece) } else { Ok(()) }
}

/// Records a connection, unless its number is too great.
///
/// # Errors
/// Where it is too heavy, or memory runs out; nothing is changed then.
pub(crate) fn record_line(book: &mut Book, connection: u32) -> Result<(), Unrecorded>
    requires { book.old.trail.lines.room ≡ 0 }
    ensures few { connection ≤ MOST_CONNECTIONS →
        Adds ITEM_WEIGHT (with_line connection) result book.old book.new }
    ensures many { MOST_CONNECTIONS < connection → (result ≡ Ok tt) }
    ensures same { MOST_CONNECTIONS < connection → (book.new ≡ book.old) }
{
    if connection <= LAST_CONNECTION {
        book.add_line(connection)
    } else {
        Ok(())
    }
}

/// Records bytes that were written, if a connection is up. Takes no memory.
pub(crate) fn record_sent(book: &mut Book, up: bool, bytes: &[u8])
    requires room { length bytes.now ≤ book.old.trail.lines.room }
    requires line { up ≡ true → 0 < length book.old.trail.lines.rows }
    ensures up { up ≡ true → (book.new ≡ with_sent bytes.now book.old) }
    ensures down { up ≡ false → (book.new ≡ closed book.old) }
{
    if up {
        book.add_written(bytes);
    } else {
        book.close_room();
    }
}

/// Counts an item that is given to the peer, if it is a message. Takes no memory.
pub(crate) fn record_given(book: &mut Book, item: &Option<PeerOut>)
    requires { given_item item.now book.old.trail.given ≤ length book.old.order }
    ensures { book.new ≡ counting item.now book.old }
{
    match item {
        Some(PeerOut::Bytes(_)) => book.add_given(),
        _ => {}
    }
}
