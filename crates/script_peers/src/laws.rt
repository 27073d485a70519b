//! Laws of the peers of a replay: each function does nothing, and its clause is the law.

ghost use Rattle.script_peers.specs.Laws.{BytesArePut, BytesAreKept, StaysBehind, NotedByName};
ghost use Rattle.script_peers.specs.Laws.{ReceiptsAreOwn, FillsWrite};

/// The bytes of what lines put on a wire are the bytes of the script.
pub fn bytes_are_put()
    ensures { BytesArePut }
{}

/// The bytes that left a wire and those that wait on it are those of the lines done.
pub fn bytes_are_kept()
    ensures { BytesAreKept }
{}

/// Whatever a peer does and is given, what left its wire and what waits there are what its lines
/// put, and its files have the writes of its lines.
pub fn stays_behind()
    ensures { StaysBehind }
{}

/// A note goes before `wl_surface.commit` and before `wl_keyboard.keymap`.
pub fn noted_by_name()
    ensures { NotedByName }
{}

/// A receipt of an eye that a peer put on its wire can be settled with the peer, whatever it did
/// since.
pub fn receipts_are_own()
    ensures { ReceiptsAreOwn }
{}

/// Words that a line fills are written one after another, each to its segment, and nothing else is.
pub fn fills_write()
    ensures { FillsWrite }
{}
