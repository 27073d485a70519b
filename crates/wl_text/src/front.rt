//! The front of a text. Each reader gives what it read and the text behind it.

ghost use Rattle.std.specs.Prelude.{◌≡◌, ◌<◌, ◌==◌, length, position, option_map, IfSome};
ghost use Rattle.wl_text.specs.Front.{behind, split_before};

/// The text behind a word that stands at the front.
#[tactic(auto, unfolding(crate::specs::Front::behind))]
pub(crate) fn behind<'a>(word: &[u8], text: &'a [u8]) -> Option<&'a [u8]>
    ensures { option_map (λ it. it.now) result ≡ behind word.now text.now }
{
    text.strip_prefix(word)
}

/// The place of the first byte that is like this one.
fn place_of(stop: u8, text: &[u8]) -> Option<usize>
    ensures place { result ≡ position (λ byte. byte == stop) text.now }
    ensures within { IfSome result (λ at. at < length text.now) }
{
    text.iter().position(|byte| *byte == stop)
}

/// The bytes before the first that is like this one, and the text behind that one.
pub(crate) fn split_before(stop: u8, text: &[u8]) -> Option<(&[u8], &[u8])>
    ensures { option_map (λ it. (it.0.now, it.1.now)) result ≡ split_before stop text.now }
{
    match place_of(stop, text) {
        Some(at) => Some((text.split_at(at).0, text.split_at(at + 1).1)),
        None => None,
    }
}
