//! A text cut into lines and fields.

ghost use Rattle.std.specs.Prelude.{◌≡◌, ◌<◌, [], ◌∷◌, length, option_map, MatchOption};
ghost use Rattle.std.specs.Option.{option_copied};
ghost use Rattle.script_lang.specs.Fields.{one_of, two_of, three_of, four_of};
ghost use Rattle.script_lang.specs.Pieces.{front, behind, lines, fields_behind};

use memchr::memchr;

/// What stands before the first separator, and what stands behind it, where there is one.
pub fn cut_at(bytes: &[u8], separator: u8) -> (&[u8], Option<&[u8]>)
    ensures front { result.0.now ≡ front separator bytes.now }
    ensures behind { option_copied result.1 ≡ behind separator bytes.now }
{
    match memchr(separator, bytes) {
        Some(at) => (bytes.split_at(at).0, Some(bytes.split_at(at + 1).1)),
        None => (bytes, None),
    }
}

/// The first line of a text that isn't empty, and what stands behind its line feed.
pub fn next_line(text: &[u8]) -> (&[u8], &[u8])
    requires { 0 < length text.now }
    ensures split { lines text.now ≡ result.0.now ∷ lines result.1.now }
    ensures shorter { length result.1.now < length text.now }
{
    let (line, behind) = cut_at(text, b'\n');
    match behind {
        Some(rest) => (line, rest),
        None => (line, &[]),
    }
}

/// How many lines a text has.
pub fn count_lines(text: &[u8]) -> usize
    ensures { result ≡ length (lines text.now) }
{
    let mut count = 0usize;
    let mut rest = text;
    while !rest.is_empty() {
        let (_, others) = next_line(rest);
        rest = others;
        count += 1;
    }
    count
}

/// The field, where there is just one.
pub fn one_field(fields: Option<&[u8]>) -> Option<&[u8]>
    ensures { option_copied result ≡ one_of (fields_behind (option_copied fields.entry)) }
{
    match fields {
        Some(text) => {
            let (field, others) = cut_at(text, b' ');
            match others {
                Some(_) => None,
                None => Some(field),
            }
        }
        None => None,
    }
}

/// The fields, where there are just two.
pub fn two_fields(fields: Option<&[u8]>) -> Option<(&[u8], &[u8])>
    ensures { option_map (λ it. (it.0.now, it.1.now)) result
        ≡ two_of (fields_behind (option_copied fields.entry)) }
{
    let (first, others) = cut_at(fields?, b' ');
    let second = one_field(others)?;
    Some((first, second))
}

/// The fields, where there are just three.
pub fn three_fields(fields: Option<&[u8]>) -> Option<(&[u8], &[u8], &[u8])>
    ensures { option_map (λ it. (it.0.now, it.1.now, it.2.now)) result
        ≡ three_of (fields_behind (option_copied fields.entry)) }
{
    let (first, others) = cut_at(fields?, b' ');
    let (second, third) = two_fields(others)?;
    Some((first, second, third))
}

/// The fields, where there are just four.
pub fn four_fields(fields: Option<&[u8]>) -> Option<(&[u8], &[u8], &[u8], &[u8])>
    ensures { option_map (λ it. (it.0.now, it.1.now, it.2.now, it.3.now)) result
        ≡ four_of (fields_behind (option_copied fields.entry)) }
{
    let (first, others) = cut_at(fields?, b' ');
    let (second, third, fourth) = three_fields(others)?;
    Some((first, second, third, fourth))
}
