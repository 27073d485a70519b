//! The words of the command line.
ghost use Rattle.std.specs.Prelude.{◌≡◌, ◌↔◌, ◌∷◌, [], ℕ, true, MatchOption, IsTrue, decimal};
ghost use Rattle.waypipe_run.specs.Words.{Asks, AreWords, IsReplay, IsTrial, IsCount, IsCommand};
ghost use Rattle.waypipe_run.specs.declared.words.Command.TheVariants.{Input};
ghost use Rattle.waypipe_run.specs.declared.words.Task.TheVariants.{Replay};

use itoa::Buffer;

/// What is done with the whole input.
#[derive(Clone, Copy, Debug, PartialEq, Eq)]
pub enum Task {
    /// It is replayed as a script: the messages that peers received are reported as text where
    /// `texts` says so, and with `long` also what the proxies and their link did.
    Replay { texts: bool, long: bool },
    /// It is listed as a stream of frames.
    Frames,
}

/// What the program is asked to do.
#[derive(Clone, Copy, Debug, PartialEq, Eq)]
pub enum Command {
    /// To read the input, and do this with it.
    Input(Task),
    /// To replay the script of a trial of so many rounds, which reads no input.
    Trial { rounds: u32 },
}

/// The most rounds of a trial.
const MOST_ROUNDS: u32 = 500;

/// The command that the words ask for, or None where they are no command.
pub fn command_of(words: &[String]) -> Option<Command>
    ensures { MatchOption result (IsCommand words.now → ⊥) (λ command. Asks command words.now) }
{
    if is_one(words, "replay") {
        Some(replay(false, false))
    } else if is_two(words, "replay", "--text") {
        Some(replay(true, false))
    } else if is_two(words, "replay", "--long") {
        Some(replay(false, true))
    } else if has_both_options(words) {
        Some(replay(true, true))
    } else if is_one(words, "frames") {
        Some(Command::Input(Task::Frames))
    } else {
        trial_of(words)
    }
}

/// The command to replay the input.
fn replay(texts: bool, long: bool) -> Command
    ensures { result ≡ Input (Replay texts long) }
{
    Command::Input(Task::Replay { texts, long })
}

/// Whether the words ask for a replay with both options, in any order.
fn has_both_options(words: &[String]) -> bool
    ensures { IsTrue result ↔ IsReplay true true words.now }
{
    is_three(words, "replay", "--text", "--long") || is_three(words, "replay", "--long", "--text")
}

/// A trial of as many rounds as the words say, if they ask for one.
fn trial_of(words: &[String]) -> Option<Command>
    ensures { MatchOption result ((rounds : ℕ) → IsTrial rounds words.now → ⊥)
        (λ command. Asks command words.now) }
{
    match words {
        [name, count] if name.as_str() == "trial" => match rounds_of(count.as_str()) {
            Some(rounds) => Some(Command::Trial { rounds }),
            None => None,
        },
        _ => None,
    }
}

/// How many rounds a word says: 1 to 500, in decimal without leading zeros.
fn rounds_of(word: &str) -> Option<u32>
    ensures { MatchOption result ((rounds : ℕ) → IsCount rounds word.now → ⊥)
        (λ rounds. IsCount rounds word.now) }
{
    match word.parse::<u32>() {
        Ok(rounds) => {
            if is_count(word, rounds) {
                Some(rounds)
            } else {
                None
            }
        }
        Err(_) => None,
    }
}

/// Whether a word says this count of rounds.
fn is_count(word: &str, rounds: u32) -> bool
    ensures { IsTrue result ↔ IsCount rounds word.now }
{
    1 <= rounds && rounds <= MOST_ROUNDS && is_decimal(word, rounds)
}

/// Whether a word is this number in decimal.
fn is_decimal(word: &str, number: u32) -> bool
    ensures { IsTrue result ↔ (word.now ≡ decimal number) }
{
    let mut buffer = Buffer::new();
    buffer.format(number) == word
}

/// Whether the words are just this one.
fn is_one(words: &[String], text: &str) -> bool
    ensures { IsTrue result ↔ AreWords (text.now ∷ []) words.now }
{
    match words {
        [word] => word.as_str() == text,
        _ => false,
    }
}

/// Whether the words are just these two.
fn is_two(words: &[String], first: &str, second: &str) -> bool
    ensures { IsTrue result ↔ AreWords (first.now ∷ second.now ∷ []) words.now }
{
    match words {
        [word, other] => word.as_str() == first && other.as_str() == second,
        _ => false,
    }
}

/// Whether the words are just these three.
fn is_three(words: &[String], first: &str, second: &str, third: &str) -> bool
    ensures { IsTrue result ↔ AreWords (first.now ∷ second.now ∷ third.now ∷ []) words.now }
{
    match words {
        [word, other, last] => {
            word.as_str() == first && other.as_str() == second && last.as_str() == third
        }
        _ => false,
    }
}
