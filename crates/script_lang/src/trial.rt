//! The script of a trial, whose numbers are drawn.

ghost use Rattle.std.specs.Prelude.{◌≡◌, ◌<◌, ◌≤◌, ◌++◌, Ok, IfOk, OnOk, string_bytes};
ghost use Rattle.script_lang.specs.Grammar.{steps_of};
ghost use Rattle.script_lang.specs.Trial.{next_state, drawn, state_after, opening, moves, round};
ghost use Rattle.script_lang.specs.Trial.{fill_text, damage_text, drawn_fill, drawn_damage};
ghost use Rattle.script_lang.specs.Trial.{rounds, trial_text};

use crate::reading::read_script;
use crate::script::Script;
use std::alloc::{AllocError, Global};
use wl_wire::Text;

const MULTIPLIER: u64 = 6_364_136_223_846_793_005;

const INCREMENT: u64 = 1_442_695_040_888_963_407;

/// Numbers that are drawn one after another.
#[derive(Drop)]
struct Draws {
    state: u64,
}

impl Draws {
    /// The next number, below a bound.
    #[tactic(auto, unfolding(crate::specs::Trial::next_state, crate::specs::Trial::drawn))]
    fn draw(&mut self, bound: u32) -> u32
        requires { 0 < bound }
        ensures state { self.new.state ≡ next_state self.old.state }
        ensures number { result ≡ drawn bound (next_state self.old.state) }
        ensures low { result < bound }
    {
        self.state = self.state.wrapping_mul(MULTIPLIER).wrapping_add(INCREMENT);
        (self.state >> 33) as u32 % bound
    }
}

/// The script of a trial of so many rounds: an application that writes into a file and commits a
/// surface, while the link is made and broken. All its numbers are drawn from the count of rounds.
///
/// # Errors
/// Only where memory runs out.
#[tactic(auto, unfolding(crate::specs::Trial::trial_text))]
pub fn trial_script(alloc: Global, count: u32) -> Result<Script, AllocError>
    requires low { 1 ≤ count }
    requires high { count ≤ 500 }
    ensures exact { IfOk result (λ script. steps_of (trial_text count) ≡ Ok script.steps) }
{
    let mut text = Text::new(alloc);
    text.append(opening().as_bytes())?;
    add_rounds(alloc, &mut text, count)?;
    match read_script(alloc, text.as_slice()) {
        Ok(script) => Ok(script),
        // The text is a script, so memory ran out.
        Err(_) => Err(AllocError),
    }
}

/// Adds the text of so many rounds.
fn add_rounds(alloc: Global, text: &mut Text, count: u32) -> Result<(), AllocError>
    ensures { OnOk result (text.new ≡ text.old ++ rounds count count) }
{
    let mut draws = Draws {
        state: u64::from(count),
    };
    for _ in 0..count {
        add_round(alloc, text, &mut draws)?;
    }
    Ok(())
}

/// Adds the text of one round.
fn add_round(alloc: Global, text: &mut Text, draws: &mut Draws) -> Result<(), AllocError>
    ensures text { OnOk result (text.new ≡ text.old ++ round draws.old.state) }
    ensures draws { OnOk result (draws.new.state ≡ state_after 8 draws.old.state) }
{
    add_fill(alloc, text, draws)?;
    add_damage(alloc, text, draws)?;
    let moves = moves(draws.draw(4));
    text.append(moves.as_bytes())
}

/// Adds the line that writes words into the file.
fn add_fill(alloc: Global, text: &mut Text, draws: &mut Draws) -> Result<(), AllocError>
    ensures text { OnOk result (text.new ≡ text.old ++ drawn_fill draws.old.state) }
    ensures draws { draws.new.state ≡ state_after 3 draws.old.state }
{
    let first = draws.draw(8_184);
    let count = 1 + draws.draw(8);
    let value = draws.draw(256);
    let line = fill_text(alloc, first, count, value)?;
    text.append(line.as_bytes())
}

/// The line that writes a value into so many words.
#[tactic(auto, unfolding(crate::specs::Trial::fill_text))]
fn fill_text(alloc: Global, first: u32, count: u32, value: u32) -> Result<String, AllocError>
    ensures { IfOk result (λ text. string_bytes text ≡ fill_text first count value) }
{
    format!(in alloc; "app fill 1 {first} {count} {value}\n")
}

/// Adds the lines that damage a rectangle and commit the surface.
fn add_damage(alloc: Global, text: &mut Text, draws: &mut Draws) -> Result<(), AllocError>
    ensures text { OnOk result (text.new ≡ text.old ++ drawn_damage draws.old.state) }
    ensures draws { draws.new.state ≡ state_after 4 draws.old.state }
{
    let x = draws.draw(128);
    let y = draws.draw(128);
    let width = 1 + draws.draw(32);
    let height = 1 + draws.draw(32);
    let lines = damage_text(alloc, x, y, width, height)?;
    text.append(lines.as_bytes())
}

/// The lines that damage a rectangle and commit the surface.
#[tactic(auto, unfolding(crate::specs::Trial::damage_text))]
fn damage_text(alloc: Global, x: u32, y: u32, width: u32, height: u32) -> Result<String, AllocError>
    ensures { IfOk result (λ text. string_bytes text ≡ damage_text x y width height) }
{
    format!(in alloc;
        "app wl_surface@5.damage_buffer({x}, {y}, {width}, {height})\napp wl_surface@5.commit()\n"
    )
}

/// The lines that make a file and a surface with a buffer in it.
#[tactic(auto, unfolding(crate::specs::Trial::opening))]
fn opening() -> &'static str
    ensures { result.now ≡ opening }
{
    "app file 1 65536\n\
     app wl_display@1.get_registry(new @2)\n\
     app wl_registry@2.bind(1, \"wl_compositor\" 6 new @3)\n\
     app wl_registry@2.bind(2, \"wl_shm\" 1 new @4)\n\
     app wl_compositor@3.create_surface(new @5)\n\
     app wl_shm@4.create_pool(new @6, fd %1, 65536)\n\
     app wl_shm_pool@6.create_buffer(new @7, 0, 128, 128, 512, 0)\n\
     app wl_surface@5.attach(@7, 0, 0)\n"
}

/// The lines behind a commit.
#[tactic(auto, unfolding(crate::specs::Trial::moves))]
fn moves(number: u32) -> &'static str
    ensures { result.now ≡ moves number }
{
    match number {
        0 => "connect\ntake app 40\nup 100\nbreak\n",
        1 => "connect\ntake app 100\nup 64\ndown 64\n",
        2 => "settle\n",
        _ => "",
    }
}
