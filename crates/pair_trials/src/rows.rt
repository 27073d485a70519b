//! A row: its lines, one after another, with a pair of its own.

use crate::acts::{act_far, act_near, told};
use crate::cuts::cuts;
use crate::image::Images;
use crate::links::{MOST_CARRIED, break_both, carry, connect_both, settle};
use crate::looks::{show_audit, show_report};
use crate::pairs::new_pair;
use crate::peers::give_both;
use crate::steps::Step;
use crate::trouble::Trouble;
use proxy_trail::{PairRecord, Trail};
use std::alloc::Global;
use std::io;
use wp_outside::Side;

/// Plays a row over a new pair. What it owns is made one by one, so that each is let go in one
/// place.
pub fn play<R: Print>(rt: &R, alloc: Global, row: &str) -> io::Result<()> {
    match new_pair(alloc) {
        Ok(mut pair) => play_pair(rt, alloc, &mut pair, row),
        Err(_) => println!(rt; "no memory"),
    }
}

fn play_pair<R: Print>(rt: &R, alloc: Global, pair: &mut PairRecord, row: &str) -> io::Result<()> {
    match Images::new(alloc) {
        Ok(mut images) => play_lines(rt, alloc, pair, &mut images, row),
        Err(_) => println!(rt; "no memory"),
    }
}

fn play_lines<R: Print>(
    rt: &R,
    alloc: Global,
    pair: &mut PairRecord,
    images: &mut Images,
    row: &str,
) -> io::Result<()> {
    for line in row.lines() {
        if line.starts_with('#') {
            println!(rt; "{line}")?;
        } else {
            play_line(rt, alloc, pair, images, line)?;
        }
    }
    Ok(())
}

fn play_line<R: Print>(
    rt: &R,
    alloc: Global,
    pair: &mut PairRecord,
    images: &mut Images,
    line: &str,
) -> io::Result<()> {
    match Step::read(line) {
        Some(Step::Of(Side::Near, act)) => act_near(
            rt,
            alloc,
            &mut pair.near,
            &mut images.near,
            line,
            act,
        ),
        Some(Step::Of(Side::Far, act)) => act_far(
            rt,
            alloc,
            &mut pair.far,
            &mut images.far,
            line,
            act,
        ),
        Some(Step::Audit) => show_audit(rt, &pair.near, &pair.far),
        Some(Step::Report(options)) => show_report(rt, alloc, options, pair),
        Some(Step::Cuts) => show_cuts(rt, alloc),
        Some(Step::Fill(value)) => told(rt, line, images.fill(value)),
        Some(step) => told(rt, line, do_step(alloc, pair, step)),
        None => println!(rt; "{line}: no step"),
    }
}

fn do_step(alloc: Global, pair: &mut PairRecord, step: Step<'_>) -> Result<(), Trouble> {
    match step {
        Step::Connect(connection) => connect_pair(pair, connection),
        Step::Break => {
            break_both(&mut pair.near, &mut pair.far);
            Ok(())
        }
        Step::Up(most) => move_bytes(alloc, &mut pair.near, &mut pair.far, most),
        Step::Down(most) => move_bytes(alloc, &mut pair.far, &mut pair.near, most),
        Step::Settle => settle(alloc, &mut pair.near, &mut pair.far, MOST_CARRIED),
        Step::Give => Ok(give_both(pair)?),
        _ => Err(Trouble::NoWord),
    }
}

fn connect_pair(pair: &mut PairRecord, connection: u32) -> Result<(), Trouble> {
    connect_both(&mut pair.near, &mut pair.far, connection)?;
    pair.connections = connection;
    Ok(())
}

fn move_bytes(alloc: Global, from: &mut Trail, to: &mut Trail, most: u32) -> Result<(), Trouble> {
    carry(alloc, from, to, most as usize)?;
    Ok(())
}

fn show_cuts<R: Print>(rt: &R, alloc: Global) -> io::Result<()> {
    match cuts(alloc) {
        Ok(count) => println!(rt; "cuts {count}"),
        Err(trouble) => println!(rt; "cuts: {trouble:?}"),
    }
}
