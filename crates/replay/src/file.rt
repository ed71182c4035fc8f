// A file: read whole, replayed, and replayed again with one bit of one answer changed.
ghost use Rattle.std.specs.Prelude.{◌≤◌, length, IfOk};

use crate::compare::{Compared, Place, Tally};
use crate::sample::{BYTES, Row};
use crate::{compare, sample};
use std::io::Read;
use std::rt::Files;
use std::{fs, io};

// The bytes of a file that are read, at most. They stand on the stack: this program asks for no memory.
const ROOM: usize = 65536;

// Where the lowest bit is changed: a row, and a word of its answer. The number of rows and the first row's call pick them.
fn damage_of(rows: &[[u8; BYTES]]) -> Option<Place> {
    let first = Row::of(rows.first()?);
    let pick = rows.len().wrapping_add(first.call as usize) % 0x1_0000;
    Some(Place {
        row: pick * 7 % rows.len(),
        word: pick % 8,
    })
}

fn change_bit(rows: &mut [[u8; BYTES]], damage: Place) {
    if let Some(row) = rows.get_mut(damage.row) {
        sample::change_bit(row, damage.word);
    }
}

// Whether the damage, and it alone, was told.
fn is_told(c: Compared, count: usize, damage: Option<Place>) -> bool {
    count.checked_sub(1) == Some(c.agree) && c.last == damage
}

fn replay_rows(rt: &impl Print, name: &str, rows: &mut [[u8; BYTES]]) -> io::Result<Tally> {
    let whole = compare::rows(rt, name, "", rows)?;
    let damage = damage_of(rows);
    if let Some(damage) = damage {
        change_bit(rows, damage);
    }
    let damaged = compare::rows(rt, name, ", damaged", rows)?;
    Ok(Tally {
        agree: whole.agree as u64,
        rows: rows.len() as u64,
        found: u64::from(is_told(damaged, rows.len(), damage)),
        damages: 1,
    })
}

// A file that is not there, can't be read, or is not of the length that its head says, counts as a row that does not agree.
fn missing(rt: &impl Print, name: &str) -> io::Result<Tally> {
    println!(rt; "{name}: no such sample")?;
    Ok(Tally {
        rows: 1,
        ..Tally::default()
    })
}

// Reads until the buffer is full or the file ends, and answers how many bytes stand at the buffer's start.
fn read_full(file: &mut impl Read, buffer: &mut [u8]) -> io::Result<usize>
    ensures { IfOk result (λ n. n ≤ length buffer.new) }
{
    let mut done: usize = 0;
    while done < buffer.len() {
        let n = file.read(&mut buffer[done..])?;
        if n == 0 {
            break;
        }
        done += n;
    }
    Ok(done)
}

pub(crate) fn replay(rt: &(impl Print + Files), name: &str) -> io::Result<Tally> {
    let Ok(mut file) = fs::open(rt, name) else {
        return missing(rt, name);
    };
    let mut data = [0; ROOM];
    let Ok(length) = read_full(&mut file, &mut data) else {
        return missing(rt, name);
    };
    match sample::rows_in(&mut data[..length]) {
        Some(rows) => replay_rows(rt, name, rows),
        None => missing(rt, name),
    }
}
