// Checks the tables of a script, and writes number and place of the answer.
#![tactic(auto)]

ghost use Rattle.std.specs.Prelude.{◌<◌, ◌≤◌};

use kinds::Table;
use replies::Reply;
use scripts::{Room, Script};
use std::io;
use std::io::Write;

fn reply_to(table: &Room, n: usize) -> Reply
    requires { (1 < n) × (n ≤ 64) }
{
    let size = n * n;
    tables::check(Table {
        entries: &table[..size],
        n,
    })
}

fn tell<W: Write>(out: &mut W, table: &Room, n: usize) -> io::Result<()> {
    if !(2..=64).contains(&n) {
        return out.write_all(b"?");
    }
    let reply = reply_to(table, n);
    let number = replies::number_of(reply);
    let place = replies::place_of(reply);
    write!(out, "{number} {place}")
}

// Answers a call: `c`, the check of a table of so many kinds.
fn answer<W: Write>(out: &mut W, script: &Script, table: &Room) -> io::Result<()> {
    // A letter is the script's own name for a call.
    match script.letter {
        b'c' => tell(out, table, scripts::number(&script.bytes.room, 0)),
        b'k' | b'e' => Ok(()),
        _ => out.write_all(b"?"),
    }
}

// The table after a call, which is answered.
fn called<W: Write>(out: &mut W, script: &Script, table: Room) -> io::Result<Room> {
    let next = scripts::next_table(out, script.letter, table, &script.bytes)?;
    answer(out, script, &next)?;
    Ok(next)
}

fn main(rt: HostRuntime) -> io::Result<()> {
    let mut table = [0u8; 5253];
    scripts::run(&mut rt.stdin(), &mut rt.stdout(), |out, script| {
        table = called(out, script, table)?;
        Ok(())
    })
}
