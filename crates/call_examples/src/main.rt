// Makes the calls of a script. The answer to a call is number, place and third, whether the block is the same as before, and the output.
#![tactic(auto)]

ghost use Rattle.std.specs.Prelude.{◌<◌, IfOk, OnErr};
ghost use Rattle.scripts.specs.Rooms.{number_at};

use replies::Reply;
use scripts::{Bytes, Room, Script};
use std::io;
use std::io::Write;

// How many bytes of the block are lent: the number behind it and one byte more.
fn lent_of<W: Write>(out: &mut W, block: &Room) -> io::Result<usize>
    ensures done { IfOk result (λ r. r < 5253) }
    ensures err { OnErr result (5252 < number_at block.now 5251) }
{
    scripts::inside(out, scripts::number(block, 5251))
}

// The reply to a call that has the block lent.
fn reply_to<W: Write, F: FnOnce(&mut [u8]) -> Reply>(
    out: &mut W,
    block: &mut Room,
    call: F,
) -> io::Result<Reply>
    requires { F.IsAlwaysCallable call }
{
    let lent = lent_of(out, block)?;
    Ok(call(&mut block[..lent]))
}

// A number whose high half stands six places behind it.
fn long_number(room: &Room, at: usize) -> u64
    requires { at < 4 }
{
    scripts::number(room, at) as u64 + 4294967296 * scripts::number(room, at + 6) as u64
}

fn open<W: Write>(out: &mut W, block: &mut Room, table: &Room, room: &Room) -> io::Result<Reply> {
    let n = long_number(room, 0);
    let v = long_number(room, 2);
    let size = scripts::inside(out, scripts::number(room, 4))?;
    let table = &table[..size];
    reply_to(out, block, |lent| opening::open(n, v, table, lent))
}

fn take<W: Write>(out: &mut W, block: &mut Room, packet: &[u8]) -> io::Result<Reply> {
    reply_to(out, block, |lent| taking::take(lent, packet))
}

fn ask<W: Write>(out: &mut W, block: &mut Room, packet: &[u8]) -> io::Result<Reply> {
    reply_to(out, block, |lent| asking::ask(lent, packet))
}

// Writes the solved form to an output.
fn write<W: Write>(out: &mut W, block: &Room, output: &mut [u8]) -> io::Result<Reply> {
    let lent = lent_of(out, block)?;
    Ok(writing::write(&block[..lent], output))
}

fn write_reply<W: Write>(out: &mut W, reply: Reply) -> io::Result<()> {
    let number = replies::number_of(reply);
    let place = replies::place_of(reply);
    let third = replies::third_of(reply);
    write!(out, "{number} {place} {third} ")
}

// Tells the answer to a call, with the block before and after it.
fn tell<W: Write>(out: &mut W, reply: Reply, before: &Room, after: &Room) -> io::Result<()> {
    write_reply(out, reply)?;
    if before == after {
        return out.write_all(b"same");
    }
    out.write_all(b"changed")
}

// Tells the answer to writing, with all bytes of the output or only a sum.
fn tell_output<W: Write>(out: &mut W, block: &Room, size: usize, shown: bool) -> io::Result<()>
    requires { size < 5253 }
{
    let mut output = [0xEEu8; 5253];
    let reply = write(out, block, &mut output[..size])?;
    tell(out, reply, block, block)?;
    let sum = scripts::sum(out, &output, size, shown)?;
    if shown {
        return Ok(());
    }
    write!(out, " {sum}")
}

// Tells how a fresh session takes the solved form, which has to give the same block.
fn tell_fresh<W: Write>(out: &mut W, block: &Room, table: &Room, room: &Room) -> io::Result<()> {
    let mut form = [0xEEu8; 5253];
    let _ = write(out, block, &mut form[..4358])?;
    let mut fresh = *block;
    let _ = open(out, &mut fresh, table, room)?;
    let size = scripts::inside(out, scripts::number(&form, 0) + 2)?;
    let reply = take(out, &mut fresh, &form[..size])?;
    tell(out, reply, block, &fresh)
}

// The calls that leave the block as it is. (A letter is the script's own name for a call; it is looked at here and in the two functions below alone.)
fn tell_other<W: Write>(
    out: &mut W,
    letter: u8,
    block: &Room,
    table: &Room,
    room: &Room,
) -> io::Result<()> {
    let size = scripts::inside(out, scripts::number(room, 0))?;
    match letter {
        b'w' => tell_output(out, block, size, true),
        b's' => tell_output(out, block, size, false),
        b'f' => tell_fresh(out, block, table, room),
        b'h' | b'k' | b'e' => Ok(()),
        _ => out.write_all(b"?"),
    }
}

// Makes a call that may change the block, and tells its answer.
fn tell_block<W: Write>(
    out: &mut W,
    script: &Script,
    block: &mut Room,
    table: &Room,
) -> io::Result<()> {
    let before = *block;
    let room = &script.bytes.room;
    let size = scripts::inside(out, script.bytes.size)?;
    let packet = &room[..size];
    let reply = match script.letter {
        b'o' => open(out, block, table, room)?,
        b't' => take(out, block, packet)?,
        b'a' => ask(out, block, packet)?,
        b'p' => {
            *block = scripts::put(out, before, &script.bytes)?;
            return Ok(());
        }
        letter => return tell_other(out, letter, block, table, room),
    };
    tell(out, reply, &before, block)
}

fn house_table() -> Room {
    let mut table = [0u8; 5253];
    table[..1089].copy_from_slice(&house::table());
    table
}

// The table after a call.
fn next_table<W: Write>(out: &mut W, letter: u8, table: Room, bytes: &Bytes) -> io::Result<Room> {
    if letter == b'h' {
        return Ok(house_table());
    }
    scripts::next_table(out, letter, table, bytes)
}

fn main(rt: HostRuntime) -> io::Result<()> {
    let mut block = [0u8; 5253];
    let mut table = [0u8; 5253];
    scripts::run(&mut rt.stdin(), &mut rt.stdout(), |out, script| {
        table = next_table(out, script.letter, table, &script.bytes)?;
        tell_block(out, script, &mut block, &table)
    })
}
