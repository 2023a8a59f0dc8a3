// Reads V as one byte, then packets, from standard input, and writes one line a call: a word, then number, place and third.
// The kinds are the house kinds.
#![tactic(auto)]

ghost use Rattle.std.specs.Prelude.{◌≡◌, true, false, ℕ, ◌+◌, ◌≤◌, ◌<◌, ◌^◌, List, length, take, drop, IfOk, OnOk, OnErr, IfSome, MatchResult};
ghost use Rattle.std.specs.Io.KnownBytes.{Appends};
ghost use Rattle.blocks.specs.Layout.{block_size};
ghost use Rattle.lines.specs.Text.{line, longest_word, text_of};
ghost use Rattle.rigcheck.specs.declared.Step.TheVariants.{Packet};
ghost use Rattle.rigcheck.specs.Lines.{is_facts, Answered, longest, step_of, goes_on, Turn, Opening};
ghost use Rattle.rigcheck.specs.Input.{said, ReadUpTo, TurnOn, Packets, Run};

use blocks::BLOCK;
use lines::Line;
use replies::{Cause, Refusal, Reply};
use std::io;
use std::io::{Read, Write};

// The largest L of a packet.
const LONGEST: usize = 4372;

// The same packet with its two bytes of L.
const LONGEST_PACKET: usize = 4374;

const HOUSE_KINDS: u64 = 33;

// How a run goes on from the two bytes of L. An enum of its own: of the three kinds without a size each has a line of its own, so that no Option
// of a size tells them apart.
#[derive(Clone, Copy)]
enum Step {
    // No packet is left.
    End,
    // The input ends inside a packet.
    Cut,
    // L is too long.
    Long,
    // As many bytes more make the packet.
    Packet(usize),
}

// L is judged as soon as its two bytes are read.
fn next_step(got: usize, packet: &[u8; LONGEST_PACKET]) -> Step
    ensures { result ≡ step_of got packet.now }
{
    if got == 0 {
        return Step::End;
    }
    if got < 2 {
        return Step::Cut;
    }
    let size = usize::from(u16::from_be_bytes([packet[0], packet[1]]));
    if LONGEST < size {
        return Step::Long;
    }
    Step::Packet(size)
}

// Whether the run goes on, where `rest` bytes could be read behind L: only behind a whole packet.
fn goes_on(step: Step, rest: usize) -> bool
    ensures { result ≡ goes_on step rest }
{
    match step {
        Step::End | Step::Cut | Step::Long => false,
        Step::Packet(size) => size <= rest,
    }
}

// Whether the packet is for taking; any other is for asking.
fn is_facts(packet: &[u8]) -> bool
    ensures { result ≡ is_facts packet.now }
{
    3 < packet.len() && packet[3] == 1
}

// Takes a packet of facts, asks any other. Its line.
fn answered(block: &mut [u8], packet: &[u8]) -> Line
    ensures { Answered block.old packet.now (text_of result) block.new }
{
    if is_facts(packet) {
        let reply = taking::take(block, packet);
        return Line::of_reply(b"facts", reply);
    }
    let reply = asking::ask(block, packet);
    Line::of_reply(b"rule", reply)
}

// The line of a packet that cannot be read: its length is refused.
fn refused(word: &[u8]) -> Line
    requires { length word.now ≤ longest_word }
    ensures { text_of result ≡ line word.now 5 0 0 }
{
    Line::of_reply(word, Err(Refusal(Cause::BadLength, 0)))
}

// Answers a packet of which `rest` bytes could be read behind L, where that is all of them. Its line.
fn told_packet(block: &mut [u8], packet: &[u8; LONGEST_PACKET], size: usize, rest: usize) -> Line
    requires { size ≤ longest }
    ensures { Turn block.old packet.now (Packet size) rest (text_of result) block.new }
{
    if rest < size {
        return refused(b"cut");
    }
    let end = 2 + size;
    answered(block, &packet[..end])
}

// One turn of the run, once its bytes are read. Its line, if it has one.
fn told(block: &mut [u8], packet: &[u8; LONGEST_PACKET], step: Step, rest: usize) -> Option<Line>
    requires { (size : ℕ) → step ≡ Packet size → size ≤ longest }
    ensures { Turn block.old packet.now step rest (said result) block.new }
{
    match step {
        Step::End => None,
        Step::Cut => Some(refused(b"cut")),
        Step::Long => Some(refused(b"long")),
        Step::Packet(size) => Some(told_packet(block, packet, size, rest)),
    }
}

// Opens a session of V joints with the house kinds. A block that has its size leaves V alone to be refused. The line of `open`; that of a
// refusal, which ends the run, is the error.
fn open(joints: u8, block: &mut [u8]) -> Result<Line, Line>
    requires { length block.old ≡ block_size }
    ensures { MatchResult result (λ line. Opening joints block.old (text_of line) false block.new)
        (λ line. Opening joints block.old (text_of line) true block.new) }
{
    let reply = opening::open(HOUSE_KINDS, u64::from(joints), &house::table(), block);
    let line = Line::of_reply(b"open", reply);
    match reply {
        Ok(_) => Ok(line),
        Err(_) => Err(line),
    }
}

// Writes the text of a line; the program writes nowhere else.
fn print<W: Write>(out: &mut W, line: Line) -> io::Result<()>
    ensures { OnOk result (Appends (W.contents out.old) (W.contents out.new) (text_of line)) }
{
    line.write(out)
}

// Reads until `bytes` is full or the input ends. The bytes read; each turn reads one at least. `read_exact` does not say how many it could
// read of an input that ends before.
fn read_full<R: Read>(input: &mut R, bytes: &mut [u8]) -> io::Result<usize>
    ensures bytes { IfOk result (λ got. ReadUpTo (length bytes.new) got (R.remaining input.old) (R.remaining input.new) bytes.new) }
    ensures err { OnErr result (0 < length bytes.old) }
{
    let size = bytes.len();
    let mut done = 0;
    for _ in 0..size {
        let got = input.read(&mut bytes[done..])?;
        if got == 0 {
            return Ok(done);
        }
        done += got;
        if done == size {
            return Ok(done);
        }
    }
    Ok(done)
}

// Reads up to `size` bytes to `at`, and keeps those before. The bytes read.
fn read_to<R: Read>(input: &mut R, packet: &mut [u8], at: usize, size: usize) -> io::Result<usize>
    requires { at + size ≤ length packet.old }
    ensures keeps { take at packet.new ≡ take at packet.old }
    ensures bytes { IfOk result (λ got. ReadUpTo size got (R.remaining input.old) (R.remaining input.new) (drop at packet.new)) }
    ensures err { OnErr result (0 < size) }
{
    let end = at + size;
    read_full(input, &mut packet[at..end])
}

// Reads a packet behind its two bytes of L, which stay. The bytes read.
fn read_rest<R: Read>(input: &mut R, packet: &mut [u8], step: Step) -> io::Result<usize>
    requires { (size : ℕ) → step ≡ Packet size → 2 + size ≤ length packet.old }
    ensures keeps { take 2 packet.new ≡ take 2 packet.old }
    ensures bytes { (size : ℕ) → step ≡ Packet size
        → IfOk result (λ got. ReadUpTo size got (R.remaining input.old) (R.remaining input.new) (drop 2 packet.new)) }
    ensures err { OnErr result ((size : ℕ) × ((step ≡ Packet size) × (0 < size))) }
{
    match step {
        Step::End | Step::Cut | Step::Long => Ok(0),
        Step::Packet(size) => read_to(input, packet, 2, size),
    }
}

// Room for a packet. The contract gives the length alone, so that no proof has to look at so many zeros.
fn no_packet() -> [u8; LONGEST_PACKET]
    ensures { length result ≡ 2 + longest }
{
    [0; LONGEST_PACKET]
}

// One packet. Whether the run goes on.
fn next_packet<R: Read, W: Write>(input: &mut R, out: &mut W, block: &mut [u8]) -> io::Result<bool>
    ensures { IfOk result (λ more. IfSome (R.remaining input.old)
        (λ xs. TurnOn block.old xs more (R.remaining input.new) (W.contents out.old) (W.contents out.new) block.new)) }
{
    let mut packet = no_packet();
    let got = read_to(input, &mut packet, 0, 2)?;
    let step = next_step(got, &packet);
    let rest = read_rest(input, &mut packet, step)?;
    if let Some(line) = told(block, &packet, step, rest) {
        print(out, line)?;
    }
    Ok(goes_on(step, rest))
}

// Every packet of the input; no input is so long that the count runs out.
fn all_packets<R: Read, W: Write>(input: &mut R, out: &mut W, block: &mut [u8]) -> io::Result<()>
    ensures { OnOk result (IfSome (R.remaining input.old) (λ xs. length xs < 2 ^ 64
        → (text : List ℕ) × Packets block.new block.old xs text × Appends (W.contents out.old) (W.contents out.new) text)) }
{
    for _ in 0..u64::MAX {
        if !next_packet(input, out, block)? {
            return Ok(());
        }
    }
    Ok(())
}

// Room for a block; the contract gives the length alone, too.
fn no_block() -> [u8; BLOCK]
    ensures { length result ≡ block_size }
{
    [0; BLOCK]
}

// V, then the packets.
fn run<R: Read, W: Write>(input: &mut R, out: &mut W) -> io::Result<()>
    ensures { OnOk result (IfSome (R.remaining input.old) (λ xs. length xs < 2 ^ 64
        → (text : List ℕ) × Run xs text × Appends (W.contents out.old) (W.contents out.new) text)) }
{
    let mut joints = [0u8; 1];
    if read_full(input, &mut joints)? == 0 {
        return Ok(());
    }
    let mut block = no_block();
    match open(joints[0], &mut block) {
        Ok(line) => {
            print(out, line)?;
            all_packets(input, out, &mut block)
        }
        Err(line) => print(out, line),
    }
}

fn main(rt: HostRuntime) -> io::Result<()> {
    run(&mut rt.stdin(), &mut rt.stdout())
}
