// Bytes put into a lent output, and reply 12.
#![tactic(auto)]

ghost use Rattle.std.specs.Prelude.{◌≡◌, ◌^◌, ◌<◌, length};
ghost use Rattle.outputs.specs.Output.{output_reply, output_after};

use replies::{Cause, Refusal, Reply};

// Puts the bytes in front of the output where it has room for all of them, else none. Their number is a third number, of 24 bits.
pub fn put_out(out: &mut [u8], bytes: &[u8]) -> Reply
    requires { length bytes.now < 2 ^ 24 }
    ensures { (result ≡ output_reply bytes.now out.old)
        × (out.new ≡ output_after bytes.now out.old) }
{
    let size = bytes.len();
    if out.len() < size {
        return Err(Refusal(Cause::ShortOutput, 0));
    }
    runs::copy(&mut out[..size], bytes);
    Ok(size as u32)
}
