// Standard input and output, for both programs: over any reader and any writer, so that what passes can be said.
#![tactic(auto)]

ghost use Rattle.std.specs.Prelude.{◌≡◌, ℕ, ◌<◌, ◌≤◌, length, take, IfOk, IfErr, OnOk};
ghost use Rattle.std.specs.Io.KnownBytes.{Appends, Consumes, IsAtEnd};

use std::io;
use std::io::{ErrorKind, Read, Write};

// Reads from the front of an input until the buffer is full or the input ends, and says how many bytes that are. Where a read fails, what
// came before it stands at the front of the buffer, and no more is gone from the input.
pub fn read_front<R: Read>(input: &mut R, buffer: &mut [u8]) -> io::Result<usize>
    ensures within { IfOk result (λ count. count ≤ length buffer.new) }
    ensures read { IfOk result (λ count. Consumes (R.remaining input.old) (R.remaining input.new) (take count buffer.new)) }
    ensures whole { IfOk result (λ count. count < length buffer.new → IsAtEnd (R.remaining input.new)) }
    ensures failed { IfErr result (λ _. (n : ℕ) × (n ≤ length buffer.new) × Consumes (R.remaining input.old) (R.remaining input.new) (take n buffer.new)) }
{
    let mut count = 0;
    while count < buffer.len() {
        let more = input.read(&mut buffer[count..])?;
        if more == 0 {
            break;
        }
        count += more;
    }
    Ok(count)
}

// Writes the first `count` bytes of a text. Where a write fails, or takes nothing, a front of them has been written.
pub fn write_front<W: Write>(output: &mut W, text: &[u8], count: usize) -> io::Result<()>
    ensures written { count ≤ length text.now → OnOk result (Appends (W.contents output.old) (W.contents output.new) (take count text.now)) }
    ensures failed { IfErr result (λ _. (n : ℕ) × (n ≤ count) × Appends (W.contents output.old) (W.contents output.new) (take n text.now)) }
{
    if text.len() < count {
        return Ok(());
    }
    let mut done = 0;
    while done < count {
        let taken = output.write(&text[done..count])?;
        if taken == 0 {
            return Err(io::Error::from(ErrorKind::WriteZero));
        }
        done += taken;
    }
    Ok(())
}

// Room for an input or a text, of which a caller's proof has the length and not half a million zeros.
pub fn room<const N: usize>() -> [u8; N]
    ensures { N ≡ length result }
{
    [0; N]
}
