// Records of an input: a head of a fixed length, and a body whose length the head says.
ghost use Rattle.std.specs.Prelude.{◌≡◌, ◌≤◌, ◌<◌, ◌↔◌, [], false, IsTrue, IfOk, IfSome, length, take};
ghost use Rattle.std.specs.Io.KnownBytes.{Consumes, IsAtEnd};
ghost use Rattle.stored.specs.Input.{padded};

use std::io;
use std::io::{ErrorKind, Read};

// Puts the next bytes at the start of the room, as many as it has room for or the input has left, and says how many.
pub fn part<R: Read>(input: &mut R, room: &mut [u8]) -> io::Result<usize>
    ensures fits { IfOk result (λ n. n ≤ length room.new) }
    ensures bytes { IfOk result (λ n. Consumes (R.remaining input.old) (R.remaining input.new) (take n room.new)) }
    ensures end { IfOk result (λ n. n < length room.new → IsAtEnd (R.remaining input.new)) }
{
    let mut at = 0;
    // No input is interrupted so often; a proved loop has to end.
    for _ in 0..u64::MAX {
        if at >= room.len() {
            return Ok(at);
        }
        match input.read(&mut room[at..]) {
            Ok(0) => return Ok(at),
            Ok(n) => at += n,
            Err(e) => {
                if e.kind() != ErrorKind::Interrupted {
                    return Err(e);
                }
            }
        }
    }
    Err(ErrorKind::Interrupted.into())
}

// The head of a record, with zeros for the bytes that the input no longer has; false at the input's end.
pub fn head<R: Read>(input: &mut R, room: &mut [u8]) -> io::Result<bool>
    ensures bytes { IfOk result (λ b. IsTrue b → IfSome (R.remaining input.old) (λ xs. room.new ≡ padded (length room.new) xs)) }
    ensures none { IfOk result (λ b. IfSome (R.remaining input.old) (λ xs. (b ≡ false) ↔ take (length room.new) xs ≡ [])) }
{
    let n = part(input, room)?;
    room[n..].fill(0);
    Ok(n != 0)
}

// Puts the next bytes, so many, at the start of the room; false where they have no room, or the input ends before.
pub fn filled<R: Read>(input: &mut R, room: &mut [u8], n: usize) -> io::Result<bool>
    ensures fits { IfOk result (λ b. IsTrue b → n ≤ length room.new) }
    ensures bytes { IfOk result (λ b. IsTrue b → Consumes (R.remaining input.old) (R.remaining input.new) (take n room.new)) }
{
    if room.len() < n {
        return Ok(false);
    }
    match input.read_exact(&mut room[..n]) {
        Ok(()) => Ok(true),
        Err(e) if e.kind() == ErrorKind::UnexpectedEof => Ok(false),
        Err(e) => Err(e),
    }
}

#[cfg(test)]
mod tests {
    use super::*;
    use std::test::Fail;

    #[test]
    fn heads(rt: HostRuntime) -> Result<(), Fail> {
        let mut input: &[u8] = b"abcdef";
        let mut room = [9u8; 4];
        assert!(rt; head(&mut input, &mut room)?);
        assert_eq!(rt; room.as_slice(), b"abcd".as_slice());
        assert!(rt; head(&mut input, &mut room)?);
        assert_eq!(rt; room.as_slice(), b"ef\0\0".as_slice());
        assert!(rt; !head(&mut input, &mut room)?);
        Ok(())
    }

    #[test]
    fn bodies(rt: HostRuntime) -> Result<(), Fail> {
        let mut input: &[u8] = b"abc";
        let mut room = [0u8; 4];
        assert!(rt; filled(&mut input, &mut room, 2)?);
        assert_eq!(rt; room.as_slice(), b"ab\0\0".as_slice());
        assert!(rt; !filled(&mut input, &mut room, 2)?);
        Ok(())
    }
}
