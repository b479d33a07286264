ghost use Rattle.std.specs.Prelude.{◌≡◌, ◌≢◌, ◌<◌, ◌≤◌, Err, IfOk, IfErr, IfSome, OnOk, length};
ghost use Rattle.std.specs.Io.KnownBytes.{Consumes, IsAtEnd, Appends};

use crate::{Failed, ReadError};
use std::alloc::Global;
use std::io::{Read, Write};

/// How many bytes are asked for at once.
const PIECE: usize = 16 * 1024;

/// Reads to the end, where at most `limit` bytes are left. Each turn but the last takes a byte at
/// least, so there are at most `limit + 1` turns.
pub(crate) fn read_within<F: Read>(
    alloc: Global,
    file: &mut F,
    limit: usize,
) -> Result<Vec<u8>, ReadError>
    ensures bytes { IfOk result (λ bytes. Consumes (F.remaining file.old) (F.remaining file.new) bytes.items) }
    ensures end { OnOk result (IsAtEnd (F.remaining file.new)) }
    ensures within { IfOk result (λ bytes. length bytes.items ≤ limit) }
    ensures too_long { result ≡ Err ReadError.TooLong → IfSome (F.remaining file.old) (λ bytes. limit < length bytes) }
    ensures present { IfErr result (λ error. error ≢ ReadError.Absent) }
{
    let mut bytes = Vec::new(alloc);
    let mut piece = [0u8; PIECE];
    loop {
        let Ok(count) = file.read(&mut piece) else {
            return Err(ReadError::Failed);
        };
        if count == 0 {
            return Ok(bytes);
        }
        if count > limit - bytes.len() {
            return Err(ReadError::TooLong);
        }
        bytes
            .extend_from_slice(&piece[..count])
            .map_err(|_| ReadError::Memory)?;
    }
}

/// Writes the whole piece; a write that takes nothing of it is a refusal.
pub(crate) fn write_whole<W: Write>(out: &mut W, piece: &[u8]) -> Result<(), Failed>
    ensures { OnOk result (Appends (W.contents out.old) (W.contents out.new) piece.now) }
{
    let mut rest = piece;
    while !rest.is_empty() {
        let Ok(count) = out.write(rest) else {
            return Err(Failed);
        };
        if count == 0 {
            return Err(Failed);
        }
        rest = rest.split_at(count).1;
    }
    Ok(())
}

#[cfg(test)]
mod tests {
    use super::{read_within, write_whole};
    use crate::{Failed, ReadError};
    use std::io;
    use std::io::{Error, ErrorKind, Read, Write};
    use std::test::Fail;

    // Gives a byte a turn and then fails, or takes two bytes a turn and then nothing.
    #[derive(Drop)]
    struct Line {
        turns: u8,
    }

    impl Read for Line {
        fn read(&mut self, buf: &mut [u8]) -> io::Result<usize> {
            if self.turns == 0 || buf.is_empty() {
                return Err(Error::from(ErrorKind::TimedOut));
            }
            self.turns -= 1;
            buf[0] = b'a';
            Ok(1)
        }
    }

    impl Write for Line {
        fn write(&mut self, buf: &[u8]) -> io::Result<usize> {
            if self.turns == 0 {
                return Ok(0);
            }
            self.turns -= 1;
            Ok(buf.len().min(2))
        }

        fn flush(&mut self) -> io::Result<()> {
            Ok(())
        }
    }

    #[test]
    fn a_stream_that_breaks_off_is_a_failure(rt: HostRuntime) -> Result<(), Fail> {
        let mut line = Line { turns: 3 };
        let read = read_within(rt.alloc(), &mut line, 3);
        assert_eq!(rt; read.err(), Some(ReadError::Failed));
        let mut line = Line { turns: 3 };
        let read = read_within(rt.alloc(), &mut line, 2);
        assert_eq!(rt; read.err(), Some(ReadError::TooLong));

        let mut line = Line { turns: 3 };
        assert_eq!(rt; write_whole(&mut line, b"12345"), Ok(()));
        assert_eq!(rt; line.turns, 0);
        assert_eq!(rt; write_whole(&mut line, b"6"), Err(Failed));
        Ok(())
    }
}
