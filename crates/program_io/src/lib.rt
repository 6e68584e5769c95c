// Input read whole, over std's readers. What is printed goes by std's `Print`: its `write_all` takes bytes, and its `print` a number.
#![tactic(auto)]

ghost use Rattle.std.specs.Prelude.{ℕ, ◌<◌, ◌≤◌, length, take, IfOk, OnErr};
ghost use Rattle.std.specs.Io.{ReadsAtMost};
ghost use Rattle.std.specs.Io.KnownBytes.{Consumes, IsAtEnd};

use std::io;
use std::io::Read;

// Reads until the buffer is full or the input ends, and answers how many bytes it put at the buffer's start. At an error the bytes
// that were read before it stand there, and it is not said how many.
pub fn read_full<R: Read>(reader: &mut R, buf: &mut [u8]) -> io::Result<usize>
    ensures within { ReadsAtMost result buf.new }
    ensures bytes { IfOk result (λ n. Consumes (R.remaining reader.old) (R.remaining reader.new) (take n buf.new)) }
    ensures err { OnErr result ((n : ℕ) × (n ≤ length buf.new) × Consumes (R.remaining reader.old) (R.remaining reader.new) (take n buf.new)) }
    ensures end { IfOk result (λ n. n < length buf.new → IsAtEnd (R.remaining reader.new)) }
{
    let mut done = 0;
    while done < buf.len() {
        let n = reader.read(&mut buf[done..])?;
        if n == 0 {
            break;
        }
        done += n;
    }
    Ok(done)
}

#[cfg(test)]
mod tests {
    use super::*;
    use std::io::{Error, ErrorKind};
    use std::test::Fail;

    // Gives two bytes a read, and fails once it has given `left` of them.
    #[derive(Drop)]
    struct Failing {
        left: u8,
    }

    impl Read for Failing {
        fn read(&mut self, buf: &mut [u8]) -> io::Result<usize> {
            if self.left == 0 {
                return Err(Error::from(ErrorKind::ConnectionReset));
            }
            self.left -= 1;
            if buf.len() < 2 {
                return Ok(0);
            }
            buf[0] = 7;
            buf[1] = 8;
            Ok(2)
        }
    }

    #[test]
    fn reads_to_the_end_or_till_full(rt: HostRuntime) -> Result<(), Fail> {
        let mut input: &[u8] = b"abcdefg";
        let mut four = [0u8; 4];
        assert_eq!(rt; read_full(&mut input, &mut four)?, 4);
        assert_eq!(rt; &four[..], b"abcd".as_slice());
        assert_eq!(rt; read_full(&mut input, &mut four)?, 3);
        assert_eq!(rt; &four[..], b"efgd".as_slice());
        assert_eq!(rt; read_full(&mut input, &mut four)?, 0);
        Ok(())
    }

    #[test]
    fn hands_on_an_error_in_mid_stream(rt: HostRuntime) {
        let mut input = Failing { left: 2 };
        let mut six = [0u8; 6];
        assert!(rt; read_full(&mut input, &mut six).is_err());
        assert_eq!(rt; &six[..], [7u8, 8, 7, 8, 0, 0].as_slice());
        assert!(rt; read_full(&mut input, &mut six).is_err());
    }
}
