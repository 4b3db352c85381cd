// A lent space filled from any reader, for a program that reads its input and allocates nothing. The two programs here have the same as a function of their own.
#![tactic(auto)]

ghost use Rattle.std.specs.Prelude.{◌≤◌, ◌<◌, ◌≡◌, length, take, IfOk};
ghost use Rattle.std.specs.Io.KnownBytes.{Consumes, IsAtEnd};

use std::io;
use std::io::Read;

// Fills the space until it is full or the input ends, and answers how many bytes are there. The reader's type has a name, since two clauses speak of its bytes.
pub fn read_full<R: Read>(reader: &mut R, space: &mut [u8]) -> io::Result<usize>
    ensures within { IfOk result (λ n. n ≤ length space.new) }
    ensures kept { length space.new ≡ length space.old }

    // Where the reader's bytes are known, the first n of the space are the next ones, and it stops short only at their end.
    ensures bytes { IfOk result (λ n. Consumes (R.remaining reader.old) (R.remaining reader.new) (take n space.new)) }
    ensures end { IfOk result (λ n. n < length space.new → IsAtEnd (R.remaining reader.new)) }
{
    let mut done = 0;
    // a read may give any part of what is asked, so no count of turns is known
    while done < space.len() {
        let n = reader.read(&mut space[done..])?;
        if n == 0 {
            return Ok(done);
        }
        done += n;
    }
    Ok(done)
}

#[cfg(test)]
mod tests {
    use super::*;
    use std::io::ErrorKind;
    use std::test::Fail;

    // A reader that gives a byte a read, so many times, and fails then.
    #[derive(Drop)]
    struct Failing(u8);

    impl Read for Failing {
        fn read(&mut self, buf: &mut [u8]) -> io::Result<usize> {
            if self.0 == 0 {
                return Err(ErrorKind::BrokenPipe.into());
            }
            match buf.first_mut() {
                Some(byte) => {
                    *byte = self.0;
                    self.0 -= 1;
                    Ok(1)
                }
                None => Ok(0),
            }
        }
    }

    #[test]
    fn stops_where_the_input_ends(rt: HostRuntime) -> Result<(), Fail> {
        let mut input: &[u8] = b"12345";
        let mut space = *b"........";
        assert_eq!(rt; read_full(&mut input, &mut space)?, 5);
        assert_eq!(rt; space, *b"12345...");
        assert_eq!(rt; read_full(&mut input, &mut space)?, 0);
        Ok(())
    }

    #[test]
    fn stops_where_the_space_is_full(rt: HostRuntime) -> Result<(), Fail> {
        let mut input: &[u8] = b"12345";
        let mut space = *b"...";
        assert_eq!(rt; read_full(&mut input, &mut space)?, 3);
        assert_eq!(rt; space, *b"123");
        assert_eq!(rt; input.len(), 2);
        assert_eq!(rt; read_full(&mut input, &mut [])?, 0);
        assert_eq!(rt; input.len(), 2);
        Ok(())
    }

    #[test]
    fn goes_on_where_a_read_gives_a_part(rt: HostRuntime) -> Result<(), Fail> {
        let first: &[u8] = b"12";
        let second: &[u8] = b"345";
        let mut input = first.chain(second);
        let mut space = *b"........";
        assert_eq!(rt; read_full(&mut input, &mut space)?, 5);
        assert_eq!(rt; space, *b"12345...");
        Ok(())
    }

    #[test]
    fn hands_on_the_readers_error(rt: HostRuntime) -> Result<(), Fail> {
        let mut space = [0; 4];
        assert_eq!(rt; read_full(&mut Failing(4), &mut space)?, 4);
        assert_eq!(rt; space, [4, 3, 2, 1]);
        match read_full(&mut Failing(3), &mut space) {
            Ok(_) => Err("no error came".into()),
            Err(e) => {
                assert_eq!(rt; e.kind(), ErrorKind::BrokenPipe);
                Ok(())
            }
        }
    }
}
