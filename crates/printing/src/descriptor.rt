// A file descriptor as a reader and a writer. What has not been read of it and what it holds are not known, and of a failure nothing but that it was
// one: no error number is asked for. A read that fails is told as the end.
use std::io::{Error, ErrorKind, Read, Result, Write};

#[derive(Drop)]
pub struct Descriptor {
    pub fd: i32,
    // a read met the end: no other is made
    pub ended: bool,
}

impl Read for Descriptor {
    // As much as there is.
    fn read(&mut self, buf: &mut [u8]) -> Result<usize> {
        if self.ended {
            return Ok(0);
        }
        let n = io::read_full(self.fd, buf);
        self.ended = n < buf.len();
        Ok(n)
    }
}

impl Write for Descriptor {
    // All of it, or a failure.
    fn write(&mut self, buf: &[u8]) -> Result<usize> {
        if !io::write_all(self.fd, buf) {
            return Err(Error::from(ErrorKind::Other));
        }
        Ok(buf.len())
    }

    fn flush(&mut self) -> Result<()> {
        Ok(())
    }
}
