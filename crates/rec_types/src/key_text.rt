use crate::key::Key;
use std::fmt;
use std::fmt::Write;

/// A key as replies write it: the bytes 0 to 32, 37 and 127 to 255 as `%` and two digits.
impl fmt::Display for Key {
    fn fmt<W: fmt::Write>(&self, f: &mut fmt::Formatter<W>) -> fmt::Result {
        for byte in self.bytes() {
            match *byte {
                33..=36 | 38..=126 => f.write_char(char::from(*byte))?,
                _ => write!(f, "%{byte:02X}")?,
            }
        }
        Ok(())
    }
}
