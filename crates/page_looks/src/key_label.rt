use rec_types::Key;
use std::fmt;
use std::fmt::Write;

/// A key as a picture writes it: as replies do, with `&`, `<` and `>` by their names.
#[derive(Clone, Copy)]
pub struct KeyLabel(pub Key);

impl fmt::Display for KeyLabel {
    fn fmt<W: fmt::Write>(&self, f: &mut fmt::Formatter<W>) -> fmt::Result {
        for byte in self.0.bytes() {
            match *byte {
                b'&' => f.write_str("&amp;")?,
                b'<' => f.write_str("&lt;")?,
                b'>' => f.write_str("&gt;")?,
                33..=36 | 38..=126 => f.write_char(char::from(*byte))?,
                _ => write!(f, "%{byte:02X}")?,
            }
        }
        Ok(())
    }
}
