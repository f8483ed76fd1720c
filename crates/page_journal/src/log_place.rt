/// Where the text of a log of commits ends, and up to where it is known to be zeros behind that.
#[derive(Clone, Copy, Debug, PartialEq, Eq)]
pub struct LogPlace {
    pub end: usize,
    pub long: usize,
}
