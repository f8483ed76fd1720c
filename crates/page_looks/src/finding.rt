use std::fmt;

/// What a place of a file is expected to have.
#[derive(Clone, Copy, Debug, PartialEq, Eq)]
pub enum Expected {
    Magic,
    Version,
    Order,
    Clean,
    State,
    Zero,
    Pages(u64),
    Root(u32),
    Records(u32),
    Kind,
    Keys { least: u16, most: u16 },
    KeyLength,
    RecordLength(u8),
    Ascending,
    Between,
    Son(u32),
    Leaf(u32),
    NoDeeper,
}

impl fmt::Display for Expected {
    fn fmt<W: fmt::Write>(&self, f: &mut fmt::Formatter<W>) -> fmt::Result {
        match self {
            Expected::Magic => write!(f, "the text BMKRFILE"),
            Expected::Version => write!(f, "1 or 2, a version"),
            Expected::Order => write!(f, "1 to 16, an order"),
            Expected::Clean => write!(f, "1, of a file that was closed"),
            Expected::State => write!(
                f,
                "1, of a file that was closed, or 2, of one that is being written"
            ),
            Expected::Zero => write!(f, "0, since no field has this byte"),
            Expected::Pages(pages) => write!(f, "{pages}, the pages that the file has"),
            Expected::Root(pages) => write!(f, "a page below {pages}, or 0 for no page"),
            Expected::Records(count) => write!(f, "{count}, the keys that the tree has"),
            Expected::Kind => write!(f, "1, of a leaf, or 2, of an inner page"),
            Expected::Keys { least, most } => write!(f, "{least} to {most}, a number of keys"),
            Expected::KeyLength => write!(f, "1 to 16, the length of a key"),
            Expected::RecordLength(most) => write!(f, "0 to {most}, the length of a record"),
            Expected::Ascending => write!(f, "a key above the one before it"),
            Expected::Between => write!(
                f,
                "a key between those on the two sides in the pages above"
            ),
            Expected::Son(pages) => write!(
                f,
                "a page from 1 to below {pages} that nothing else leads to"
            ),
            Expected::Leaf(level) => write!(f, "a leaf at level {level}, as the first one"),
            Expected::NoDeeper => write!(f, "no inner page as deep as that"),
        }
    }
}

/// A place in a page that isn't as it should be: the page, the byte, what stands there, and what was expected.
#[derive(Clone, Copy, Debug, PartialEq, Eq)]
pub struct Finding {
    pub page: u32,
    pub at: usize,
    pub stands: u32,
    pub expected: Expected,
}

impl fmt::Display for Finding {
    fn fmt<W: fmt::Write>(&self, f: &mut fmt::Formatter<W>) -> fmt::Result {
        let Finding {
            page,
            at,
            stands,
            expected,
        } = self;
        write!(
            f,
            "page {page}, byte {at}: {stands} stands there; expected is {expected}"
        )
    }
}
