/// A form of records, one in a line, as other programs have them.
#[derive(Clone, Copy, Debug, PartialEq, Eq)]
pub enum Form {
    /// The key, a tab, the record; a tab, LF, CR and backslash in them are `\t`, `\n`, `\r` and `\\`.
    Tsv,
    /// Key and record in quotation marks with a comma between them; a mark in them is written twice.
    Csv,
    /// An object with the texts `key` and `record`, in which each byte is the character of its number.
    Json,
}
