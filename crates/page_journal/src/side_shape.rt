/// How many pages a file had when its side file was made, how many of them the side file has, and the sum over the
/// others, which one of the first version doesn't say.
#[derive(Clone, Copy, Debug, PartialEq, Eq)]
pub struct SideShape {
    pub long: u32,
    pub kept: u32,
    pub rest: Option<u64>,
}
