/// A null data code or a qualifier code of one or two characters. `second` is 0 in a code of one.
#[derive(Clone, Copy, Debug, PartialEq, Eq, PartialOrd, Ord)]
pub struct Code {
    pub first: u8,
    pub second: u8,
}
