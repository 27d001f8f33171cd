// What the reader hands out.

#[derive(Clone, Copy)]
pub enum Token<'a> {
    Open,
    Close,
    And,
    Or,
    Implies,
    Until,
    Not,
    Next,
    Always,
    Eventually,
    True,
    False,
    Name(&'a [u8]),
}

// A token and the byte of the text at which it begins.
#[derive(Clone, Copy)]
pub struct Placed<'a> {
    pub token: Token<'a>,
    pub place: usize,
}
