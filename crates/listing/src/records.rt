// How the records of a table stand in a listing: "R lines `rule=` with 15 numbers, K lines `node=` with 10".

// The key of each line, and how many numbers follow it.
#[derive(Clone, Copy)]
pub(crate) struct Records {
    pub key: &'static [u8],
    pub width: usize,
}

pub(crate) const RULES: Records = Records {
    key: b"rule=",
    width: 15,
};

pub(crate) const NODES: Records = Records {
    key: b"node=",
    width: 10,
};
