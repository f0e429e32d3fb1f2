// Why a column is not filled.

// The column has no room for what was to stand there.
#[derive(Clone, Copy, PartialEq, Eq, Debug)]
pub struct NoRoom;
