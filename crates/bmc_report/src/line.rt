use arrayvec::ArrayString;

// The most bytes of a line: that of a board, with a name of 64 bytes that are all escaped, has 313.
const LONGEST_LINE: usize = 320;

// A line is put together here and appended at once: each append to a text asks whether there is room.
pub(crate) type Line = ArrayString<LONGEST_LINE>;
