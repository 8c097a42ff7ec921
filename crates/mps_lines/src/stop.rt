// Why a text is not read, and places of a text.

use mps_grammar::FaultKind;

/// A place of a text: a byte, and the number of the line that begins there.
#[derive(Clone, Copy, Debug, PartialEq, Eq)]
pub struct Place {
    pub byte: usize,
    pub line: u32,
}

/// Why a text is not read.
#[derive(Clone, Copy, Debug, PartialEq, Eq)]
pub enum ReadStop {
    /// Memory ran out.
    Memory,
    /// The line with this number has a fault, and no line before it has one.
    Fault { line: u32, kind: FaultKind },
}
