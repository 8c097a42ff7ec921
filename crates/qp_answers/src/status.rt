//! How a run ends.

ghost use Rattle.std.specs.Prelude.{◌≡◌};
ghost use Rattle.qp_answers.specs.Codes.{code_of};

/// How a run ended.
#[derive(Clone, Copy, Debug, PartialEq, Eq)]
pub enum Status {
    /// The task was done, and its text was written.
    Done,
    /// The input isn't taken; its line and kind were written.
    FileRefused,
    /// The words aren't taken; the usage line was written.
    Usage,
    /// No verdict; what it was withheld for was written.
    Withheld,
    /// Reading failed, and nothing was written.
    ReadFault,
    /// Writing failed; a front of the text was written.
    WriteFault,
    /// Memory ran out; a front of the text was written.
    Memory,
    /// A test of the certificate failed; its rule and place were written.
    Rejected,
}

impl Status {
    /// The exit status.
    pub fn code(self) -> u8
        ensures { result ≡ code_of self }
    {
        self as u8
    }
}
