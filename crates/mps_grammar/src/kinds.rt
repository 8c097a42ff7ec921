// The faults of program files.

ghost use Rattle.std.specs.Prelude.{◌≡◌};
ghost use Rattle.mps_grammar.specs.Words.{word_of};

/// What is wrong with a program file.
#[derive(Clone, Copy, Debug, PartialEq, Eq)]
pub enum FaultKind {
    /// A line has a byte past place 1,048,576 of the text.
    TextLong,
    /// A line that isn't a comment has a byte other than tab and 32 to 126.
    NotAscii,
    /// A header isn't one of the known words.
    UnknownSection,
    /// A header `OBJSENSE`.
    MaxSense,
    /// A header against the order of the sections, or a data line before `ROWS`.
    SectionOrder,
    /// A header `COLUMNS` where no row is an objective.
    NoObjective,
    /// A row's kind isn't `N`, `L`, `G` or `E`.
    RowKind,
    /// A bound's kind isn't one of the nine.
    BoundKind,
    /// A data line has too few or too many fields.
    Fields,
    /// A marker line that neither begins nor ends a stretch as it should, or a row named `'MARKER'`.
    Marker,
    /// A name has more than 64 bytes.
    NameLong,
    /// A row or a column isn't known.
    NameUnknown,
    /// A number isn't spelt as one.
    NumberText,
    /// A number is too large or too fine.
    NumberPast,
    /// A row's name was given before.
    NameTwice,
    /// An entry, a right side, a range or a pair was given before.
    EntryTwice,
    /// The 129th row or column.
    TooMany,
    /// There is no `ENDATA`.
    NoEnd,
    /// A side that a range makes is too large or too fine.
    RangePast,
    /// An entry of the quadratic part isn't the one across the diagonal.
    NotSymmetric,
}

impl FaultKind {
    /// The word that is printed.
    pub fn word(self) -> &'static str
        ensures { result.now ≡ word_of self }
    {
        match self {
            FaultKind::TextLong => "TextLong",
            FaultKind::NotAscii => "NotAscii",
            FaultKind::UnknownSection => "UnknownSection",
            FaultKind::MaxSense => "MaxSense",
            FaultKind::SectionOrder => "SectionOrder",
            FaultKind::NoObjective => "NoObjective",
            FaultKind::RowKind => "RowKind",
            FaultKind::BoundKind => "BoundKind",
            FaultKind::Fields => "Fields",
            FaultKind::Marker => "Marker",
            FaultKind::NameLong => "NameLong",
            FaultKind::NameUnknown => "NameUnknown",
            FaultKind::NumberText => "NumberText",
            FaultKind::NumberPast => "NumberPast",
            FaultKind::NameTwice => "NameTwice",
            FaultKind::EntryTwice => "EntryTwice",
            FaultKind::TooMany => "TooMany",
            FaultKind::NoEnd => "NoEnd",
            FaultKind::RangePast => "RangePast",
            FaultKind::NotSymmetric => "NotSymmetric",
        }
    }
}
