//! The two versions of a journal's file.
ghost use Rattle.std.specs.Prelude.{◌≡◌};
ghost use Rattle.batch_journal.specs.Frames.{number_of, header_text};

// The version of a file by its header, or the format of the frames at a place.
#[derive(Clone, Copy, Drop, PartialEq, Eq)]
pub(crate) enum Version {
    // Frames of format 1, and those of format 2 behind a marker.
    One,
    // Frames of format 2.
    Two,
}

impl Version {
    pub(crate) fn number(self) -> u8
        ensures { result ≡ number_of self }
    {
        match self {
            Version::One => 1,
            Version::Two => 2,
        }
    }

    // The text behind the first byte of a header.
    pub(crate) fn text(self) -> [u8; 14]
        ensures { result ≡ header_text self }
    {
        match self {
            Version::One => *b"DO-JOURNAL-V1\n",
            Version::Two => *b"DO-JOURNAL-V2\n",
        }
    }
}
