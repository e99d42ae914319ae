ghost use Rattle.std.specs.Prelude.{◌≡◌};
ghost use Rattle.rx_print.specs.Escape.{back_of, front_of, is_special};

use rx_text::is_printable;

/// Where bytes are to stand.
#[derive(Clone, Copy)]
pub enum Style {
    /// In the text or in a quoted attribute of an HTML page: as `&#x3C;`.
    Html,
    /// In a JSON string: as `\u0022`.
    Json,
    /// On a line of a terminal: as `\x1B`.
    Terminal,
}

impl Style {
    // Whether the byte is written as its number.
    pub(crate) fn is_special(self, byte: u8) -> bool
        ensures { result ≡ is_special self byte }
    {
        !is_printable(byte)
            || match self {
                Style::Html => {
                    byte == b'&' || byte == b'<' || byte == b'>' || byte == b'"' || byte == b'\''
                }
                Style::Json => byte == b'"' || byte == b'\\',
                Style::Terminal => byte == b'\\',
            }
    }

    // What stands before the two digits of a byte's number.
    pub(crate) fn front(self) -> &'static [u8]
        ensures { result.now ≡ front_of self }
    {
        match self {
            Style::Html => b"&#x",
            Style::Json => b"\\u00",
            Style::Terminal => b"\\x",
        }
    }

    // What stands after them.
    pub(crate) fn back(self) -> &'static [u8]
        ensures { result.now ≡ back_of self }
    {
        match self {
            Style::Html => b";",
            Style::Json | Style::Terminal => b"",
        }
    }
}
