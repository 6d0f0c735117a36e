// House rules, 'Listing': the first line of the listing and the last, as bytes.
#![tactic(auto)]

ghost use Rattle.std.specs.Prelude.{◌≡◌};
ghost use Rattle.standard.specs.Listing as standard;

use list_text::{Text, field, text};

// The header: the name and the format's number.
pub fn header() -> Text
    ensures { result.items ≡ standard.header }
{
    let mut line = Text::new();
    text(b"RPELTP\t1\n", &mut line);
    line
}

// The E line of an input of so many bytes.
pub fn e_line(bytes: u32) -> Text
    ensures { result.items ≡ standard.E_line bytes }
{
    let mut line = Text::new();
    if 320000000 < bytes {
        text(b"E\t1000000\t0\t0\tlimit\n", &mut line);
    } else {
        text(b"E", &mut line);
        field(bytes / 320, &mut line);
        field(bytes % 320 / 2, &mut line);
        field(bytes % 2, &mut line);
        text(b"\tend\n", &mut line);
    }
    line
}
