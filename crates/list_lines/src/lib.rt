// House rules, 'Listing': the lines of a frame as bytes, from what encode answers.
#![tactic(auto)]

ghost use Rattle.std.specs.Prelude.{◌≡◌, [], ◌∷◌, ◌++◌, map, ◌+◌, ◌*◌, ◌≤◌, length};
ghost use Rattle.standard.specs.Listing.{most_frames, decimal, word};
ghost use Rattle.list_lines.specs.Told.{told_ending, told_mark};
ghost use Rattle.list_text.specs.Fields.{tabbed};
ghost use Rattle.list_lines.specs.Lines.{ending_field, mark_field, F_text, S_text, frame_text};

use encoder::{Ending, Mark};
use list_text::{Text, decimal, field, fields, text};

// The field that says how the recursion ended, after its tab; nothing, where there is no ending.
fn ending_field(e: Option<Ending>, out: &mut Text)
    requires { length out.old.items + 12 ≤ 1024 }
    ensures text { out.new.items ≡ out.old.items ++ ending_field (told_ending e) }
    ensures room { length out.new.items ≤ length out.old.items + 12 }
{
    let Some(e) = e else {
        return;
    };
    match e {
        Ending::Silent => text(b"\tsilent", out),
        Ending::Stopped(n) => {
            text(b"\tstop", out);
            decimal(u32::from(n), out);
        }
        Ending::Complete => text(b"\tcomplete", out),
    }
}

// The field of a lag's mark, after its tab; nothing, where there is none.
fn mark_field(m: Option<Mark>, out: &mut Text)
    requires { length out.old.items + 6 ≤ 1024 }
    ensures text { out.new.items ≡ out.old.items ++ mark_field (told_mark m) }
    ensures room { length out.new.items ≤ length out.old.items + 6 }
{
    let Some(m) = m else {
        return;
    };
    match m {
        Mark::Rule => text(b"\trule", out),
        Mark::Found => text(b"\tfound", out),
    }
}

// A line's first two fields: its letter and the frame's number.
fn led(letter: u8, frame: u32, out: &mut Text)
    requires { (frame ≤ most_frames) × (length out.old.items + 9 ≤ 1024) }
    ensures text { out.new.items ≡ out.old.items ++ (letter ∷ 9 ∷ decimal frame) }
    ensures room { length out.new.items ≤ length out.old.items + 9 }
{
    out.push(letter);
    field(frame, out);
}

// The codewords that end a line, each after a tab, and the line feed.
fn closed(words: &[i16], out: &mut Text)
    requires { length out.old.items + 8 * length words.now + 1 ≤ 1024 }
    ensures text { out.new.items ≡ out.old.items ++ (tabbed (map word words.now) ++ (10 ∷ [])) }
    ensures room { length out.new.items ≤ length out.old.items + 8 * length words.now + 1 }
{
    fields(words, out);
    out.push(b'\n');
}

// The F line: frame, ending, LARc 1 to 8.
fn f_line(frame: u32, e: Option<Ending>, larc: &[i16], out: &mut Text)
    requires { (frame ≤ most_frames) × (length larc.now ≡ 8) × (length out.old.items + 86 ≤ 1024) }
    ensures text { out.new.items ≡ out.old.items ++ F_text frame (told_ending e) larc.now }
    ensures room { length out.new.items ≤ length out.old.items + 86 }
{
    led(b'F', frame, out);
    ending_field(e, out);
    closed(larc, out);
}

// The S line: frame, sub-frame, mark, then its 17 codewords.
fn s_line(frame: u32, n: u32, m: Option<Mark>, words: &[i16], out: &mut Text)
    requires { (frame ≤ most_frames) × (n ≤ 4) × (length words.now ≡ 17) × (length out.old.items + 160 ≤ 1024) }
    ensures text { out.new.items ≡ out.old.items ++ S_text frame n (told_mark m) words.now }
    ensures room { length out.new.items ≤ length out.old.items + 160 }
{
    led(b'S', frame, out);
    field(n, out);
    mark_field(m, out);
    closed(words, out);
}

// The five lines of a frame: five calls and no loop, so that each range of the codewords stands here.
pub fn frame_lines(frame: u32, e: Option<Ending>, marks: [Option<Mark>; 4], c: &[i16; 76]) -> Text
    requires { frame ≤ most_frames }
    ensures { result.items ≡ frame_text frame (told_ending e) (map told_mark marks) c.now }
{
    let [first, second, third, fourth] = marks;
    let mut lines = Text::new();
    f_line(frame, e, &c[..8], &mut lines);
    s_line(frame, 1, first, &c[8..25], &mut lines);
    s_line(frame, 2, second, &c[25..42], &mut lines);
    s_line(frame, 3, third, &c[42..59], &mut lines);
    s_line(frame, 4, fourth, &c[59..76], &mut lines);
    lines
}
