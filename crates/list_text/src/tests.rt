// A copied text is handed out as it was put in.

use super::*;

#[test]
fn lines_are_handed_out(rt: HostRuntime) {
    let mut out = Text::new();
    text(b"S\t40\n", &mut out);
    let lines = Lines::of(&out);
    let copy = lines;
    assert_eq!(rt; lines.as_slice(), b"S\t40\n".as_slice());
    assert_eq!(rt; copy.as_slice(), b"S\t40\n".as_slice());
    assert_eq!(rt; Lines::of(&Text::new()).as_slice(), b"".as_slice());
}
