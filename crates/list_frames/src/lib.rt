// The lister: a frame's bytes in, its lines out, the encoder kept from frame to frame. What listed promises is in
// specs/Promise.antt.
#![tactic(auto)]

ghost use Rattle.std.specs.Prelude.{◌≡◌, [], ◌+◌, ◌*◌};
ghost use Rattle.standard.specs.Files.{file_words};
ghost use Rattle.standard.specs.House.{home_coder};
ghost use Rattle.standard.specs.Listing.{E_line};
ghost use Rattle.list_frames.specs.Promise.{state, Lists};

use encoder::Encoder;
use list_text::{Lines, Text};

// What is kept from frame to frame: how many are listed, and the encoder.
#[derive(Clone, Copy)]
pub struct Lister {
    pub frames: u32,
    pub encoder: Encoder,
}

// The lister after a frame, and the frame's lines.
#[derive(Clone, Copy)]
pub struct Listed {
    pub state: Lister,
    pub lines: Lines,
}

// The 160 samples of a frame's bytes.
fn samples(bytes: &[u8; 320]) -> [i16; 160]
    ensures { result ≡ file_words bytes.now }
{
    let mut sop = [0; 160];
    io_files::from_bytes(bytes, &mut sop);
    sop
}

impl Lister {
    // Nothing listed yet, the encoder at home.
    pub fn start() -> Lister
        ensures { state result ≡ (0, home_coder) }
    {
        Lister {
            frames: 0,
            encoder: Encoder::home(),
        }
    }

    // No frame listed.
    fn nothing(self) -> Listed
        ensures state { result.state ≡ self }
        ensures lines { result.lines.items ≡ [] }
    {
        Listed {
            state: self,
            lines: Lines::of(&Text::new()),
        }
    }

    // The five lines of the next frame, whose 320 bytes are passed. Past the limit, or where encode refuses, nothing is
    // listed.
    pub fn listed(self, bytes: &[u8; 320]) -> Listed
        ensures { Lists self bytes.now result }
    {
        if 1000000 <= self.frames {
            return self.nothing();
        }
        let mut codewords = [0; 76];
        let Ok(coded) = self.encoder.encode(&samples(bytes), &mut codewords) else {
            return self.nothing();
        };
        let [first, second, third, fourth] = coded.marks;
        let frames = self.frames + 1;
        let lines = list_lines::frame_lines(
            frames,
            Some(coded.ending),
            [Some(first), Some(second), Some(third), Some(fourth)],
            &codewords,
        );
        Listed {
            state: Lister {
                frames,
                encoder: coded.state,
            },
            lines: Lines::of(&lines),
        }
    }

    // The E line, where `rest` bytes follow the frames that are listed. Past the limit any number above 0 gives the
    // same line.
    pub fn ended(self, rest: u32) -> Text
        ensures { result.items ≡ E_line (self.frames * 320 + rest) }
    {
        list_borders::e_line(self.frames.saturating_mul(320).saturating_add(rest))
    }
}
