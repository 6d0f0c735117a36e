// A counted run takes as many turns as it is told, and what a turn keeps is there in the next one. Its promise says
// neither.

ghost use Rattle.std.specs.Prelude.{[]};
ghost use Rattle.std.proofs.Common.{rules};

use super::*;

// Frames of two bytes. It keeps their count and, in order, the first byte of each as a decimal digit.
#[derive(Clone, Copy)]
struct Reader {
    frames: u32,
    digits: u32,
}

impl FrameCoder for Reader {
    const BYTES_IN: usize = 2;

    const BYTES_OUT: usize = 0;

    ghost BYTES_IN = { 2 };

    ghost BYTES_OUT = { 0 };

    ghost State = { Unit {0} };

    ghost state = { λ _. tt };

    ghost step = { λ _ _. (tt, []) };

    ghost limit = { λ _. 1000 };

    ghost some_bytes = { Prim.search rules };

    fn frame(&mut self, bytes: &[u8], _out: &mut [u8]) -> usize {
        self.frames = self.frames.wrapping_add(1);
        self.digits = self
            .digits
            .wrapping_mul(10)
            .wrapping_add(u32::from(bytes[0]));
        0
    }

    fn left(&self) -> usize {
        1000
    }
}

// What was read of the input in so many turns. A turn has room for two frames and a half.
fn taken(rt: &HostRuntime, mut input: &[u8], high: u32, low: u32) -> Reader {
    let mut reader = Reader {
        frames: 0,
        digits: 0,
    };
    let mut room = [0; 5];
    let outcome = run_counted(&mut input, rt, &mut reader, high, low, &mut room, &mut []);
    if outcome.is_err() {
        reader.digits = u32::MAX;
    }
    reader
}

#[test]
fn turns_are_counted(rt: HostRuntime) {
    let input = [1, 0, 2, 0, 3, 0, 4, 0, 5, 0, 6];
    assert_eq!(rt; taken(&rt, &input, 0, 0).digits, 0);
    assert_eq!(rt; taken(&rt, &input, 0, 1).digits, 12);
    assert_eq!(rt; taken(&rt, &input, 0, 2).digits, 1234);
    assert_eq!(rt; taken(&rt, &input, 0, 3).digits, 12345);
    assert_eq!(rt; taken(&rt, &input, 1, 0).digits, 12345);
    assert_eq!(rt; taken(&rt, &input, u32::MAX, u32::MAX).digits, 12345);
}

// More turns than 16 bits hold.
#[test]
fn many_turns_are_counted(rt: HostRuntime) {
    let input = [0; 300000];
    assert_eq!(rt; taken(&rt, &input, 0, 70000).frames, 140000);
    assert_eq!(rt; taken(&rt, &input, 1, 0).frames, 150000);
}
