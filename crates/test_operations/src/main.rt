// An outside check of 4.1 and of A-law: puts arguments at and around the ends of the range through every operation, and
// every code and every value of 13 bits through A-law, and prints the results. The stored output is written by
// outside/compare_operations.py, never by this program.
#![tactic(auto)]

use std::fmt::Display;
use std::io;

const WORDS: [i16; 20] = [
    -32768, -32767, -32766, -28180, -16385, -16384, -16383, -4097, -2, -1, 0, 1, 2, 511, 8191,
    16383, 16384, 32735, 32766, 32767,
];

const LONGS: [i32; 20] = [
    -2147483648,
    -2147483647,
    -1073741825,
    -1073741824,
    -65537,
    -65536,
    -32769,
    -32768,
    -2,
    -1,
    0,
    1,
    2,
    32767,
    32768,
    65535,
    65536,
    1073741823,
    1073741824,
    2147483647,
];

const COUNTS: [i16; 20] = [
    -32768, -40, -32, -31, -17, -16, -15, -3, -1, 0, 1, 4, 14, 15, 16, 17, 30, 31, 32, 40,
];

// How far each code and each value of 13 bits lies from the first in its row: a row has 16 codes or 32 values.
const STEPS: [u8; 32] = [
    0, 1, 2, 3, 4, 5, 6, 7, 8, 9, 10, 11, 12, 13, 14, 15, 16, 17, 18, 19, 20, 21, 22, 23, 24, 25,
    26, 27, 28, 29, 30, 31,
];

// What f gives of each argument, and the end of the line.
fn print_results<A: Copy, R: Display + Drop, F: Fn(A) -> R>(
    rt: &impl Print,
    args: &[A],
    f: F,
) -> io::Result<()>
where
    requires { F.IsAlwaysCallable f }
{
    for &a in args {
        let result = f(a);
        print!(rt; "\t{result}")?;
    }
    println!(rt)
}

// A line: its name, and an operation on each argument.
fn print_list<A: Copy, R: Display + Drop, F: Fn(A) -> R>(
    rt: &impl Print,
    name: &str,
    args: &[A],
    f: F,
) -> io::Result<()>
where
    requires { F.IsAlwaysCallable f }
{
    print!(rt; "{name}")?;
    print_results(rt, args, f)
}

// A line for each first argument: the name, that argument, and an operation on it and each second argument.
fn print_table<A: Copy + Display, B: Copy, R: Display + Drop, F: Fn(A, B) -> R>(
    rt: &impl Print,
    name: &str,
    firsts: &[A],
    seconds: &[B],
    f: F,
) -> io::Result<()>
where
    requires { F.IsAlwaysCallable f }
{
    for &a in firsts {
        print!(rt; "{name}\t{a}")?;
        print_results(rt, seconds, |b| f(a, b))?;
    }
    Ok(())
}

fn print_arguments(rt: &impl Print) -> io::Result<()> {
    print_list(rt, "words", &WORDS, |a| a)?;
    print_list(rt, "longs", &LONGS, |x| x)?;
    print_list(rt, "counts", &COUNTS, |n| n)
}

fn print_word_pairs(rt: &impl Print) -> io::Result<()> {
    print_table(rt, "add", &WORDS, &WORDS, op_words::add)?;
    print_table(rt, "sub", &WORDS, &WORDS, op_words::sub)?;
    print_table(rt, "mult", &WORDS, &WORDS, op_words::mult)?;
    print_table(rt, "mult_r", &WORDS, &WORDS, op_words::mult_r)?;
    print_table(rt, "div", &WORDS, &WORDS, op_words::div)?;
    print_table(rt, "l_mult", &WORDS, &WORDS, test_longs::l_mult)
}

fn print_long_pairs(rt: &impl Print) -> io::Result<()> {
    print_table(rt, "l_add", &LONGS, &LONGS, test_longs::l_add)?;
    print_table(rt, "l_sub", &LONGS, &LONGS, test_longs::l_sub)
}

fn print_shifts(rt: &impl Print) -> io::Result<()> {
    print_table(rt, "shr", &WORDS, &COUNTS, op_shifts::shr::<i16>)?;
    print_table(rt, "shl", &WORDS, &COUNTS, op_shifts::shl::<i16>)?;
    print_table(rt, "l_shr", &LONGS, &COUNTS, op_shifts::shr::<i32>)?;
    print_table(rt, "l_shl", &LONGS, &COUNTS, op_shifts::shl::<i32>)
}

fn print_singles(rt: &impl Print) -> io::Result<()> {
    print_list(rt, "abs", &WORDS, op_words::abs)?;
    print_list(rt, "long_word", &WORDS, test_longs::long_word)?;
    print_list(rt, "low_word", &LONGS, test_longs::low_word)
}

// Only a positive number has a norm.
fn print_norms(rt: &impl Print) -> io::Result<()> {
    print!(rt; "norm")?;
    for x in LONGS {
        if 0 < x {
            let norm = op_shifts::norm(x);
            print!(rt; "\t{norm}")?;
        }
    }
    println!(rt)
}

fn print_expand(rt: &impl Print) -> io::Result<()> {
    for i in 0..16u8 {
        let first = 16 * i;
        print!(rt; "expand\t{first}")?;
        print_results(
            rt,
            &STEPS[..16],
            |j| pcm_alaw::expand(first.wrapping_add(j)),
        )?;
    }
    Ok(())
}

fn print_compress(rt: &impl Print) -> io::Result<()> {
    for i in 0..256u16 {
        let first = 32 * i as i16 - 4096;
        print!(rt; "compress\t{first}")?;
        print_results(
            rt,
            &STEPS,
            |j| pcm_alaw::compress(first.wrapping_add(j as i16)),
        )?;
    }
    Ok(())
}

fn print_all(rt: &impl Print) -> io::Result<()> {
    print_arguments(rt)?;
    print_word_pairs(rt)?;
    print_long_pairs(rt)?;
    print_shifts(rt)?;
    print_singles(rt)?;
    print_norms(rt)?;
    print_expand(rt)?;
    print_compress(rt)
}

fn main(rt: HostRuntime) {
    // A write that fails ends the output and nothing else: the status stays 0.
    let _ = print_all(&rt);
}
