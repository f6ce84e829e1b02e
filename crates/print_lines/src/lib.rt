// The lines that the programs share, and those of a recording. Each is put into a lent buffer from an index on; the answer is where it ends.
#![tactic(auto)]

pub mod rehearse;

ghost use Rattle.std.specs.Prelude.{[], ◌∷◌, ◌++◌};
ghost use Rattle.io.specs.Counts.{IsPrefixLen};
ghost use Rattle.text.specs.Digits.{decimal};
ghost use Rattle.text.specs.Put.{Puts};
ghost use Rattle.print_lines.specs.Lines.{four_line, refused_text, fault_said, fault_text};

pub use rehearse::{put_line, put_totals};
use rules::{Fault, Reason};
use text::{put_byte, put_bytes, put_number};

// A number and the byte after it: a space or a newline.
pub fn put_field(out: &mut [u8], at: usize, n: u32, after: u8) -> usize
    requires { IsPrefixLen at out.old }
    ensures { Puts out.old at (decimal n ++ (after ∷ [])) out.new result }
{
    let end = put_number(&mut *out, at, n);
    put_byte(out, end, after)
}

// A line of four numbers.
pub fn put_four(out: &mut [u8], at: usize, a: u32, b: u32, c: u32, d: u32) -> usize
    requires { IsPrefixLen at out.old }
    ensures { Puts out.old at (four_line a b c d) out.new result }
{
    let second = put_field(&mut *out, at, a, b' ');
    let third = put_field(&mut *out, second, b, b' ');
    let fourth = put_field(&mut *out, third, c, b' ');
    put_field(out, fourth, d, b'\n')
}

// A refusal is one line, `refused` and the number.
pub fn put_refusal(out: &mut [u8], at: usize, number: u32) -> usize
    requires { IsPrefixLen at out.old }
    ensures { Puts out.old at (refused_text number) out.new result }
{
    let end = put_bytes(&mut *out, at, b"refused ");
    put_field(out, end, number, b'\n')
}

// What is said of an image's refusal: the same, and with 5 to 8 the action at fault after it.
pub fn put_said(out: &mut [u8], at: usize, fault: Fault) -> usize
    requires { IsPrefixLen at out.old }
    ensures { Puts out.old at (fault_said fault) out.new result }
{
    let word = put_bytes(&mut *out, at, b"refused ");
    let number = put_number(&mut *out, word, fault.number);
    if fault.number < Reason::Spare as u32 {
        return number;
    }
    if (Reason::Loop as u32) < fault.number {
        return number;
    }
    let space = put_byte(&mut *out, number, b' ');
    put_number(out, space, fault.action)
}

// It is one line.
pub fn put_fault(out: &mut [u8], at: usize, fault: Fault) -> usize
    requires { IsPrefixLen at out.old }
    ensures { Puts out.old at (fault_text fault) out.new result }
{
    let end = put_said(&mut *out, at, fault);
    put_byte(out, end, b'\n')
}
