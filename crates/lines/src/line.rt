// The lines: each is laid out in the output from a place on, and the answer is the place after it.
ghost use Rattle.std.specs.Prelude.{◌++◌, ◌≤◌, length};
ghost use Rattle.lines.specs.Lines.{newline as Lines·newline, spaced};
ghost use Rattle.lines.specs.Lines.{set_line, away_line, submit_line, turn_line, refused_line};
ghost use Rattle.lines.specs.Lines.{open_line, fill_line_of, gone_line, tape_line, end_line};
ghost use Rattle.lines.specs.Lines.{tally_line};
ghost use Rattle.lines.specs.Laying.{longest, longest_tally, longest_word, Room, Laid};

use crate::Output;
use crate::parts::{long_number, newline, number, word};
use book::Fill;
use units::{Cents, Contracts};

// A word and one number.
fn named(out: &mut Output, at: usize, w: &[u8], n: u32) -> usize
    requires room { Room out.old at longest }
    requires w_len_bound { length w.now ≤ longest_word }
    ensures { Laid out.old at (w.now ++ spaced n ++ Lines·newline) longest out.new result }
{
    let a = word(out, at, w);
    let b = number(out, a, n);
    newline(out, b)
}

// What settings are answered: `set C`.
pub fn set_line(out: &mut Output, at: usize, code: u32) -> usize
    requires { Room out.old at longest }
    ensures { Laid out.old at (set_line code) longest out.new result }
{
    named(out, at, b"set", code)
}

// What an away quote is answered: `away C`.
pub fn away_line(out: &mut Output, at: usize, code: u32) -> usize
    requires { Room out.old at longest }
    ensures { Laid out.old at (away_line code) longest out.new result }
{
    named(out, at, b"away", code)
}

// What a submit is answered: `submit C`.
pub fn submit_line(out: &mut Output, at: usize, code: u32) -> usize
    requires { Room out.old at longest }
    ensures { Laid out.old at (submit_line code) longest out.new result }
{
    named(out, at, b"submit", code)
}

// A taken turn: `turn T C N F D`.
pub fn turn_line(
    out: &mut Output,
    at: usize,
    tenant: u32,
    code: u32,
    order: u32,
    filled: Contracts,
    disposition: u32,
) -> usize
    requires { Room out.old at longest }
    ensures { Laid out.old at (turn_line tenant code order filled.0 disposition) longest out.new result }
{
    let a = word(out, at, b"turn");
    let b = number(out, a, tenant);
    let c = number(out, b, code);
    let d = number(out, c, order);
    let e = number(out, d, filled.0);
    let f = number(out, e, disposition);
    newline(out, f)
}

// A refused turn: `refused C`.
pub fn refused_line(out: &mut Output, at: usize, code: u32) -> usize
    requires { Room out.old at longest }
    ensures { Laid out.old at (refused_line code) longest out.new result }
{
    named(out, at, b"refused", code)
}

// An opening: `open C P V`.
pub fn open_line(out: &mut Output, at: usize, code: u32, price: Cents, volume: Contracts) -> usize
    requires { Room out.old at longest }
    ensures { Laid out.old at (open_line code price.0 volume.0) longest out.new result }
{
    let a = word(out, at, b"open");
    let b = number(out, a, code);
    let c = number(out, b, price.0);
    let d = number(out, c, volume.0);
    newline(out, d)
}

// A fill: `fill N T Q P`.
pub fn fill_line(out: &mut Output, at: usize, f: Fill) -> usize
    requires { Room out.old at longest }
    ensures { Laid out.old at (fill_line_of f) longest out.new result }
{
    let a = word(out, at, b"fill");
    let b = number(out, a, f.number);
    let c = number(out, b, f.tenant);
    let d = number(out, c, f.quantity.0);
    let e = number(out, d, f.price.0);
    newline(out, e)
}

// An order that the opening cancelled: `gone N`.
pub fn gone_line(out: &mut Output, at: usize, order: u32) -> usize
    requires { Room out.old at longest }
    ensures { Laid out.old at (gone_line order) longest out.new result }
{
    named(out, at, b"gone", order)
}

// A refused tape: `tape C B`.
pub fn tape_line(out: &mut Output, at: usize, code: u32, place: u64) -> usize
    requires { Room out.old at longest }
    ensures { Laid out.old at (tape_line code place) longest out.new result }
{
    let a = word(out, at, b"tape");
    let b = number(out, a, code);
    let c = long_number(out, b, place);
    newline(out, c)
}

// A tape that ends between events: `end`.
pub fn end_line(out: &mut Output, at: usize) -> usize
    requires { Room out.old at longest }
    ensures { Laid out.old at end_line longest out.new result }
{
    word(out, at, b"end\n")
}

// What a tenant has done: `tally T TURNS BOUGHT SOLD`.
pub fn tally_line(
    out: &mut Output,
    at: usize,
    tenant: u32,
    turns: u64,
    bought: u64,
    sold: u64,
) -> usize
    requires { Room out.old at longest_tally }
    ensures { Laid out.old at (tally_line tenant turns bought sold) longest_tally out.new result }
{
    let a = word(out, at, b"tally");
    let b = number(out, a, tenant);
    let c = long_number(out, b, turns);
    let d = long_number(out, c, bought);
    let e = long_number(out, d, sold);
    newline(out, e)
}
