// The worked example of the paper, call by call, each turn and the open with a row of fills of its own; the fills of
// both turns are printed.
#![tactic(auto)]

use book::{Book, Fill};
use entry::Settings;
use entry::refusal::Refusal;
use fills::on_row::{OnRow, open_on_row, turn_on_row};
use fills::turn_fills;
use lanes::ALL_ENTRIES;
use session::{Session, Taken};
use std::io;
use units::Cents;

// Time class, grid 1, a call at 10000, D 10, F 20, x 10, least 25, greatest 500, no prints.
fn worked() -> Settings {
    Settings {
        allocation: 1,
        grid: 1,
        option: 1,
        strike: Cents(10000),
        drill: Cents(10),
        far: Cents(20),
        percent: 10,
        least: Cents(25),
        greatest: Cents(500),
        print: Cents(0),
        close: Cents(0),
    }
}

fn number(rt: &HostRuntime, n: u32) -> io::Result<()> {
    print!(rt; " {n}")
}

fn show_fill(rt: &HostRuntime, f: Fill) -> io::Result<()> {
    print!(rt; "fill")?;
    number(rt, f.number)?;
    number(rt, f.tenant)?;
    number(rt, f.quantity.0)?;
    number(rt, f.price.0)?;
    println!(rt)
}

// The fills that the turn wrote.
fn show(rt: &HostRuntime, done: &OnRow<Result<Taken, Refusal>>) -> io::Result<()> {
    let count = turn_fills(done.returned);
    for &f in done.row.iter().take(count) {
        show_fill(rt, f)?;
    }
    Ok(())
}

fn main(rt: HostRuntime) -> io::Result<()> {
    let mut book = Book::new();
    let mut entries = [0u32; ALL_ENTRIES];
    let buy = [1u32, 1, 1, 100, 5, 0];
    let sell = [1u32, 2, 2, 100, 3, 0];
    let mut session = Session::new();
    let _ = session.settings(worked(), &mut book, &mut entries);
    let _ = open_on_row(&mut session, &mut book);
    let _ = session.submit(2, 1, &buy, &mut entries);
    let _ = session.submit(7, 1, &sell, &mut entries);
    let first = turn_on_row(&mut session, &mut book, &entries);
    show(&rt, &first)?;
    let second = turn_on_row(&mut session, &mut book, &entries);
    show(&rt, &second)
}
