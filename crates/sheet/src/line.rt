// One line of a sheet: six fields with one space between.
ghost use Rattle.std.specs.Prelude.{◌≡◌, true, Some, length};
ghost use Rattle.units.specs.Tests.{◌and◌};
ghost use Rattle.units.specs.Cases.{first_of};
ghost use Rattle.entry.specs.Numbers.{from1to};
ghost use Rattle.sheet.specs.Bytes.{all_digits};
ghost use Rattle.sheet.specs.Line.{refusal_number, read_of, field_number, rest_at, field_at, life_field, is_tenant, is_side, is_size, is_kind, is_dollars, is_price, is_life, wrong_terms, wrong_field, fault_of, side_of, kind_of, price_of, life_of, order_of, line_of};

use crate::bytes::{all_digits, before, behind, is_word, value};
use crate::{Order, Refusal};
use entry::{DAY, Entry, LIMIT, MARKET, NOW};
use units::{Cents, Contracts};

const SPACE: u8 = b' ';

const POINT: u8 = b'.';

// The digits of a size, of a price's dollars and of its cents.
const MOST_SIZE_DIGITS: usize = 6;

const MOST_DOLLAR_DIGITS: usize = 5;

const CENT_DIGITS: usize = 2;

const BUY: u32 = 1;

const SELL: u32 = 2;

// The fields of a line.
#[derive(Clone, Copy, PartialEq, Eq)]
enum Field {
    Tenant,
    Side,
    Size,
    Kind,
    Price,
    Life,
}

// What stands behind the first spaces of a line.
fn rest(line: &[u8], spaces: u32) -> &[u8]
    ensures { result.now ≡ rest_at spaces line.now }
{
    if spaces == 0 {
        line
    } else {
        rest(behind(line, SPACE), spaces - 1)
    }
}

// A field that ends at a space or with the line, counted from 0.
fn field_at(line: &[u8], i: u32) -> &[u8]
    ensures { result.now ≡ field_at i line.now }
{
    before(rest(line, i), SPACE)
}

// The last field, which no space ends.
fn last_field(line: &[u8]) -> &[u8]
    ensures { result.now ≡ life_field line.now }
{
    rest(line, 5)
}

fn is_tenant(f: &[u8]) -> bool
    ensures { result ≡ is_tenant f.now }
{
    f.len() == 1 && all_digits(f)
}

fn is_side(f: &[u8]) -> bool
    ensures { result ≡ is_side f.now }
{
    is_word(f, b"BUY") || is_word(f, b"SELL")
}

// Digits, at least one and at most so many.
fn is_number(f: &[u8], most: usize) -> bool
    ensures { result ≡ (from1to most (length f.now) and all_digits f.now) }
{
    1 <= f.len() && f.len() <= most && all_digits(f)
}

fn is_size(f: &[u8]) -> bool
    ensures { result ≡ is_size f.now }
{
    is_number(f, MOST_SIZE_DIGITS)
}

fn is_kind(f: &[u8]) -> bool
    ensures { result ≡ is_kind f.now }
{
    is_word(f, b"LMT") || is_word(f, b"MKT")
}

// Dollars, a point and two digits of cents.
#[tactic(auto, using(crate::specs::LineLaws::dollars_two, crate::specs::LineLaws::dollars_not_two, crate::specs::LineLaws::dollars_none))]
fn is_dollars(f: &[u8]) -> bool
    ensures { result ≡ is_dollars f.now }
{
    let dollars = before(f, POINT);
    let cents = behind(f, POINT);
    is_number(dollars, MOST_DOLLAR_DIGITS) && cents.len() == CENT_DIGITS && all_digits(cents)
}

// A limit has a price, any other kind a dash.
fn is_price(kind: &[u8], f: &[u8]) -> bool
    ensures { result ≡ is_price kind.now f.now }
{
    if is_word(kind, b"LMT") {
        is_dollars(f)
    } else {
        is_word(f, b"-")
    }
}

fn is_life(f: &[u8]) -> bool
    ensures { result ≡ is_life f.now }
{
    is_word(f, b"DAY") || is_word(f, b"NOW")
}

// The first wrong field among kind, price and life.
#[tactic(auto, unfolding(units::specs::Tests::is_not, units::specs::Tests::pick))]
fn wrong_terms(line: &[u8]) -> Option<Field>
    ensures { field_number result ≡ first_of 0 (wrong_terms line.now) }
{
    let kind = field_at(line, 3);
    if !is_kind(kind) {
        Some(Field::Kind)
    } else if !is_price(kind, field_at(line, 4)) {
        Some(Field::Price)
    } else if !is_life(last_field(line)) {
        Some(Field::Life)
    } else {
        None
    }
}

// The first wrong field from the left.
fn wrong_field(line: &[u8]) -> Option<Field>
    ensures { field_number result ≡ wrong_field line.now }
{
    if !is_tenant(field_at(line, 0)) {
        Some(Field::Tenant)
    } else if !is_side(field_at(line, 1)) {
        Some(Field::Side)
    } else if !is_size(field_at(line, 2)) {
        Some(Field::Size)
    } else {
        wrong_terms(line)
    }
}

// What is wrong with a wrong field: numbers and words take turns.
fn fault(field: Field) -> Refusal
    ensures { refusal_number result ≡ fault_of (field_number (Some field)) }
{
    match field {
        Field::Tenant | Field::Size | Field::Price => Refusal::WrongNumber,
        Field::Side | Field::Kind | Field::Life => Refusal::WrongWord,
    }
}

fn side_of(f: &[u8]) -> u32
    ensures { result ≡ side_of f.now }
{
    if is_word(f, b"BUY") { BUY } else { SELL }
}

fn kind_of(f: &[u8]) -> u32
    ensures { result ≡ kind_of f.now }
{
    if is_word(f, b"LMT") { LIMIT } else { MARKET }
}

// Dollars and cents in cents; 0 where there is a dash.
fn price_of(kind: &[u8], f: &[u8]) -> u32
    requires { is_price kind.now f.now ≡ true }
    ensures { result ≡ price_of kind.now f.now }
{
    if is_word(kind, b"LMT") {
        100 * value(before(f, POINT)) + value(behind(f, POINT))
    } else {
        0
    }
}

fn life_of(f: &[u8]) -> u32
    ensures { result ≡ life_of f.now }
{
    if is_word(f, b"DAY") { DAY } else { NOW }
}

// The order that a line says whose fields are right.
fn order_of(line: &[u8]) -> Order
    requires { wrong_field line.now ≡ 0 }
    ensures { result ≡ order_of line.now }
{
    let kind = field_at(line, 3);
    Order {
        tenant: value(field_at(line, 0)),
        entry: Entry {
            kind: kind_of(kind),
            side: side_of(field_at(line, 1)),
            life: life_of(last_field(line)),
            price: Cents(price_of(kind, field_at(line, 4))),
            size: Contracts(value(field_at(line, 2))),
            number: 0,
        },
    }
}

// What a line says, without its newline: an order, or why it is refused.
pub(crate) fn read_line(line: &[u8]) -> Result<Order, Refusal>
    ensures { read_of result ≡ line_of line.now }
{
    match wrong_field(line) {
        None => Ok(order_of(line)),
        Some(field) => Err(fault(field)),
    }
}
