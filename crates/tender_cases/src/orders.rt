// The receptions of document 01's session in every order.
ghost use Rattle.tender.specs.Viewed.{Given};

use crate::messages::{announcement, application};
use crate::parts::{initial, rest};
use crate::steps;
use places::{Amount, Rate};
use std::io;
use tender::{Allotted, Tender};

// The four applications.
fn message(k: u8) -> [u8; 339] {
    match k {
        b'0' => application(90002, 102900, 150000, 60000),
        b'1' => application(90001, 103100, 120000, 50000),
        b'2' => application(90003, 103400, 120000, 40000),
        _ => application(90002, 102000, 160000, 80000),
    }
}

// When each of them is received.
fn clock(k: u8) -> u64 {
    match k {
        b'0' => 103000,
        b'1' => 103101,
        b'2' => 103500,
        _ => 104000,
    }
}

// The tender after the reception that stands at an index of an order.
fn arrive(t: Tender, order: &[u8], i: usize) -> Tender
    requires { Given t }
    ensures { Given result }
{
    let k = initial(rest(order, i));
    let m = message(k);
    let mut space = [238u8; 436];
    t.receive(&m, 12032012, clock(k), &mut space).tender
}

// The allotment after the receptions in an order.
fn allotted(order: &[u8]) -> Allotted {
    let t = arrive(steps::opened(announcement()), order, 0);
    let t = arrive(t, order, 1);
    let t = arrive(t, order, 2);
    let t = arrive(t, order, 3);
    t.close(12032012, 110001).tender.allot()
}

// Whether all awards are equal.
fn same_awards(a: [Amount; 640], b: [Amount; 640]) -> bool {
    a.iter().zip(&b).all(|(x, y)| x.0 == y.0)
}

// Whether two marginal rates are one rate.
fn same_rate(a: Option<Rate>, b: Option<Rate>) -> bool {
    match a {
        Some(r) => match b {
            Some(s) => r.0 == s.0,
            None => false,
        },
        None => false,
    }
}

// Whether two allotments give the same awards and the same marginal rate.
fn same(a: Allotted, b: Allotted) -> bool {
    match a.answer {
        Ok(x) => match b.answer {
            Ok(y) => same_awards(x.awards, y.awards) & same_rate(x.marginal, y.marginal),
            Err(_) => false,
        },
        Err(_) => false,
    }
}

// How many of some orders, each of four letters and a blank, give the awards and the marginal rate of the first.
fn equal_to_first(orders: &[u8]) -> u64 {
    let first = allotted(orders);
    orders
        .chunks(5)
        .filter(|order| same(allotted(order), first))
        .count() as u64
}

// In how many orders the awards and the marginal rate are those of the session.
pub fn all(rt: &impl Print) -> io::Result<()> {
    printing::text(rt, b"orders with equal awards")?;
    printing::number(
        rt,
        equal_to_first(
            b"0123 0132 0213 0231 0312 0321 1023 1032 1203 1230 1302 1320 2013 2031 2103 2130 2301 2310 3012 3021 3102 3120 3201 3210",
        ),
    )?;
    printing::end(rt)
}
